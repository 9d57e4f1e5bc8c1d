ghost use Rattle.std.specs.Prelude.{◌≡◌, ◌≢◌, true, ◌≤◌, length, [], None, Some, if◌then◌else◌};
ghost use Rattle.curp_io.specs.Streams.{Rose, SameCount};
ghost use Rattle.curp_disk.specs.Calls.{seen_of, LeftNow, LeftSince};
ghost use Rattle.curp_disk.specs.Disk.{Elapses, GivesBytes, HasLength, IsWithin, Narrows};
ghost use Rattle.curp_disk.specs.InMemory.{StopRan, crashed, one_less, stopped, stops};
ghost use Rattle.curp_disk.specs.Moments.{reads_now, counts_now, only_now};
ghost use Rattle.curp_disk.specs.declared.medium.Call.TheVariants.{Write, Sync};

use crate::disk::{Did, Disk, Long};
use crate::medium::Medium;
use curp_io::Turn;
use std::alloc::Global;
use std::marker::Model;

/// A disk in memory, empty at first, that fails only where it is armed. Its memory grows as a `MemoryDisk`'s.
pub struct StopDisk {
    medium: Medium,
    armed: Option<u64>,
    faults: u64,
}

impl Drop for StopDisk {
    fn drop(self) {
        let StopDisk {
            medium: _,
            armed: _,
            faults: _,
        } = self;
    }
}

impl Model for StopDisk {
    ghost use Rattle.curp_disk.specs.InMemory.{StopParts};

    ghost Value = { StopParts };

    ghost view = { λ d. record { played = d.medium; armed = d.armed; faults = d.faults } };
}

impl StopDisk {
    pub fn new(alloc: Global) -> StopDisk
        ensures { result ≡ record { played = record { first = []; calls = [] }; armed = None; faults = 0 } }
    {
        StopDisk {
            medium: Medium::new(alloc),
            armed: None,
            faults: 0,
        }
    }

    /// The call of this number, counted from 1 over the later calls of `write_at` and `sync`, and each of them after it,
    /// does nothing and fails.
    pub fn arm(&mut self, call: u64)
        ensures { self.new ≡ record self.old { armed = Some call } }
    {
        self.armed = Some(call);
    }

    /// A crash: the writes since the last sync are all kept, or all lost. The disk isn't armed any more. It takes no
    /// memory.
    pub fn crash(&mut self, kept: bool)
        ensures { self.new ≡ record {
          played = crashed kept self.old.played;
          armed = None;
          faults = self.old.faults;
        } }
    {
        self.medium.crash(kept);
        self.armed = None;
    }

    // Counts a call, and says whether the disk stops at it.
    fn turn(&mut self) -> Turn
        ensures played { self.new.played ≡ self.old.played }
        ensures armed { self.new.armed ≡ one_less self.old.armed }
        ensures faults { self.new.faults ≡ stopped self.old }
        ensures never_falls { self.old.faults ≤ self.new.faults }
        ensures turn { result ≡ (if stops self.old.armed then Turn.Fails else Turn.Goes) }
    {
        match self.armed {
            None => Turn::Goes,
            Some(left) => {
                if left < 2 {
                    self.faults = self.faults.saturating_add(1);
                    Turn::Fails
                } else {
                    self.armed = Some(left - 1);
                    Turn::Goes
                }
            }
        }
    }
}

impl Disk for StopDisk {
    ghost tells = { true };

    ghost seen = { λ d. seen_of d.played };

    ghost may_leave = { λ d. LeftNow d.played };

    ghost moment = { λ d. length d.played.calls };

    ghost left_since = { λ d. LeftSince d.played };

    ghost faults = { λ d. d.faults };

    ghost sound = { λ d. d.armed ≡ None };

    ghost wrote = { λ old at bytes result new. StopRan old (Write at bytes) result new };

    ghost synced = { λ old result new. StopRan old Sync result new };

    ghost reads_now = { λ d. reads_now d.played };

    ghost counts_now = { λ d. counts_now d.played };

    ghost only_now = { λ d. only_now d.played };

    fn read(&mut self, at: u64, buf: &mut [u8]) -> Did
        ensures within { IsWithin result (length buf.new) }
        ensures bytes { true ≡ true → GivesBytes (seen_of self.old.played) at result buf.new }
        ensures seen { seen_of self.new.played ≡ seen_of self.old.played }
        ensures crash { Narrows (LeftNow self.old.played) (LeftNow self.new.played) }
        ensures time { Elapses (length self.old.played.calls) (length self.new.played.calls)
            (LeftSince self.old.played) (LeftSince self.new.played) (LeftNow self.new.played) }
        ensures sound { self.old.armed ≡ None → (result ≢ Did.Failed) × (self.new.armed ≡ None) }
        ensures cause { result ≡ Did.Failed → Rose self.old.faults self.new.faults }
        ensures told { result ≢ Did.Failed → SameCount self.old.faults self.new.faults }
        ensures never_falls { self.old.faults ≤ self.new.faults }
        ensures same { self.new ≡ self.old }
        ensures goes { result ≢ Did.Failed }
        ensures no_memory { result ≢ Did.NoMemory }
    {
        Did::Done(self.medium.read(at, buf))
    }

    fn length(&mut self) -> Long
        ensures bytes { true ≡ true → HasLength (seen_of self.old.played) result }
        ensures seen { seen_of self.new.played ≡ seen_of self.old.played }
        ensures crash { Narrows (LeftNow self.old.played) (LeftNow self.new.played) }
        ensures time { Elapses (length self.old.played.calls) (length self.new.played.calls)
            (LeftSince self.old.played) (LeftSince self.new.played) (LeftNow self.new.played) }
        ensures sound { self.old.armed ≡ None → (result ≢ Long.Failed) × (self.new.armed ≡ None) }
        ensures cause { result ≡ Long.Failed → Rose self.old.faults self.new.faults }
        ensures told { result ≢ Long.Failed → SameCount self.old.faults self.new.faults }
        ensures never_falls { self.old.faults ≤ self.new.faults }
        ensures same { self.new ≡ self.old }
        ensures goes { result ≢ Long.Failed }
    {
        Long::Bytes(self.medium.length())
    }

    fn write_at(&mut self, at: u64, bytes: &[u8]) -> Did {
        match self.turn() {
            Turn::Fails => Did::Failed,
            Turn::Goes => self.medium.put(at, bytes),
        }
    }

    fn sync(&mut self) -> Did {
        match self.turn() {
            Turn::Fails => Did::Failed,
            Turn::Goes => self.medium.keep(),
        }
    }
}

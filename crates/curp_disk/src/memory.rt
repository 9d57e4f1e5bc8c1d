ghost use Rattle.std.specs.Prelude.{◌≡◌, ◌≢◌, ◌≤◌, ◌↔◌, true, [], length, IfOk};
ghost use Rattle.curp_io.specs.Streams.{Rose, SameCount};
ghost use Rattle.curp_io.specs.Memory.{called, fails, fresh_calls};
ghost use Rattle.curp_disk.specs.Calls.{seen_of, LeftNow, LeftSince};
ghost use Rattle.curp_disk.specs.Disk.{Elapses, GivesBytes, HasLength, IsWithin, Narrows};
ghost use Rattle.curp_disk.specs.InMemory.{MemoryRan, crashed};
ghost use Rattle.curp_disk.specs.Moments.{reads_now, counts_now, only_now};
ghost use Rattle.curp_disk.specs.declared.medium.Call.TheVariants.{Write, Sync};

use crate::disk::{Did, Disk, Long};
use crate::medium::Medium;
use curp_base::NoMemory;
use curp_io::{Schedule, Turn};
use std::alloc::Global;
use std::marker::Model;

/// A disk in memory, empty at first, whose listed calls fail. They do nothing then.
///
/// It keeps its writes since the last crash, so that its memory grows with them, by some 100 bytes a call beside the
/// bytes.
pub struct MemoryDisk {
    medium: Medium,
    schedule: Schedule,
}

impl Drop for MemoryDisk {
    fn drop(self) {
        let MemoryDisk {
            medium: _,
            schedule: _,
        } = self;
    }
}

impl Model for MemoryDisk {
    ghost use Rattle.curp_disk.specs.InMemory.{MemoryParts};

    ghost Value = { MemoryParts };

    ghost view = { λ d. record { played = d.medium; calls = d.schedule } };
}

impl MemoryDisk {
    /// The calls with the numbers in `failing`, from 1, fail.
    pub fn new(alloc: Global, failing: &[u64]) -> Result<MemoryDisk, NoMemory>
        ensures empty { IfOk result (λ disk. disk.played ≡ record { first = []; calls = [] }) }
        ensures calls { IfOk result (λ disk. disk.calls ≡ fresh_calls failing.now) }
    {
        Ok(MemoryDisk {
            medium: Medium::new(alloc),
            schedule: Schedule::new(alloc, failing)?,
        })
    }

    /// A crash: the writes since the last sync are all kept, or all lost. It takes no memory.
    pub fn crash(&mut self, kept: bool)
        ensures played { self.new.played ≡ crashed kept self.old.played }
        ensures calls { self.new.calls ≡ self.old.calls }
    {
        self.medium.crash(kept);
    }
}

impl Disk for MemoryDisk {
    ghost tells = { true };

    ghost seen = { λ d. seen_of d.played };

    ghost may_leave = { λ d. LeftNow d.played };

    ghost moment = { λ d. length d.played.calls };

    ghost left_since = { λ d. LeftSince d.played };

    ghost faults = { λ d. d.calls.faults };

    ghost sound = { λ d. d.calls.failing ≡ [] };

    ghost wrote = { λ old at bytes result new. MemoryRan old (Write at bytes) result new };

    ghost synced = { λ old result new. MemoryRan old Sync result new };

    ghost reads_now = { λ d. reads_now d.played };

    ghost counts_now = { λ d. counts_now d.played };

    ghost only_now = { λ d. only_now d.played };

    fn read(&mut self, at: u64, buf: &mut [u8]) -> Did
        ensures within { IsWithin result (length buf.new) }
        ensures bytes { true ≡ true → GivesBytes (seen_of self.old.played) at result buf.new }
        ensures seen { seen_of self.new.played ≡ seen_of self.old.played }
        ensures crash { Narrows (LeftNow self.old.played) (LeftNow self.new.played) }
        ensures time { Elapses (length self.old.played.calls) (length self.new.played.calls)
            (LeftSince self.old.played) (LeftSince self.new.played) (LeftNow self.new.played) }
        ensures sound { self.old.calls.failing ≡ [] → (result ≢ Did.Failed) × (self.new.calls.failing ≡ []) }
        ensures cause { result ≡ Did.Failed → Rose self.old.calls.faults self.new.calls.faults }
        ensures told { result ≢ Did.Failed → SameCount self.old.calls.faults self.new.calls.faults }
        ensures never_falls { self.old.calls.faults ≤ self.new.calls.faults }
        ensures played { self.new.played ≡ self.old.played }
        ensures fails { (result ≡ Did.Failed) ↔ (fails self.old.calls ≡ true) }
        ensures no_memory { result ≢ Did.NoMemory }
        ensures calls { self.new.calls ≡ called self.old.calls }
    {
        match self.schedule.turn() {
            Turn::Fails => Did::Failed,
            Turn::Goes => Did::Done(self.medium.read(at, buf)),
        }
    }

    fn length(&mut self) -> Long
        ensures bytes { true ≡ true → HasLength (seen_of self.old.played) result }
        ensures seen { seen_of self.new.played ≡ seen_of self.old.played }
        ensures crash { Narrows (LeftNow self.old.played) (LeftNow self.new.played) }
        ensures time { Elapses (length self.old.played.calls) (length self.new.played.calls)
            (LeftSince self.old.played) (LeftSince self.new.played) (LeftNow self.new.played) }
        ensures sound { self.old.calls.failing ≡ [] → (result ≢ Long.Failed) × (self.new.calls.failing ≡ []) }
        ensures cause { result ≡ Long.Failed → Rose self.old.calls.faults self.new.calls.faults }
        ensures told { result ≢ Long.Failed → SameCount self.old.calls.faults self.new.calls.faults }
        ensures never_falls { self.old.calls.faults ≤ self.new.calls.faults }
        ensures played { self.new.played ≡ self.old.played }
        ensures fails { (result ≡ Long.Failed) ↔ (fails self.old.calls ≡ true) }
        ensures calls { self.new.calls ≡ called self.old.calls }
    {
        match self.schedule.turn() {
            Turn::Fails => Long::Failed,
            Turn::Goes => Long::Bytes(self.medium.length()),
        }
    }

    fn write_at(&mut self, at: u64, bytes: &[u8]) -> Did {
        match self.schedule.turn() {
            Turn::Fails => Did::Failed,
            Turn::Goes => self.medium.put(at, bytes),
        }
    }

    fn sync(&mut self) -> Did {
        match self.schedule.turn() {
            Turn::Fails => Did::Failed,
            Turn::Goes => self.medium.keep(),
        }
    }
}

ghost use Rattle.std.specs.Prelude.{◌≡◌, ◌≢◌, ◌+◌, ◌-◌, ◌≤◌, ◌++◌, [], ◌∷◌, length, take, drop, min, false, IfOk, OnOk, OnErr, vec_capacity};
ghost use Rattle.curp_disk.specs.Disk.{Elapses, CrashesFollow, Narrows, Synced, Torn, Wrote, over};
ghost use Rattle.curp_disk.specs.Calls.{LeftNow, LeftSince, more, seen_after, seen_of, seen_through};
ghost use Rattle.curp_disk.specs.InMemory.{Ran, crashed};
ghost use Rattle.curp_disk.specs.declared.medium.Call.TheVariants.{Write, Sync};

use crate::disk::Did;
use curp_base::{Items, NoMemory};
use std::alloc::Global;
use std::marker::Model;

/// A call that a crash may cut short, or that keeps what was written before.
#[derive(Drop)]
pub enum Call {
    Write { at: u64, bytes: Items<u8> },
    Sync,
}

/// What both disks in memory are: what was there at first, and each write and sync since.
#[derive(Drop)]
pub(crate) struct Medium {
    alloc: Global,
    first: Vec<u8>,
    calls: Vec<Call>,
    // What it reads as.
    seen: Vec<u8>,
    // How many of the calls came up to the last sync. What was there at first has room for what is there now, so that
    // these can be made on it without memory.
    synced: usize,
}

impl Model for Medium {
    ghost use Rattle.curp_disk.specs.Calls.{Played};

    ghost Value = { Played };

    ghost use Rattle.curp_disk.specs.Media.{IsMedium};

    ghost view = { λ m. record { first = m.first.items; calls = m.calls.items } };

    ghost invariant = { IsMedium };
}

impl Medium {
    /// An empty disk.
    pub fn new(alloc: Global) -> Medium
        ensures { result ≡ record { first = []; calls = [] } }
    {
        Medium {
            alloc,
            first: Vec::new(alloc),
            calls: Vec::new(alloc),
            seen: Vec::new(alloc),
            synced: 0,
        }
    }

    pub fn length(&self) -> u64
        ensures { result ≡ length (seen_of self.now) }
    {
        self.seen.len() as u64
    }

    pub fn read(&self, at: u64, buf: &mut [u8]) -> usize
        ensures count { result ≡ min (length buf.new) (length (seen_of self.now) - at) }
        ensures bytes { take result buf.new ≡ take result (drop at (seen_of self.now)) }
    {
        if at >= self.seen.len() as u64 {
            return 0;
        }
        copy_prefix(&self.seen[at as usize..], buf)
    }

    pub fn write_at(&mut self, at: u64, bytes: &[u8]) -> Result<(), NoMemory>
        requires { at ≤ length (seen_of self.old) }
        ensures ok { OnOk result (self.new ≡ more self.old (Write at bytes.now)) }
        ensures err { OnErr result (self.new ≡ self.old) }
    {
        let copy = Items::new(Vec::from_slice(self.alloc, bytes)?);
        self.calls.reserve(1)?;
        make_room(&mut self.seen, &mut self.first, bytes.len())?;
        write_over(&mut self.seen, at as usize, bytes);
        self.calls.push_reserved(Call::Write { at, bytes: copy });
        Ok(())
    }

    pub fn sync(&mut self) -> Result<(), NoMemory>
        ensures ok { OnOk result (self.new ≡ more self.old Sync) }
        ensures err { OnErr result (self.new ≡ self.old) }
    {
        self.calls.reserve(1)?;
        self.calls.push_reserved(Call::Sync);
        self.synced = self.calls.as_slice().len();
        Ok(())
    }

    /// Writes, as a disk is to do it.
    #[tactic(auto, using(crate::proofs::Playing::follows_write, crate::proofs::Playing::follows_same, crate::proofs::Playing::sees_write, crate::proofs::Playing::still, crate::proofs::Playing::went_on))]
    pub fn put(&mut self, at: u64, bytes: &[u8]) -> Did
        requires { at ≤ length (seen_of self.old) }
        ensures bytes { Wrote (seen_of self.old) at bytes.now result (seen_of self.new) }
        ensures crash { CrashesFollow (Torn at (length bytes.now)) (LeftNow self.old) (LeftNow self.new) }
        ensures time { Elapses (length self.old.calls) (length self.new.calls) (LeftSince self.old) (LeftSince self.new) (LeftNow self.new) }
        ensures whole { Ran false self.old (Write at bytes.now) result self.new }
    {
        match self.write_at(at, bytes) {
            Ok(()) => Did::Done(bytes.len()),
            Err(_) => Did::NoMemory,
        }
    }

    /// Syncs, as a disk is to do it.
    #[tactic(auto, using(crate::proofs::Playing::narrows_sync, crate::proofs::Playing::narrows_same, crate::proofs::Playing::sees_sync, crate::proofs::Playing::only_synced, crate::proofs::Playing::still, crate::proofs::Playing::went_on))]
    pub fn keep(&mut self) -> Did
        ensures durable { Synced (seen_of self.old) result (LeftNow self.new) }
        ensures seen { seen_of self.new ≡ seen_of self.old }
        ensures crash { Narrows (LeftNow self.old) (LeftNow self.new) }
        ensures time { Elapses (length self.old.calls) (length self.new.calls) (LeftSince self.old) (LeftSince self.new) (LeftNow self.new) }
        ensures whole { Ran false self.old Sync result self.new }
    {
        match self.sync() {
            Ok(()) => Did::Done(0),
            Err(_) => Did::NoMemory,
        }
    }

    /// The writes since the last sync are all kept, or all lost.
    #[tactic(auto, using(crate::proofs::Playing::prefix_shorter))]
    pub fn crash(&mut self, kept: bool)
        ensures { self.new ≡ crashed kept self.old }
    {
        if kept {
            put_over(&mut self.first, &self.seen);
        } else {
            let room = self.seen.len();
            make_again(&mut self.first, &self.calls[..self.synced], room);
            put_over(&mut self.seen, &self.first);
        }
        self.calls.clear();
        self.synced = 0;
    }
}

/// Copies bytes to the prefix of a buffer, as many as there is room for, and says how many.
fn copy_prefix(from: &[u8], buf: &mut [u8]) -> usize
    ensures count { result ≡ min (length buf.new) (length from.now) }
    ensures bytes { take result buf.new ≡ take result from.now }
{
    let count = if from.len() < buf.len() {
        from.len()
    } else {
        buf.len()
    };
    buf[..count].copy_from_slice(&from[..count]);
    count
}

/// Puts bytes in the place of all.
fn put_over(to: &mut Vec<u8>, from: &[u8])
    requires { length from.now ≤ vec_capacity to.old }
    ensures items { to.new.items ≡ from.now }
    ensures capacity { vec_capacity to.old ≤ vec_capacity to.new }
{
    to.clear();
    match to.extend_from_slice(from) {
        Ok(()) => {}
        Err(_) => unreachable!(),
    }
}

/// Puts bytes over those from a place on, and past the end.
fn write_over(to: &mut Vec<u8>, at: usize, bytes: &[u8])
    requires at { at ≤ length to.old.items }
    requires room { at + length bytes.now ≤ vec_capacity to.old }
    ensures items { to.new.items ≡ over to.old.items at bytes.now }
    ensures capacity { vec_capacity to.old ≤ vec_capacity to.new }
{
    if bytes.len() <= to.len() - at {
        to[at..at + bytes.len()].copy_from_slice(bytes);
    } else {
        to.truncate(at);
        match to.extend_from_slice(bytes) {
            Ok(()) => {}
            Err(_) => unreachable!(),
        }
    }
}

/// Makes the writes of calls on what was there before them. As many bytes as they lead to have room.
fn make_again(first: &mut Vec<u8>, calls: &[Call], room: usize)
    requires short { length (seen_through first.old.items calls.now) ≤ room }
    requires room { room ≤ vec_capacity first.old }
    ensures items { first.new.items ≡ seen_through first.old.items calls.now }
    ensures capacity { vec_capacity first.old ≤ vec_capacity first.new }
{
    for call in calls {
        make_one(first, call);
    }
}

/// Makes one call on what was there before it.
#[tactic(auto, using(crate::proofs::Playing::fits_over))]
fn make_one(first: &mut Vec<u8>, call: &Call)
    requires { length (seen_after first.old.items call.now) ≤ vec_capacity first.old }
    ensures items { first.new.items ≡ seen_after first.old.items call.now }
    ensures capacity { vec_capacity first.old ≤ vec_capacity first.new }
{
    match call {
        Call::Write { at, bytes } => {
            let place = (*at).min(first.len() as u64) as usize;
            write_over(first, place, bytes.as_slice());
        }
        Call::Sync => {}
    }
}

/// Makes room for so many bytes more than the first list has, in both.
fn make_room(seen: &mut Vec<u8>, first: &mut Vec<u8>, more: usize) -> Result<(), NoMemory>
    ensures seen { seen.new.items ≡ seen.old.items }
    ensures first { first.new.items ≡ first.old.items }
    ensures seen_room { OnOk result (length seen.old.items + more ≤ vec_capacity seen.new) }
    ensures first_room { OnOk result (length seen.old.items + more ≤ vec_capacity first.new) }
    ensures first_grows { vec_capacity first.old ≤ vec_capacity first.new }
{
    seen.reserve(more)?;
    let room = seen.len() + more;
    if room > first.len() {
        first.reserve(room - first.len())?;
    }
    Ok(())
}

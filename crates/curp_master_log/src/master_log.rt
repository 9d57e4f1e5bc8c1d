ghost use Rattle.std.specs.Prelude.{◌≡◌, ◌≤◌, ◌<◌, ◌+◌, ◌*◌, true, not, [], ◌∷◌, ◌++◌, drop, length, OnOk, OnErr, IfOk};
ghost use Rattle.curp_base.specs.Words.{Each};
ghost use Rattle.curp_cmd.specs.Entry.{room_of};
ghost use Rattle.curp_cmd.specs.declared.entry.Entry.TheVariants.{Op};
ghost use Rattle.curp_model.specs.Log.{answer_after, fits_at, is_touched, meaning};
ghost use Rattle.curp_model.specs.Master.{has};
ghost use Rattle.curp_tail.specs.Tail.{tail_of};
ghost use Rattle.curp_master_log.specs.MasterLog.{CanPush, HasRoom, free_with, kept_log_of, with_entry};

use crate::untold::{between, touch};
use curp_base::{NoMemory, Shared, past};
use curp_cmd::{Answer, Command, Entry, Request, pairs_put};
use curp_log::Log;
use curp_rounds::Indexes;
use curp_tail::Tail;
use curp_tail::laws::{tail_follows_log, tail_tells_of_log};
use std::alloc::Global;
use std::marker::Model;

/// A master's log with what stands beside it: what isn't synced, and which Ops were free. Contracts see these, and for
/// how much more there is room.
pub struct MasterLog {
    alloc: Global,
    log: Log,
    synced: u64,
    // It tells of the entries from `told` on. Those before that aren't synced are looked at themselves.
    tail: Tail,
    told: u64,
    free: Indexes,
}

impl Drop for MasterLog {
    fn drop(self) {
        let MasterLog {
            alloc: _,
            log: _,
            synced: _,
            tail: _,
            told: _,
            free: _,
        } = self;
    }
}

impl Model for MasterLog {
    ghost use Rattle.curp_master_log.specs.MasterLog.{MasterLogState, IsBeside, kept_log_of};

    ghost Value = { MasterLogState };

    ghost view = { λ j. record {
      kept = kept_log_of j.log j.synced j.free.numbers;
      units = j.log.spare;
      hashes = j.tail.spare;
      marks = j.free.spare;
    } };

    ghost invariant = { λ j. IsBeside (kept_log_of j.log j.synced j.free.numbers) j.told j.tail.entries };
}

impl MasterLog {
    /// A log of which so many entries are synced. It takes no memory.
    pub fn new(alloc: Global, log: Log, synced: u64) -> MasterLog
        ensures { result.kept ≡ kept_log_of log synced [] }
    {
        tail_follows_log();
        let told = log.len().max(synced);
        MasterLog {
            alloc,
            log,
            synced,
            tail: Tail::new(alloc),
            told,
            free: Indexes::new(alloc),
        }
    }

    /// The log.
    pub fn log(&self) -> &Log
        ensures lo { result.now.lo ≡ self.now.kept.lo }
        ensures hi { result.now.hi ≡ self.now.kept.hi }
        ensures entries { result.now.entries ≡ self.now.kept.entries }
    {
        &self.log
    }

    /// Entries below it are synced.
    pub fn synced(&self) -> u64
        ensures { result ≡ self.now.kept.synced }
    {
        self.synced
    }

    /// Whether no entry that isn't synced touches the command.
    pub fn is_clean(&self, command: &Command) -> Result<bool, NoMemory>
        ensures { IfOk result (λ clean. clean
            ≡ not (is_touched (drop self.now.kept.synced self.now.kept.entries) command.now)) }
    {
        tail_tells_of_log();
        let untold = between(&self.log, self.synced, self.told)?;
        Ok(!touch(&untold, command) && !self.tail.covers_dirty(command))
    }

    /// Whether the entry of that index was free as it was pushed.
    pub fn is_free(&self, index: u64) -> bool
        ensures { result ≡ has index self.now.kept.free }
    {
        self.free.contains(index)
    }

    /// Makes room for entries that take so much, by `curp_cmd::room`.
    pub fn reserve(&mut self, units: u64) -> Result<(), NoMemory>
        ensures kept { self.new.kept ≡ self.old.kept }
        ensures room { OnOk result (HasRoom self.new units) }
    {
        self.log.reserve(units)?;
        self.tail.reserve(units)?;
        self.free.reserve(units)
    }

    /// Adds an entry at the end, which is free or not. It takes no memory, since there is room.
    pub fn push(&mut self, entry: Entry, is_free: bool)
        requires room { HasRoom self.old (room_of entry) }
        requires fits { fits_at (meaning self.old.kept.lo self.old.kept.hi self.old.kept.entries) entry ≡ true }
        ensures pushed { self.new.kept ≡ with_entry self.old.kept entry is_free }
        ensures units { self.old.units ≤ self.new.units + room_of entry }
        ensures hashes { self.old.hashes ≤ self.new.hashes + 4 * room_of entry }
        ensures marks { self.old.marks ≤ self.new.marks + room_of entry }
    {
        let index = self.log.len();
        follow(&mut self.tail, &self.log, &entry, self.told);
        mark(&mut self.free, index, is_free);
        self.log.push(entry);
    }

    /// Pushes a request as an Op, and tells its answer.
    pub fn push_op(&mut self, request: Shared<Request>, is_free: bool) -> Answer
        requires room { HasRoom self.old (room_of (Op request request.first)) }
        requires fits { CanPush (meaning self.old.kept.lo self.old.kept.hi self.old.kept.entries) request }
        ensures pushed { self.new.kept ≡ with_entry self.old.kept (Op request request.first) is_free }
        ensures answer { result
            ≡ answer_after self.old.kept.lo self.old.kept.hi self.old.kept.entries request.command }
    {
        let index = self.log.len();
        self.push(op_of(request), is_free);
        match self.log.answer(index) {
            Some(answer) => answer,
            None => unreachable!(),
        }
    }

    /// So much of the log is synced.
    pub fn settle(&mut self, synced: u64)
        ensures settled { self.new.kept ≡ record self.old.kept { synced = synced } }
    {
        tail_follows_log();
        self.told = self.told.max(synced);
        self.tail.synced(self.told);
        self.synced = synced;
    }

    /// So much of the log is synced, which may be less than before.
    pub fn settle_anew(&mut self, synced: u64) -> Result<(), NoMemory>
        ensures settled { OnOk result (self.new.kept ≡ record self.old.kept { synced = synced }) }
        ensures err { OnErr result (self.new ≡ self.old) }
    {
        if self.synced <= synced {
            self.settle(synced);
        } else {
            self.tail = tail_of(self.alloc, &self.log, synced)?;
            self.told = synced;
            self.synced = synced;
        }
        Ok(())
    }
}

/// A request as an entry: its client has the answers of its requests below its first.
pub fn op_of(request: Shared<Request>) -> Entry
    ensures { result ≡ Op request request.first }
{
    let acknowledge = request.first;
    Entry::Op {
        request,
        acknowledge,
    }
}

/// What an Op of the request takes of a log's room.
pub fn op_room(request: &Request) -> u64
    ensures { result ≡ room_of (Op request.now request.now.first) }
{
    pairs_put(&request.command).saturating_add(1)
}

// What a tail tells of a log from a place on.
fn tail_of(alloc: Global, log: &Log, told: u64) -> Result<Tail, NoMemory>
    ensures { IfOk result (λ tail. tail.entries ≡ tail_of log.now.entries told) }
{
    let mut tail = Tail::new(alloc);
    // For its clause alone.
    let _length = log.len();
    tail.add(&log.suffix(told)?, told)?;
    Ok(tail)
}

// The tail follows the log, into which the entry comes next.
fn follow(tail: &mut Tail, log: &Log, entry: &Entry, told: u64)
    requires room { 4 ≤ tail.old.spare }
    requires follows { tail.old.entries ≡ tail_of log.now.entries told }
    ensures follows { tail.new.entries ≡ tail_of (log.now.entries ++ entry.now ∷ []) told }
    ensures spare { tail.old.spare ≤ tail.new.spare + 4 }
{
    tail_follows_log();
    let length = log.len();
    if told <= length {
        tail.add_reserved(std::slice::from_ref(entry), length);
    }
}

// The index is free, or not.
fn mark(free: &mut Indexes, index: u64, is_free: bool)
    requires room { 1 ≤ free.old.spare }
    requires last { Each (λ number. number < index) free.old.numbers }
    ensures numbers { free.new.numbers ≡ free_with free.old.numbers index is_free }
    ensures spare { free.old.spare ≤ free.new.spare + 1 }
{
    if is_free {
        free.push(index);
    }
}

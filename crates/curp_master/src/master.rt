ghost use Rattle.std.specs.Prelude.{◌≡◌, ◌-◌, ◌≤◌, length, slice_get, IfOk};
ghost use Rattle.std.specs.Option.{option_copied};
ghost use Rattle.curp_base.specs.Words.{Each};
ghost use Rattle.curp_model.specs.Master as master;
ghost use Rattle.curp_model.specs.Master.{beginning, on_serving, serving_ordered};
ghost use Rattle.curp_msg.specs.Moved.{Moves, numbered_move};

use crate::shell::Shell;
use curp_base::NoMemory;
use curp_cmd::{Command, NodeId};
use curp_log::Log;
use curp_master_log::MasterLog;
use curp_model::Wish;
use curp_msg::{Body, Done, Local, Message};
use curp_rounds::{Acknowledgements, Captured, Captures, Heard, Indexes, MasterPhase};
use curp_tail::Queue;
use std::alloc::Global;
use std::marker::Model;

/// A serving master (after CURP's). Contracts see its number and its state.
pub struct Master {
    pub(crate) alloc: Global,
    pub(crate) number: u32,
    pub(crate) part: u32,
    pub(crate) epoch: u32,
    pub(crate) version: u32,
    pub(crate) backups: Vec<NodeId>,
    pub(crate) witnesses: Vec<NodeId>,
    pub(crate) master_log: MasterLog,
    pub(crate) acknowledged: Acknowledgements,
    pub(crate) settled: u64,
    pub(crate) round: u64,
    pub(crate) captures: Captures,
    pub(crate) held: Indexes,
    pub(crate) queue: Queue,
    pub(crate) phase: MasterPhase,
}

impl Drop for Master {
    fn drop(self) {
        let Master {
            alloc: _,
            number: _,
            part: _,
            epoch: _,
            version: _,
            backups: _,
            witnesses: _,
            master_log: _,
            acknowledged: _,
            settled: _,
            round: _,
            captures: _,
            held: _,
            queue: _,
            phase: _,
        } = self;
    }
}

impl Model for Master {
    ghost use Rattle.std.specs.Prelude.{◌≡◌};
    ghost use Rattle.curp_model.specs.Master.{MasterState};
    ghost use Rattle.curp_msg.specs.Moved.{Node};
    ghost use Rattle.curp_rounds.specs.Phases.{phase_of};
    ghost use Rattle.curp_master.specs.Kept.{IsKeptUp};

    ghost Value = { Node MasterState };

    ghost view = { λ m. record {
      number = m.number;
      state = record {
        part = m.part;
        epoch = m.epoch;
        version = m.version;
        backups = m.backups.items;
        witnesses = m.witnesses.items;
        lo = m.master_log.kept.lo;
        hi = m.master_log.kept.hi;
        log = m.master_log.kept.entries;
        acknowledged = m.acknowledged;
        settled = m.settled;
        round = m.round;
        captures = m.captures.waiting;
        captured = m.captures.count;
        held = m.held.numbers;
        free = m.master_log.kept.free;
        queue = m.queue.waiting;
        phase = phase_of m.phase;
      };
    } };

    ghost invariant = { λ m. IsKeptUp m.master_log.kept m.acknowledged m.backups.items m.captures.last m.round };
}

impl Master {
    /// Takes the memory of master `number` of a partition, with lists of that version.
    pub fn shell(
        alloc: Global,
        number: u32,
        part: u32,
        epoch: u32,
        version: u32,
        backups: Vec<NodeId>,
        witnesses: Vec<NodeId>,
    ) -> Result<Shell, NoMemory>
        ensures { IfOk result (λ shell. shell ≡ record {
          number = number;
          part = part;
          epoch = epoch;
          version = version;
          backups = backups.items;
          witnesses = witnesses.items;
        }) }
    {
        let acknowledged = Acknowledgements::all_at(alloc, &backups, 0, 0)?;
        Ok(Shell {
            alloc,
            number,
            part,
            epoch,
            version,
            backups,
            witnesses,
            acknowledged,
        })
    }

    /// It serves with a log that every backup of its list holds, as of that round. It takes no memory.
    pub fn begin(shell: Shell, log: Log, round: u64) -> Master
        ensures number { result.number ≡ shell.number }
        ensures state { result.state ≡ beginning shell.part shell.epoch shell.version shell.backups shell.witnesses
            log.lo log.hi log.entries round }
    {
        let Shell {
            alloc,
            number,
            part,
            epoch,
            version,
            backups,
            witnesses,
            mut acknowledged,
        } = shell;
        let settled = log.len();
        acknowledged.set_all(settled, round);
        let synced = Heard::so_far(&acknowledged).least_length(&backups);
        Master {
            alloc,
            number,
            part,
            epoch,
            version,
            backups,
            witnesses,
            master_log: MasterLog::new(alloc, log, synced),
            acknowledged,
            settled,
            round,
            captures: Captures::new(alloc),
            held: Indexes::new(alloc),
            queue: Queue::new(alloc),
            phase: MasterPhase::Open,
        }
    }

    /// A message comes to the master. Its addressee isn't looked at. Where the number of a round would pass 2^64 - 1
    /// it does nothing. An append has the entries that its backup hasn't acknowledged, and no more of the log is copied.
    #[tactic(auto, unfolding(curp_model::specs::Master::on_serving))]
    pub fn on_message(&mut self, message: &Message) -> Result<Done, NoMemory>
        ensures moves { Moves self.old self.new result (numbered_move self.old.number
            (on_serving self.old.number self.old.state message.now.from message.now.body)) }
    {
        match &message.body {
            Body::Update(ask) => self.on_update(Wish::AtOnce, ask),
            Body::Sync(ask) => self.on_update(Wish::WhenSynced, ask),
            Body::Read(ask) => self.on_read(ask),
            Body::Glance(ask) => self.on_glance(ask),
            Body::Appended(appended) => self.on_appended(&message.from, appended),
            Body::Collected(collected) => self.on_collected(&collected.answer),
            Body::Prepare(prepare) => self.prepare(prepare),
            Body::Adopted(adopted) => self.adopted(adopted.version),
            Body::TakeOut(take) => self.take_out(take),
            Body::GiveIn(parcel) => self.give_in(parcel.get()),
            Body::ExpireClient { client } => self.expire(*client),
            _ => Ok(Done::quiet(self.alloc)),
        }
    }

    /// The master gets an order. It refuses none.
    #[tactic(auto, unfolding(curp_model::specs::Master::serving_ordered))]
    pub fn on_order(&mut self, order: &Local) -> Result<Done, NoMemory>
        ensures moves { Moves self.old self.new result
            (numbered_move self.old.number (serving_ordered self.old.number self.old.state order.now)) }
    {
        match order {
            Local::Sync => self.sync(),
            Local::Collect => self.collect(),
            _ => Ok(Done::quiet(self.alloc)),
        }
    }

    /// The log.
    pub fn log(&self) -> &Log
        ensures lo { result.now.lo ≡ self.now.state.lo }
        ensures hi { result.now.hi ≡ self.now.state.hi }
        ensures entries { result.now.entries ≡ self.now.state.log }
    {
        self.master_log.log()
    }

    /// Entries below it are stored on all backups.
    pub fn synced(&self) -> u64
        ensures { result ≡ master.synced self.now.state }
    {
        self.master_log.synced()
    }

    /// Whether no entry that isn't synced touches the command.
    pub(crate) fn is_clean(&self, command: &Command) -> Result<bool, NoMemory>
        ensures { IfOk result (λ clean. clean ≡ master.is_clean self.now.state command.now) }
    {
        self.master_log.is_clean(command)
    }

    pub fn number(&self) -> u32
        ensures { result ≡ self.now.number }
    {
        self.number
    }

    /// The partition that it serves.
    pub fn part(&self) -> u32
        ensures { result ≡ self.now.state.part }
    {
        self.part
    }

    /// How many reads it has captured. The captures that wait have no larger numbers.
    pub fn captured(&self) -> u64
        ensures value { result ≡ self.now.state.captured }
        ensures numbered { Each (λ capture. capture.number ≤ self.now.state.captured) self.now.state.captures }
    {
        self.captures.count()
    }

    /// The read that was captured last, if it still waits.
    pub fn last_capture(&self) -> Option<&Captured>
        ensures { option_copied result
            ≡ slice_get self.now.state.captures (length self.now.state.captures - 1) }
    {
        self.captures.last()
    }

    pub fn epoch(&self) -> u32
        ensures { result ≡ self.now.state.epoch }
    {
        self.epoch
    }

    /// The number of its last round.
    pub fn round(&self) -> u64
        ensures { result ≡ self.now.state.round }
    {
        self.round
    }
}

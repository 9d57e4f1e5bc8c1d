// What clients and masters are ordered by their own threads.
ghost use Rattle.std.specs.Prelude.{◌≡◌, ◌==◌, [], map, not, ltb, drop, filter, take, option_map, IfOk, OnErr};
ghost use Rattle.curp_base.specs.Words.{first_of};
ghost use Rattle.curp_msg.specs.declared.machine.Local.TheVariants as local;
ghost use Rattle.curp_due.specs.Due.{client_due, client_given, client_noted, master_noted, room, to_retry};

use curp_base::{NoMemory, Shared};
use curp_cmd::{Command, RequestId};
use curp_msg::Local;
use curp_nodes::{COLLECT_AFTER, PENDING_AT_ONCE, SYNC_AFTER};
use curp_seat::{Chores, Took};
use std::alloc::Global;
use std::marker::Model;

/// A client's: it retries all that is pending after each configuration, in the order in which it was invoked, and
/// invokes its commands in order, at most four at a time.
#[derive(Drop)]
pub struct ClientChores<'a> {
    alloc: Global,
    /// The commands that are still to be invoked.
    left: &'a [Command],
    /// The number of the last request.
    invoked: u32,
    /// The numbers of the pending requests, rising.
    pending: Vec<u32>,
    /// Those up to this one need no retry.
    retried: u32,
}

impl<'a> Model for ClientChores<'a> {
    ghost use Rattle.curp_due.specs.Due.{ClientWork};

    ghost Value = { ClientWork };

    ghost view = { λ c. record {
      left = c.left.now;
      invoked = c.invoked;
      pending = c.pending.items;
      retried = c.retried;
    } };
}

impl<'a> ClientChores<'a> {
    pub fn new(alloc: Global, commands: &'a [Command]) -> Result<ClientChores<'a>, NoMemory>
        ensures { IfOk result (λ chores.
            chores ≡ record { left = commands.now; invoked = 0; pending = []; retried = 0 }) }
    {
        Ok(ClientChores {
            alloc,
            left: commands,
            invoked: 0,
            pending: Vec::with_capacity(alloc, PENDING_AT_ONCE)?,
            retried: 0,
        })
    }

    /// The next retry that is due.
    fn retry(&mut self) -> Option<Local>
        ensures due { result ≡ option_map local.Retry (first_of (to_retry self.old)) }
        ensures given { self.new ≡ client_given self.old result }
    {
        let seq = first_above(&self.pending, self.retried)?;
        self.retried = seq;
        Some(Local::Retry(seq))
    }

    /// The next command, if so few requests are pending that there is room for it.
    fn invoke(&mut self) -> Result<Option<Local>, NoMemory>
        ensures due { IfOk result (λ due.
            due ≡ option_map local.Invoke (first_of (take (room self.old) self.old.left))) }
        ensures given { IfOk result (λ due. self.new ≡ client_given self.old due) }
        ensures err { OnErr result (self.new ≡ self.old) }
    {
        if self.pending.len() >= PENDING_AT_ONCE {
            return Ok(None);
        }
        let Some((command, left)) = self.left.split_first() else {
            return Ok(None);
        };
        let Some(seq) = self.invoked.checked_add(1) else {
            return Ok(None);
        };
        let command = Shared::of(self.alloc, command)?;
        // The room was made at the beginning.
        self.pending.push(seq)?;
        self.left = left;
        self.invoked = seq;
        self.retried = seq;
        Ok(Some(Local::Invoke(command)))
    }
}

impl<'a> Chores for ClientChores<'a> {
    fn note(&mut self, took: Took, completed: Option<RequestId>)
        ensures { self.new ≡ client_noted self.old took completed }
    {
        if let Some(id) = completed {
            leave_out(&mut self.pending, id.seq);
        }
        if let Took::Configuration { .. } = took {
            self.retried = 0;
        }
    }

    #[tactic(auto, using(crate::proofs::Due::first_retried, crate::proofs::Due::first_invoked))]
    fn due(&mut self) -> Result<Option<Local>, NoMemory>
        ensures due { IfOk result (λ due. due ≡ first_of (client_due self.old)) }
        ensures given { IfOk result (λ due. self.new ≡ client_given self.old due) }
        ensures err { OnErr result (self.new ≡ self.old) }
    {
        match self.retry() {
            Some(retry) => Ok(Some(retry)),
            None => self.invoke(),
        }
    }
}

/// The first of these numbers that is above another one.
fn first_above(numbers: &[u32], least: u32) -> Option<u32>
    ensures { result ≡ first_of (filter (λ number. ltb least number) numbers.now) }
{
    for number in numbers {
        if *number > least {
            return Some(*number);
        }
    }
    None
}

/// Leaves one out of these numbers.
fn leave_out(numbers: &mut Vec<u32>, one: u32)
    ensures { numbers.new.items ≡ filter (λ number. not (number == one)) numbers.old.items }
{
    numbers.retain(|number| *number != one);
}

/// A master's: `sync` after each 8 updates and syncs, and behind it `collect` after each 32.
#[derive(Drop)]
pub struct MasterChores {
    asked: u64,
    sync: bool,
    collect: bool,
}

impl Model for MasterChores {
    ghost use Rattle.std.specs.Prelude.{if◌then◌else◌, [], ◌∷◌, ◌++◌};
    ghost use Rattle.curp_msg.specs.declared.machine.Local.TheVariants.{Collect, Sync};
    ghost use Rattle.curp_due.specs.Due.{MasterWork};

    ghost Value = { MasterWork };

    ghost view = { λ m. record {
      asked = m.asked;
      due = (if m.sync then Sync ∷ [] else []) ++ (if m.collect then Collect ∷ [] else []);
    } };
}

impl MasterChores {
    pub fn new() -> MasterChores
        ensures { result ≡ record { asked = 0; due = [] } }
    {
        MasterChores {
            asked: 0,
            sync: false,
            collect: false,
        }
    }
}

impl Chores for MasterChores {
    fn note(&mut self, took: Took, _completed: Option<RequestId>)
        ensures { self.new ≡ master_noted self.old took }
    {
        if took == Took::Asks {
            self.asked = self.asked.wrapping_add(1);
            self.sync = self.asked % SYNC_AFTER == 0;
            self.collect = self.asked % COLLECT_AFTER == 0;
        }
    }

    fn due(&mut self) -> Result<Option<Local>, NoMemory>
        ensures due { IfOk result (λ due. due ≡ first_of self.old.due) }
        ensures given { self.new ≡ record self.old { due = drop 1 self.old.due } }
    {
        Ok(if self.sync {
            self.sync = false;
            Some(Local::Sync)
        } else if self.collect {
            self.collect = false;
            Some(Local::Collect)
        } else {
            None
        })
    }
}

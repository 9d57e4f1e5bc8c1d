ghost use Rattle.std.specs.Prelude.{◌≡◌, ◌&&◌, if◌then◌else◌, [], filter, length, nat_le, not, None, OnOk, OnErr, IfOk};
ghost use Rattle.std.specs.List.{list_all};
ghost use Rattle.curp_cmd.specs.Node.{is_among};
ghost use Rattle.curp_model.specs.Recovery.{all_complete, recovered_message, with_complete};
ghost use Rattle.curp_recover.specs.Answers.{appends_again, replayed_again};
ghost use Rattle.curp_recover.specs.Stage.{IsFenced, replayed_of};

use crate::messages;
use curp_base::{Items, NoMemory, Shared};
use curp_cmd::{Entry, NodeId, Request};
use curp_log::Log;
use curp_msg::{Message, Recover};
use std::alloc::Global;

/// The log of the backup, before the replay.
#[derive(Drop)]
pub struct FencedLog {
    /// It isn't there any more once a replay has begun that then ran out of memory.
    pub log: Option<Log>,
    /// What is sent shares the requests of these, where a copy of the oldest entries of the log would be decoded anew.
    pub entries: Items<Entry>,
}

/// The log with the replayed requests behind it.
#[derive(Drop)]
pub struct ReplayedLog {
    pub log: Log,
    /// Its length before the replay.
    pub cut: u64,
    /// The last round in which it was sent.
    pub round: u64,
    /// The fresh backups that have stored the whole of it.
    pub complete: Vec<NodeId>,
}

/// What a replayed log waits for.
#[derive(Clone, Copy, PartialEq, Eq)]
pub enum Awaited {
    /// For fresh backups to store it.
    Storing,
    /// For the master to be adopted.
    Adoption,
}

/// What a recovery has so far.
#[derive(Drop)]
pub enum RecoveryStage {
    /// The log and the requests, as far as they are there.
    Asking {
        log: Option<FencedLog>,
        requests: Option<Items<Shared<Request>>>,
    },
    Replayed {
        replayed: ReplayedLog,
        awaited: Awaited,
    },
}

impl FencedLog {
    /// The log, which is taken out. Where it isn't there any more it is built anew.
    pub fn take_log(&mut self, alloc: Global, order: &Recover) -> Result<Log, NoMemory>
        requires { IsFenced order.now self.old }
        ensures lo { IfOk result (λ log. log.lo ≡ order.now.lo) }
        ensures hi { IfOk result (λ log. log.hi ≡ order.now.hi) }
        ensures entries { IfOk result (λ log. log.entries ≡ self.old.entries) }
        ensures taken { self.new.log ≡ None }
        ensures kept { self.new.entries ≡ self.old.entries }
    {
        if let Some(log) = self.log.take() {
            return Ok(log);
        }
        match Log::from_entries(alloc, order.lo, order.hi, self.entries.as_slice())? {
            Some(log) => Ok(log),
            None => unreachable!(),
        }
    }
}

impl ReplayedLog {
    /// The number of its entries.
    pub fn len(&self) -> u64
        ensures { result ≡ length self.now.log.entries }
    {
        self.log.len()
    }

    /// Whether all of these backups have the whole log, once that one has it.
    pub fn is_last(&self, backups: &[NodeId], backup: &NodeId) -> bool
        ensures { result ≡ list_all
            (λ b. is_among b (with_complete (replayed_of self.now) backup.now).complete) backups.now }
    {
        backups.iter().all(|each| self.has_with(each, backup))
    }

    // Whether a backup has the whole log, once that one has it.
    #[tactic(auto, using(crate::proofs::Stored::among_with))]
    fn has_with(&self, each: &NodeId, backup: &NodeId) -> bool
        ensures { result ≡ is_among each.now (with_complete (replayed_of self.now) backup.now).complete }
    {
        is_among(each, &self.complete) || each == backup
    }

    /// Whether that is a fresh backup, and so much is the whole log.
    pub fn is_stored_by(&self, order: &Recover, backup: &NodeId, stored: u64) -> bool
        ensures { result ≡ (is_among backup.now order.now.backups
            && nat_le (length self.now.log.entries) stored) }
    {
        is_among(backup, order.backups.as_slice()) && self.len() <= stored
    }

    /// That backup has the whole log. Once all have it, the manager is told.
    pub fn complete_by(
        &mut self,
        alloc: Global,
        number: u32,
        order: &Recover,
        backup: &NodeId,
    ) -> Result<Vec<Message>, NoMemory>
        ensures ok { OnOk result (replayed_of self.new ≡ with_complete (replayed_of self.old) backup.now) }
        ensures told { IfOk result (λ told. told.items
            ≡ (if all_complete order.now (with_complete (replayed_of self.old) backup.now)
            then recovered_message number order.now else [])) }
        ensures err { OnErr result (replayed_of self.new ≡ replayed_of self.old) }
        ensures log { self.new.log ≡ self.old.log }
    {
        let is_last = self.is_last(order.backups.as_slice(), backup);
        let told = messages::told(alloc, number, order, is_last)?;
        self.complete_on(backup)?;
        Ok(told)
    }

    /// That backup has the whole log.
    fn complete_on(&mut self, backup: &NodeId) -> Result<(), NoMemory>
        ensures ok { OnOk result (replayed_of self.new ≡ with_complete (replayed_of self.old) backup.now) }
        ensures err { OnErr result (replayed_of self.new ≡ replayed_of self.old) }
        ensures log { self.new.log ≡ self.old.log }
    {
        if !is_among(backup, &self.complete) {
            self.complete.push(*backup)?;
        }
        Ok(())
    }

    /// The backups that don't have the whole log.
    fn incomplete(&self, alloc: Global, backups: &[NodeId]) -> Result<Vec<NodeId>, NoMemory>
        ensures { IfOk result (λ left. left.items
            ≡ filter (λ b. not (is_among b self.now.complete.items)) backups.now) }
    {
        backups
            .iter()
            .filter(|backup| !is_among(backup, &self.complete))
            .copied()
            .collect(alloc)
    }

    /// The whole log goes to the backups that don't have it, in a new round, unless its number would pass 2^64 - 1.
    pub fn send_again(
        &mut self,
        alloc: Global,
        number: u32,
        order: &Recover,
    ) -> Result<Vec<Message>, NoMemory>
        ensures state { OnOk result (replayed_of self.new ≡ replayed_again (replayed_of self.old)) }
        ensures sent { IfOk result (λ sent. sent.items ≡ appends_again number order.now (replayed_of self.old)) }
        ensures err { OnErr result (replayed_of self.new ≡ replayed_of self.old) }
        ensures log { self.new.log ≡ self.old.log }
    {
        if self.round == u64::MAX {
            return Ok(Vec::new(alloc));
        }
        let round = self.round + 1;
        let left = self.incomplete(alloc, order.backups.as_slice())?;
        let whole = self.log.suffix(0)?;
        let sent = messages::appends(alloc, number, order.epoch, round, &whole, &[], &left)?;
        self.round = round;
        Ok(sent)
    }
}

/// What a replayed log waits for, once all backups have the whole of it, or before.
pub fn awaited_after(is_stored: bool) -> Awaited
    ensures { result ≡ (if is_stored then Awaited.Adoption else Awaited.Storing) }
{
    if is_stored {
        Awaited::Adoption
    } else {
        Awaited::Storing
    }
}

/// Whether a node is among others.
pub fn is_among(node: &NodeId, nodes: &[NodeId]) -> bool
    ensures { result ≡ is_among node.now nodes.now }
{
    nodes.iter().any(|other| node == other)
}

ghost use Rattle.std.specs.Prelude.{◌≡◌, ◌<◌, ◌≤◌, ◌+◌, ◌-◌, ◌++◌, ◌∷◌, [], not, filter, map, max, take, drop, length, slice_get, OnOk};
ghost use Rattle.std.specs.Option.{option_copied};
ghost use Rattle.curp_model.specs.Master.{all_have};
ghost use Rattle.curp_base.specs.Words.{Each};
ghost use Rattle.curp_rounds.specs.Backups.{is_within};
ghost use Rattle.curp_rounds.specs.Captures.{value_at};

use crate::captured::Captured;
use crate::heard::Heard;
use crate::reach::Reach;
use curp_base::NoMemory;
use curp_cmd::NodeId;
use curp_msg::Message;
use std::alloc::Global;
use std::collections::VecDeque;
use std::marker::Model;

/// The reads that wait, in the order in which they were captured, and how many were captured in all. Contracts see these,
/// how far the log and the rounds were at the last one, and for how many more there is room.
///
/// Neither falls from one capture to the next, so those that are answered together are the first ones.
#[derive(Drop)]
pub struct Captures {
    waiting: VecDeque<Captured>,
    count: u64,
    last: Reach,
}

impl Model for Captures {
    ghost use Rattle.std.specs.Prelude.{◌-◌, length};
    ghost use Rattle.std.specs.VecDeque.{deque_capacity};
    ghost use Rattle.curp_rounds.specs.Captures.{AreWaiting, Captures};

    ghost Value = { Captures };

    ghost view = { λ c. record {
      waiting = c.waiting.items;
      count = c.count;
      last = c.last;
      spare = deque_capacity c.waiting - length c.waiting.items;
    } };

    ghost invariant = { λ c. AreWaiting c.waiting.items c.count c.last };
}

impl Captures {
    /// None was captured yet.
    pub fn new(alloc: Global) -> Captures
        ensures waiting { result.waiting ≡ [] }
        ensures count { result.count ≡ 0 }
        ensures last { result.last ≡ record { long = 0; round = 0 } }
    {
        Captures {
            waiting: VecDeque::new(alloc),
            count: 0,
            last: Reach { long: 0, round: 0 },
        }
    }

    /// The last one, if it still waits.
    pub fn last(&self) -> Option<&Captured>
        ensures { option_copied result ≡ slice_get self.now.waiting (length self.now.waiting - 1) }
    {
        self.waiting.back()
    }

    /// How many were captured in all. The numbers of those that wait are no larger.
    pub fn count(&self) -> u64
        ensures value { result ≡ self.now.count }
        ensures numbered { Each (λ capture. capture.number ≤ self.now.count) self.now.waiting }
    {
        self.count
    }

    /// Makes room for one more, or for as many as there are.
    pub fn reserve(&mut self) -> Result<(), NoMemory>
        ensures waiting { self.new.waiting ≡ self.old.waiting }
        ensures count { self.new.count ≡ self.old.count }
        ensures last { self.new.last ≡ self.old.last }
        ensures room { OnOk result (1 ≤ self.new.spare) }
        ensures no_more { self.new.spare ≤ max self.old.spare (max 1 (length self.old.waiting)) }
    {
        let len = self.waiting.len();
        if len < self.waiting.capacity() {
            return Ok(());
        }
        self.waiting.reserve_exact(len.max(1))
    }

    /// Adds one, which has the next number, and was captured no earlier than the last. It takes no memory, since there
    /// is room.
    pub fn push(&mut self, capture: Captured)
        requires room { 1 ≤ self.old.spare }
        requires next { capture.number ≡ self.old.count + 1 }
        requires long { self.old.last.long ≤ capture.length }
        requires round { self.old.last.round ≤ capture.round }
        ensures waiting { self.new.waiting ≡ self.old.waiting ++ capture ∷ [] }
        ensures count { self.new.count ≡ capture.number }
        ensures last { self.new.last ≡ record { long = capture.length; round = capture.round } }
    {
        self.count = capture.number();
        self.last = capture.reach();
        self.waiting.push_back_reserved(capture);
    }

    /// Uses the next number for a read that doesn't wait.
    pub fn use_number(&mut self, number: u64)
        requires next { number ≡ self.old.count + 1 }
        ensures waiting { self.new.waiting ≡ self.old.waiting }
        ensures count { self.new.count ≡ number }
        ensures last { self.new.last ≡ self.old.last }
    {
        self.count = number;
    }

    /// Tells the values of those that all these backups have acknowledged, as master `number` at that epoch. It looks at
    /// no others.
    pub fn tell_ready(
        &self,
        sent: &mut Vec<Message>,
        alloc: Global,
        number: u32,
        epoch: u32,
        heard: &Heard<'_>,
        backups: &[NodeId],
    ) -> Result<(), NoMemory>
        ensures { OnOk result (sent.new.items ≡ sent.old.items ++ map (value_at number epoch)
            (filter (λ c. all_have heard.now backups.now c.length c.round) self.now.waiting)) }
    {
        let ready = self.count_ready(heard.reach_of_all(backups));
        tell_prefix(&self.waiting, ready, sent, alloc, number, epoch)
    }

    /// Takes out those that all these backups have acknowledged. It looks at no others.
    pub fn remove_ready(&mut self, heard: &Heard<'_>, backups: &[NodeId])
        ensures waiting { self.new.waiting
            ≡ filter (λ c. not (all_have heard.now backups.now c.length c.round)) self.old.waiting }
        ensures count { self.new.count ≡ self.old.count }
        ensures last { self.new.last ≡ self.old.last }
    {
        let ready = self.count_ready(heard.reach_of_all(backups));
        drop_prefix(&mut self.waiting, ready);
    }

    // So many of the first are ready, and none behind them.
    fn count_ready(&self, reach: Option<Reach>) -> usize
        ensures within { result ≤ length self.now.waiting }
        ensures ready { take result self.now.waiting ≡ filter (λ c. is_within reach c.length c.round) self.now.waiting }
        ensures others { drop result self.now.waiting
            ≡ filter (λ c. not (is_within reach c.length c.round)) self.now.waiting }
    {
        self.waiting
            .partition_point(|capture| capture.is_ready(reach))
    }
}

/// Tells the values of so many of the first.
fn tell_prefix(
    waiting: &VecDeque<Captured>,
    count: usize,
    sent: &mut Vec<Message>,
    alloc: Global,
    number: u32,
    epoch: u32,
) -> Result<(), NoMemory>
    requires { count ≤ length waiting.now.items }
    ensures { OnOk result (sent.new.items
        ≡ sent.old.items ++ map (value_at number epoch) (take count waiting.now.items)) }
{
    for at in 0..count {
        sent.push(waiting[at].value(alloc, number, epoch)?)?;
    }
    Ok(())
}

/// Takes so many of the first out.
fn drop_prefix(waiting: &mut VecDeque<Captured>, count: usize)
    ensures { waiting.new.items ≡ drop count waiting.old.items }
{
    for _ in 0..count {
        waiting.pop_front();
    }
}

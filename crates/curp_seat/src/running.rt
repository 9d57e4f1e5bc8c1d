ghost use Rattle.std.specs.Prelude.{◌≡◌, ◌≢◌, ◌⊎◌, ◌+◌, ◌^◌, ◌<◌, ◌≤◌, [], None, length, false, IfOk, OnErr};
ghost use Rattle.curp_journal.specs.Given.{given};
ghost use Rattle.curp_journal.specs.Journal.{after, last_stamp, next_stamp};
ghost use Rattle.curp_journal.specs.Sending.{named_of};
ghost use Rattle.curp_seat.specs.Making.{item_of, with_item};

use crate::{Kept, Observer, Point, Sent};
use curp_base::NoMemory;
use curp_journal::Arrived;
use curp_msg::Core;
use std::alloc::Global;
use std::marker::Model;

/// A node with its journal that hasn't stopped. Contracts see the journal.
#[derive(Drop)]
pub struct Running<N: Core> {
    alloc: Global,
    kept: Kept<N>,
}

impl<N: Core> Model for Running<N> {
    ghost use Rattle.std.specs.Prelude.{◌≡◌, false};
    ghost use Rattle.curp_journal.specs.Journal.{NodeJournal};

    ghost Value = { NodeJournal N };

    ghost view = { λ r. r.kept };

    ghost invariant = { λ r. r.kept.ended ≡ false };
}

/// What a step came to: the number by which the node refused the input, or 255 where no stamp is left, which is 0 where it
/// was made, and what it sent and completed.
#[derive(Drop)]
pub struct Made {
    pub refused: u8,
    pub sent: Sent,
}

impl<N: Core> Running<N> {
    /// It takes no memory.
    pub fn new(alloc: Global, kept: Kept<N>) -> Running<N>
        requires { kept.ended ≡ false }
        ensures { result ≡ kept }
    {
        Running { alloc, kept }
    }

    /// Tells the observer of the step, and gives the node the input. Running out of memory may come before the step or behind it,
    /// where what it sent is copied.
    pub fn make<G: Observer>(&mut self, observer: &G, arrived: Arrived) -> Result<Made, NoMemory>
        ensures full { IfOk result (λ made. 2 ^ 64 ≤ next_stamp (last_stamp 0 self.old.items) arrived → made.refused ≡ 255) }
        ensures answer { IfOk result (λ made. next_stamp (last_stamp 0 self.old.items) arrived < 2 ^ 64
            → made.refused ≡ (N.machine (after N.machine self.old.opening self.old.items) (given arrived)).refused) }
        ensures added { IfOk result (λ made. made.refused ≡ 0 → self.new ≡ with_item N.machine self.old arrived) }
        ensures sent { IfOk result (λ made. made.refused ≡ 0 → made.sent.named.items
            ≡ named_of self.old.id (length self.old.items + 1) (item_of N.machine self.old arrived).stamp 1
            (item_of N.machine self.old arrived).done.sent) }
        ensures completed { IfOk result (λ made. made.refused ≡ 0
            → made.sent.completed ≡ (item_of N.machine self.old arrived).done.completed) }
        ensures refused { IfOk result (λ made. made.refused ≢ 0 → self.new ≡ self.old) }
        ensures nothing { IfOk result (λ made. made.refused ≢ 0 → made.sent.named.items ≡ []) }
        ensures none_completed { IfOk result (λ made. made.refused ≢ 0 → made.sent.completed ≡ None) }
        ensures err { OnErr result ((self.new ≡ self.old) ⊎ (self.new ≡ with_item N.machine self.old arrived)) }
    {
        let count = self.kept.journal().len();
        observer.reach(Point {
            node: self.kept.id(),
            count: count as u64 + 1,
        });
        let refused = self.kept.step(arrived)?;
        let sent = if refused == 0 {
            self.kept.sent(count)?
        } else {
            Sent::nothing(self.alloc)
        };
        Ok(Made { refused, sent })
    }

    /// The stamp of the last item, 0 where there is none.
    pub fn last_stamp(&self) -> u64
        ensures { result ≡ last_stamp 0 self.now.items }
    {
        self.kept.last_stamp()
    }

    /// The node with its journal.
    pub fn into_kept(self) -> Kept<N>
        ensures kept { result ≡ self }
        ensures running { result.ended ≡ false }
    {
        self.kept
    }
}

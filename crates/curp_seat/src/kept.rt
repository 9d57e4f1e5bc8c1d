ghost use Rattle.std.specs.Prelude.{◌≡◌, ◌≢◌, ◌↔◌, ◌+◌, ◌^◌, ◌<◌, ◌≤◌, ◌++◌, [], ◌∷◌, false, true, length, slice_get, Some, IfOk, IfSome, IsSome, OnErr};
ghost use Rattle.curp_journal.specs.Given.{given};
ghost use Rattle.curp_journal.specs.Journal.{IsJournal, NodeJournal, Stamped, after, last_stamp, made, next_stamp};
ghost use Rattle.curp_journal.specs.Sending.{named_of};

use crate::Sent;
use crate::making::made;
use crate::naming::named_of;
use crate::opening::Opening;
use crate::replay::does_all;
use curp_base::NoMemory;
use curp_cmd::NodeId;
use curp_journal::{Arrived, Item};
use curp_msg::Core;
use std::alloc::Global;
use std::marker::Model;

/// A node with its journal. Contracts see its name, the state that it began with, its items, and whether it has stopped
/// for good. The journal, replayed from that state, gives the node and all that it did.
#[derive(Drop)]
pub struct Kept<N: Core> {
    alloc: Global,
    node: N,
    id: NodeId,
    opening: Opening<N>,
    items: Vec<Item>,
    last: u64,
    ended: bool,
}

impl<N: Core> Model for Kept<N> {
    ghost use Rattle.std.specs.Prelude.{◌<◌, ◌^◌};
    ghost use Rattle.curp_journal.specs.Journal.{IsReplay, NodeJournal};

    ghost Value = { NodeJournal N };

    ghost view = { λ k. record { id = k.id; opening = k.opening.value; items = k.items.items; ended = k.ended } };

    ghost invariant = { λ k. IsReplay N.machine k.opening.value k.items.items k.node k.last × (k.last < 2 ^ 64) };
}

impl<N: Core> Kept<N> {
    /// The node with an empty journal. It takes no memory.
    pub fn begin(alloc: Global, node: N, id: NodeId) -> Kept<N>
        ensures { result ≡ record { id = id; opening = node; items = []; ended = false } }
    {
        let opening = Opening::of(&node);
        Kept {
            alloc,
            node,
            id,
            opening,
            items: Vec::new(alloc),
            last: 0,
            ended: false,
        }
    }

    /// Gives the node an input, and keeps it with what was done. The answer is 0 then, else the number by which the
    /// node refused it, or 255 where no stamp is left.
    pub fn step(&mut self, arrived: Arrived) -> Result<u8, NoMemory>
        requires { self.old.ended ≡ false }
        ensures full { IfOk result (λ n. 2 ^ 64 ≤ next_stamp (last_stamp 0 self.old.items) arrived → n ≡ 255) }
        ensures answer { IfOk result (λ n. next_stamp (last_stamp 0 self.old.items) arrived < 2 ^ 64
            → n ≡ (N.machine (after N.machine self.old.opening self.old.items) (given arrived)).refused) }
        ensures added { IfOk result (λ n. n ≡ 0 → self.new ≡ record self.old {
          items = self.old.items
              ++ made N.machine (after N.machine self.old.opening self.old.items) (last_stamp 0 self.old.items) arrived ∷ [];
        }) }
        ensures refused { IfOk result (λ n. n ≢ 0 → self.new ≡ self.old) }
        ensures err { OnErr result (self.new ≡ self.old) }
    {
        self.items.reserve(1)?;
        match made(&mut self.node, self.last, arrived)? {
            Ok(item) => {
                self.last = item.stamp;
                self.items.push_reserved(item);
                Ok(0)
            }
            Err(refused) => Ok(refused),
        }
    }

    /// What the node has done so far, in order.
    pub fn journal(&self) -> &[Item]
        ensures items { result.now ≡ self.now.items }
        ensures replay { IsJournal N.machine self.now.opening self.now.items }
        ensures stamped { Stamped 0 self.now.items }
        ensures last { last_stamp 0 self.now.items < 2 ^ 64 }
    {
        self.items.as_slice()
    }

    /// What the item at that index, counted from 0, sent and completed, copied.
    pub fn sent(&self, index: usize) -> Result<Sent, NoMemory>
        requires { index < length self.now.items }
        ensures named { IfOk result (λ sent. IfSome (slice_get self.now.items index)
            (λ item. sent.named.items ≡ named_of self.now.id (index + 1) item.stamp 1 item.done.sent)) }
        ensures completed { IfOk result (λ sent. IfSome (slice_get self.now.items index)
            (λ item. sent.completed ≡ item.done.completed)) }
    {
        let item = &self.items[index];
        let named = named_of(
            self.alloc,
            self.id,
            index as u64 + 1,
            item.stamp,
            item.done.sent.as_slice(),
        )?;
        Ok(Sent {
            named,
            completed: item.done.completed,
        })
    }

    /// The stamp of the last item, 0 where there is none.
    pub fn last_stamp(&self) -> u64
        ensures { result ≡ last_stamp 0 self.now.items }
    {
        self.last
    }

    /// Adds the last stop. It takes no memory.
    pub fn mark_stop(&mut self)
        requires { self.old.ended ≡ false }
        ensures { self.new ≡ record self.old { ended = true } }
    {
        self.ended = true;
    }

    /// Whether there is a last stop.
    pub fn ended(&self) -> bool
        ensures { result ≡ self.now.ended }
    {
        self.ended
    }

    pub fn id(&self) -> NodeId
        ensures { result ≡ self.now.id }
    {
        self.id
    }
}

impl<N: Core + Drop> Kept<N> {
    /// The same journal, begun with this node, which is given all inputs again. None where it isn't a journal of that node:
    /// where the node does otherwise by one of them.
    pub fn begun_with(mut self, mut node: N) -> Result<Option<Kept<N>>, NoMemory>
        ensures begun { IfOk result (λ made. IfSome made (λ log. log ≡ record self { opening = node })) }
        ensures exact { IfOk result (λ made. IsSome made ↔ IsJournal N.machine node self.items) }
        ensures same { node ≡ self.opening → IfOk result (λ made. made ≡ Some self) }
    {
        let opening = Opening::of(&node);
        if !does_all(&mut node, self.items.as_slice())? {
            return Ok(None);
        }
        self.opening = opening;
        self.node = node;
        Ok(Some(self))
    }
}

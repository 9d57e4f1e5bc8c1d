ghost use Rattle.std.specs.Prelude.{◌≡◌, ◌+◌, ◌≤◌, [], length, max, not, map, IfOk, OnOk};
ghost use Rattle.std.specs.List.{filter};
ghost use Rattle.curp_model.specs.Master.{queued};
ghost use Rattle.curp_tail.specs.Queue.{has_come, is_come_of};

use curp_base::{NoMemory, Reserved, ReservedPairs};
use curp_cmd::RequestId;
use std::alloc::Global;
use std::marker::Model;

/// The ids that wait for collection, each once and at its larger length, in the order in which they were first added.
/// Contracts see these, for how many more there is room, and for how many in the list that has the most of it. That an id
/// keeps its place and its larger length is this project's own choice.
pub struct Queue {
    alloc: Global,
    // In the order in which they were first added.
    order: Reserved<RequestId>,
    // So many entries are synced then.
    waits: ReservedPairs<RequestId, u64>,
}

impl Drop for Queue {
    fn drop(self) {
        let Queue {
            alloc: _,
            order: _,
            waits: _,
        } = self;
    }
}

impl Model for Queue {
    ghost use Rattle.std.specs.Prelude.{max, min};
    ghost use Rattle.curp_tail.specs.Queue.{IsQueue, Queueing, waiting_of};

    ghost Value = { Queueing };

    ghost view = { λ q. record {
      waiting = waiting_of q.order.items q.waits.items;
      spare = min q.order.spare q.waits.spare;
      most = max q.order.spare q.waits.spare;
    } };

    ghost invariant = { λ q. IsQueue q.order.items q.waits.items };
}

impl Queue {
    /// No ids. It takes no memory.
    pub fn new(alloc: Global) -> Queue
        ensures waiting { result.waiting ≡ [] }
        ensures no_room { result.most ≡ 0 }
    {
        Queue {
            alloc,
            order: Reserved::new(alloc),
            waits: ReservedPairs::new(alloc),
        }
    }

    /// Makes room for so many more ids, or for as many as there are where that is more.
    pub fn reserve(&mut self, spare: u64) -> Result<(), NoMemory>
        ensures waiting { self.new.waiting ≡ self.old.waiting }
        ensures room { OnOk result (spare ≤ self.new.spare) }
        ensures kept { self.old.spare ≤ self.new.spare }
        ensures no_more { self.new.most ≤ max self.old.most (max spare (length self.old.waiting)) }
    {
        self.order.reserve(spare)?;
        self.waits.reserve(spare)
    }

    /// Adds the id behind the others, to wait until so many entries are synced. One that waits already keeps its place,
    /// and the larger of both lengths. It takes no memory.
    pub fn add(&mut self, id: RequestId, length: u64)
        requires { 1 ≤ self.old.spare }
        ensures waiting { self.new.waiting ≡ queued self.old.waiting id length }
        ensures spare { self.old.spare ≤ self.new.spare + 1 }
    {
        match self.waits.value_of(&id) {
            Some(until) => self.waits.put(id, until.max(length)),
            None => {
                self.waits.put(id, length);
                self.order.push(id);
            }
        }
    }

    /// The ids whose length is synced, in the order in which they were first added.
    pub fn due(&self, synced: u64) -> Result<Vec<RequestId>, NoMemory>
        ensures { IfOk result (λ ids. ids.items ≡ map (λ q. q.id) (filter (has_come synced) self.now.waiting)) }
    {
        due_among(self.alloc, &self.order, &self.waits, synced)
    }

    /// The due ids wait no longer. It takes no memory.
    pub fn leave(&mut self, synced: u64)
        ensures waiting { self.new.waiting ≡ filter (λ q. not (has_come synced q)) self.old.waiting }
        ensures spare { self.old.spare ≤ self.new.spare }
    {
        let waits = &self.waits;
        self.order.retain(|id| !is_due(waits, id, synced));
        self.waits.retain(|wait| wait.1 > synced);
    }
}

/// Those of the ids that are due, in their order.
fn due_among(
    alloc: Global,
    order: &[RequestId],
    waits: &ReservedPairs<RequestId, u64>,
    synced: u64,
) -> Result<Vec<RequestId>, NoMemory>
    ensures { IfOk result (λ ids. ids.items ≡ filter (is_come_of waits.now.items synced) order.now) }
{
    let mut due = Vec::new(alloc);
    for id in order {
        if is_due(waits, id, synced) {
            due.push(*id)?;
        }
    }
    Ok(due)
}

/// Whether the id waits, and no longer than until so many entries are synced.
fn is_due(waits: &ReservedPairs<RequestId, u64>, id: &RequestId, synced: u64) -> bool
    ensures { result ≡ is_come_of waits.now.items synced id.now }
{
    match waits.value_of(id) {
        Some(until) => until <= synced,
        None => false,
    }
}

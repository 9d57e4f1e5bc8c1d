ghost use Rattle.std.specs.Prelude.{◌≡◌, ◌<◌, ◌≤◌, ◌+◌, ◌^◌, ◌++◌, [], ◌∷◌, length, false, map, vec_capacity, IfOk};
ghost use Rattle.std.specs.BTreeMap.{values};
ghost use Rattle.curp_base.specs.Words.{Each};
ghost use Rattle.curp_model.specs.Witness.{by_least_hash, newly_held, placed, survives};
ghost use Rattle.curp_slots.specs.Collection.{places_freed, suspected_of, what_remains};
ghost use Rattle.curp_slots.specs.Hashed.{LeastHashesApart, least_places, request_at, requests_of};
ghost use Rattle.curp_slots.specs.Register.{IdsAscend, IsFilled, IsPlaceGiven, held_by, marked_at, is_held, put_at};

use crate::hashes::least_hash;
use crate::kept::KeptRequest;
use crate::listed::Listed;
use curp_base::{NoMemory, Reserved, ReservedPairs, Shared};
use curp_cmd::{Request, RequestId};
use std::alloc::Global;
use std::collections::BTreeMap;
use std::marker::Model;

/// The requests that a witness holds. Contracts see them in ascending order of their ids, and for how many there is
/// room.
#[derive(Drop)]
pub struct Register {
    room: u32,
    // Each stays where it was put.
    kept: Vec<KeptRequest>,
    // The places in `kept` of what was dropped.
    free: Reserved<u32>,
    // The place of each by its id.
    index: ReservedPairs<RequestId, u32>,
}

impl Model for Register {
    ghost use Rattle.curp_slots.specs.Register.{Registered, IsRegister, held_by};
    ghost use Rattle.std.specs.Prelude.{vec_capacity};

    ghost Value = { Registered };

    ghost view = { λ r. record { room = r.room; held = held_by r.kept.items r.index.items } };

    ghost invariant = { λ r. IsRegister r.room r.kept.items (vec_capacity r.kept) r.free r.index };
}

impl Register {
    /// No requests, and room for so many.
    pub fn new(alloc: Global, room: u32) -> Result<Register, NoMemory>
        ensures { IfOk result (λ register. register ≡ record { room = room; held = [] }) }
    {
        let kept = Vec::with_capacity(alloc, room as usize)?;
        let free = Reserved::with_room(alloc, room as u64)?;
        let index = ReservedPairs::with_room(alloc, room as u64)?;
        Ok(Register {
            room,
            kept,
            free,
            index,
        })
    }

    /// Whether the request with that id is held.
    pub fn holds(&self, id: &RequestId) -> bool
        ensures { result ≡ is_held id.now self.now.held }
    {
        self.index.value_of(id).is_some()
    }

    /// Holds a request more. It takes no memory, since there is room.
    pub fn add(&mut self, request: Shared<Request>)
        requires room { length self.old.held < self.old.room }
        requires absent { is_held request.id self.old.held ≡ false }
        ensures value { self.new ≡ record self.old { held = placed (newly_held request) self.old.held } }
        ensures ascend { IdsAscend self.new.held }
    {
        let id = request.id;
        let at = put(&mut self.kept, &mut self.free, request);
        self.index.put(id, at);
    }

    /// Marks the request with that id, if it is held.
    pub fn mark(&mut self, id: &RequestId)
        ensures value { self.new ≡ record self.old { held = map (marked_at id.now) self.old.held } }
        ensures ascend { IdsAscend self.new.held }
    {
        if let Some(at) = self.index.value_of(id) {
            self.kept[at as usize].mark();
        }
    }

    /// The suspects among those that aren't listed, in ascending order of their ids.
    pub fn suspects(&self, alloc: Global, listed: &Listed) -> Result<Vec<Shared<Request>>, NoMemory>
        ensures { IfOk result (λ requests. requests.items ≡ suspected_of (what_remains listed.now self.now.held)) }
    {
        suspects_at(alloc, &self.kept, self.index.as_slice(), listed)
    }

    /// Drops the listed requests. What remains has survived one more collection. It takes no memory.
    pub fn collect(&mut self, listed: &Listed)
        ensures value { self.new ≡ record self.old { held = map survives (what_remains listed.now self.old.held) } }
        ensures ascend { IdsAscend self.new.held }
    {
        free_places(self.index.as_slice(), listed, &mut self.free);
        self.index.retain(|place| !listed.has(&place.0));
        survive_all(&mut self.kept);
    }

    /// The requests, in ascending order of their least hashes.
    pub fn by_least_hash(&self, alloc: Global) -> Result<Vec<Shared<Request>>, NoMemory>
        requires { LeastHashesApart (requests_of self.now.held) }
        ensures { IfOk result (λ requests. requests.items ≡ by_least_hash (requests_of self.now.held)) }
    {
        let sorted = places_by_hash(alloc, &self.kept, self.index.as_slice())?;
        requests_at(alloc, &self.kept, &sorted)
    }
}

/// Puts the request where one was dropped, or else behind the others, and gives the place.
fn put(kept: &mut Vec<KeptRequest>, free: &mut Reserved<u32>, request: Shared<Request>) -> u32
    requires within { Each (λ at. at < length kept.old.items) free.old.items }
    requires room { length free.old.items ≡ 0 → length kept.old.items < vec_capacity kept.old }
    requires few { length kept.old.items < 2 ^ 32 }
    ensures kept { kept.new.items ≡ put_at kept.old.items result (newly_held request) }
    ensures kept_room { vec_capacity kept.new ≡ vec_capacity kept.old }
    ensures free { IsPlaceGiven (length kept.old.items) free.old.items free.new.items result }
    ensures free_room { length free.old.items + free.old.spare ≤ length free.new.items + free.new.spare }
{
    let newly_held = KeptRequest::new(request);
    if let Some(at) = free.pop() {
        kept[at as usize] = newly_held;
        return at;
    }
    let at = kept.len() as u32;
    kept.push_reserved(newly_held);
    at
}

/// Adds the places of the listed requests to those that are free.
fn free_places(index: &[(RequestId, u32)], listed: &Listed, free: &mut Reserved<u32>)
    requires { length index.now ≤ free.old.spare }
    ensures items { free.new.items ≡ free.old.items ++ places_freed listed.now index.now }
    ensures room { length free.new.items + free.new.spare ≡ length free.old.items + free.old.spare }
{
    for (id, at) in index {
        if listed.has(id) {
            free.push(*at);
        }
    }
}

/// Each has survived one more collection.
fn survive_all(kept: &mut Vec<KeptRequest>)
    ensures items { kept.new.items ≡ map survives kept.old.items }
    ensures room { vec_capacity kept.new ≡ vec_capacity kept.old }
{
    for at in 0..kept.len() {
        kept[at].survive();
    }
}

/// The suspects at those places that aren't listed, in the order of the places.
fn suspects_at(
    alloc: Global,
    kept: &[KeptRequest],
    index: &[(RequestId, u32)],
    listed: &Listed,
) -> Result<Vec<Shared<Request>>, NoMemory>
    requires { Each (IsFilled kept.now) index.now }
    ensures { IfOk result (λ requests.
        requests.items ≡ suspected_of (what_remains listed.now (held_by kept.now index.now))) }
{
    let mut suspects = Vec::new(alloc);
    for (id, at) in index {
        if listed.has(id) {
            continue;
        }
        if let Some(suspect) = kept[*at as usize].suspect() {
            suspects.push(suspect.share()?)?;
        }
    }
    Ok(suspects)
}

/// The places, in ascending order of the least hashes of what stands there.
fn places_by_hash(
    alloc: Global,
    kept: &[KeptRequest],
    index: &[(RequestId, u32)],
) -> Result<BTreeMap<u64, u32>, NoMemory>
    requires { Each (IsFilled kept.now) index.now }
    ensures sorted { IfOk result (λ sorted. sorted.entries ≡ least_places kept.now index.now) }
    ensures within { IfOk result (λ sorted. Each (λ at. at < length kept.now) (values sorted)) }
{
    let mut sorted = BTreeMap::new(alloc);
    for (_, at) in index {
        let request = kept[*at as usize].request();
        sorted.insert(least_hash(request), *at)?;
    }
    Ok(sorted)
}

/// The requests at those places.
fn requests_at(
    alloc: Global,
    kept: &[KeptRequest],
    places: &BTreeMap<u64, u32>,
) -> Result<Vec<Shared<Request>>, NoMemory>
    requires { Each (λ at. at < length kept.now) (values places.now) }
    ensures { IfOk result (λ requests. requests.items ≡ map (request_at kept.now) (values places.now)) }
{
    let mut requests = Vec::with_capacity(alloc, places.len())?;
    for at in places.values() {
        requests.push(kept[*at as usize].share()?)?;
    }
    Ok(requests)
}

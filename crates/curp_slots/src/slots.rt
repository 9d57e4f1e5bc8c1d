ghost use Rattle.std.specs.Prelude.{◌≡◌, ◌%◌, ◌<◌, ◌≤◌, [], length, map, replicate, IfOk};
ghost use Rattle.curp_model.specs.Witness.{in_set};
ghost use Rattle.curp_slots.specs.Slots.{HasSlotsFor, lesser, least_full, least_owner, if_full, owner, slots_left, taken_in, with_slot_in, with_slots};

use crate::listed::Listed;
use crate::set::{Set, Slot};
use curp_base::NoMemory;
use curp_cmd::RequestId;
use std::alloc::Global;
use std::marker::Model;

/// The slots of a witness: so many sets, each with so many ways. Contracts see the slots of each set that are taken.
#[derive(Drop)]
pub struct Slots {
    ways: u32,
    sets: Vec<Set>,
}

impl Model for Slots {
    ghost use Rattle.curp_slots.specs.Slots.{SlotTable, IsSlotTable};

    ghost Value = { SlotTable };

    ghost view = { λ s. record { ways = s.ways; sets = s.sets.items } };

    ghost invariant = { λ s. IsSlotTable s.ways s.sets.items };
}

impl Slots {
    /// Sets of which no slot is taken.
    pub fn new(alloc: Global, sets: u32, ways: u32) -> Result<Slots, NoMemory>
        requires some_sets { 1 ≤ sets }
        requires sets_fit { sets ≤ 1024 }
        requires some_ways { 1 ≤ ways }
        requires ways_fit { ways ≤ 16 }
        ensures { IfOk result (λ slots. slots ≡ record { ways = ways; sets = replicate sets [] }) }
    {
        let mut taken = Vec::with_capacity(alloc, sets as usize)?;
        for _ in 0..sets {
            taken.push(Set::new())?;
        }
        Ok(Slots { ways, sets: taken })
    }

    pub fn sets(&self) -> u32
        ensures value { result ≡ length self.now.sets }
        ensures least { 1 ≤ length self.now.sets }
        ensures most { length self.now.sets ≤ 1024 }
    {
        self.sets.len() as u32
    }

    pub fn ways(&self) -> u32
        ensures value { result ≡ self.now.ways }
        ensures most { self.now.ways ≤ 16 }
    {
        self.ways
    }

    // The set of the hash.
    fn set_of(&self, hash: u64) -> u32
        ensures value { result ≡ hash % length self.now.sets }
        ensures within { result < length self.now.sets }
    {
        (hash % self.sets.len() as u64) as u32
    }

    /// Which request has a slot for the hash.
    pub fn owner(&self, hash: u64) -> Option<RequestId>
        ensures { result ≡ owner self.now.sets hash }
    {
        self.sets[self.set_of(hash) as usize].owner(hash)
    }

    /// The least request that has a slot for one of the hashes.
    pub fn least_owner(&self, hashes: &[u64]) -> Option<RequestId>
        ensures { result ≡ least_owner self.now.sets hashes.now }
    {
        match hashes {
            [] => None,
            [hash, rest @ ..] => lesser(self.owner(*hash), self.least_owner(rest)),
        }
    }

    /// The least set that has no room for a slot for each of the hashes that go to it.
    pub fn full_set(&self, hashes: &[u64]) -> Option<u32>
        requires { length hashes.now ≤ 4 }
        ensures { result ≡ least_full self.now hashes.now hashes.now }
    {
        self.full_among(hashes, hashes)
    }

    // Only the sets of those hashes are looked at.
    fn full_among(&self, all: &[u64], hashes: &[u64]) -> Option<u32>
        requires { length all.now ≤ 4 }
        ensures { result ≡ least_full self.now all.now hashes.now }
    {
        match hashes {
            [] => None,
            [hash, rest @ ..] => {
                lesser(
                    self.if_full(all, self.set_of(*hash)),
                    self.full_among(all, rest),
                )
            }
        }
    }

    fn if_full(&self, hashes: &[u64], set: u32) -> Option<u32>
        requires within { set < length self.now.sets }
        requires few { length hashes.now ≤ 4 }
        ensures { result ≡ if_full self.now hashes.now set }
    {
        let taken = self.sets[set as usize].len() as u64 + self.count_in(set, hashes);
        if taken > u64::from(self.ways) {
            Some(set)
        } else {
            None
        }
    }

    // How many of the hashes go to that set.
    fn count_in(&self, set: u32, hashes: &[u64]) -> u64
        ensures value { result ≡ in_set (length self.now.sets) set hashes.now }
        ensures most { result ≤ length hashes.now }
    {
        match hashes {
            [] => 0,
            [hash, rest @ ..] => { u64::from(self.set_of(*hash) == set) + self.count_in(set, rest) }
        }
    }

    /// Takes a slot for each of the hashes.
    pub fn take(&mut self, hashes: &[u64], id: &RequestId)
        requires { HasSlotsFor self.old hashes.now }
        ensures { self.new ≡ record self.old { sets = with_slots self.old.sets hashes.now id.now } }
    {
        if let [hash, rest @ ..] = hashes {
            let slot = Slot {
                hash: *hash,
                id: *id,
            };
            self.take_one(self.set_of(*hash), &slot);
            self.take(rest, id);
        }
    }

    fn take_one(&mut self, set: u32, slot: &Slot)
        requires within { set < length self.old.sets }
        requires room { taken_in self.old.sets set < self.old.ways }
        ensures { self.new ≡ record self.old { sets = with_slot_in self.old.sets set slot.now } }
    {
        self.sets[set as usize].take(slot);
    }

    /// Frees the slots of the listed requests.
    pub fn free(&mut self, listed: &Listed)
        ensures { self.new ≡ record self.old { sets = map (slots_left listed.now) self.old.sets } }
    {
        free_in_each(&mut self.sets, listed);
    }
}

/// Frees the slots of the listed requests in each set.
fn free_in_each(sets: &mut Vec<Set>, listed: &Listed)
    ensures { sets.new.items ≡ map (slots_left listed.now) sets.old.items }
{
    for at in 0..sets.len() {
        sets[at].free(listed);
    }
}

/// The lesser of two, where there are two.
fn lesser<K: Ord + Copy>(a: Option<K>, b: Option<K>) -> Option<K>
    ensures { result ≡ lesser K.cmp a b }
{
    match (a, b) {
        (None, b) => b,
        (a, None) => a,
        (Some(a), Some(b)) => Some(if b < a { b } else { a }),
    }
}

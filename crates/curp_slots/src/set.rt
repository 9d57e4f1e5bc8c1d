ghost use Rattle.std.specs.Prelude.{◌≡◌, ◌<◌, ◌≤◌, [], ◌∷◌, ◌++◌, length};
ghost use Rattle.curp_slots.specs.Slots.{owner_in, slots_left};

use crate::listed::Listed;
use curp_cmd::RequestId;
use std::marker::Model;

/// A slot that is taken: for which hash, and by which request.
#[derive(Clone, Copy)]
pub struct Slot {
    pub hash: u64,
    pub id: RequestId,
}

// What a slot has that isn't taken.
const FREE: Slot = Slot {
    hash: 0,
    id: RequestId { client: 0, seq: 0 },
};

/// The slots of a set that are taken, at most 16, held in place. Contracts see the list.
#[derive(Drop)]
pub struct Set {
    slots: [Slot; 16],
    len: u8,
}

impl Model for Set {
    ghost use Rattle.std.specs.Prelude.{List, ◌≤◌, take};
    ghost use Rattle.curp_slots.specs.declared.set.Slot.{Slot};

    ghost Value = { List Slot };

    ghost view = { λ s. take s.len s.slots };

    ghost invariant = { λ s. s.len ≤ 16 };
}

impl Set {
    pub fn new() -> Set
        ensures { result ≡ [] }
    {
        Set {
            slots: [FREE; 16],
            len: 0,
        }
    }

    pub fn len(&self) -> usize
        ensures value { result ≡ length self.now }
        ensures most { length self.now ≤ 16 }
    {
        self.taken().len()
    }

    /// Which request has a slot for the hash.
    pub fn owner(&self, hash: u64) -> Option<RequestId>
        ensures { result ≡ owner_in self.now hash }
    {
        owner_in(self.taken(), hash)
    }

    fn taken(&self) -> &[Slot]
        ensures value { result.now ≡ self.now }
        ensures most { length self.now ≤ 16 }
    {
        &self.slots[..self.len as usize]
    }

    pub fn take(&mut self, slot: &Slot)
        requires { length self.old < 16 }
        ensures { self.new ≡ self.old ++ slot.now ∷ [] }
    {
        self.slots[self.len as usize] = *slot;
        self.len += 1;
    }

    /// Frees the slots of the listed requests.
    pub fn free(&mut self, listed: &Listed)
        ensures { self.new ≡ slots_left listed.now self.old }
    {
        if self.len == 0 {
            return;
        }
        let mut left = Set::new();
        for slot in self.taken() {
            if !listed.has(&slot.id) {
                left.take(slot);
            }
        }
        *self = left;
    }
}

fn owner_in(slots: &[Slot], hash: u64) -> Option<RequestId>
    ensures { result ≡ owner_in slots.now hash }
{
    match slots {
        [] => None,
        [slot, ..] if slot.hash == hash => Some(slot.id),
        [_, rest @ ..] => owner_in(rest, hash),
    }
}

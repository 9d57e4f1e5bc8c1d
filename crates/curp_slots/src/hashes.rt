ghost use Rattle.std.specs.Prelude.{◌≡◌, ◌+◌, ◌<◌, ◌≤◌, length, IfSome};
ghost use Rattle.std.specs.BTreeSet.{insert_key};
ghost use Rattle.std.specs.Ordering.{nat_cmp};
ghost use Rattle.curp_cmd.specs.Hash.{hashes};
ghost use Rattle.curp_model.specs.Witness.{least_hash};
ghost use Rattle.curp_slots.specs.Slots.{gap};

use curp_cmd::{Command, Hashes, Request};
use std::cmp::Ordering;
use std::marker::Model;

/// The hashes of a command's keys in ascending order, each once, held in place. Contracts see the list.
#[derive(Drop)]
pub struct AscendingHashes {
    held: [u64; 4],
    len: u8,
}

impl Model for AscendingHashes {
    ghost use Rattle.std.specs.Prelude.{ℕ, List, ◌≤◌, take};

    ghost Value = { List ℕ };

    ghost view = { λ h. take h.len h.held };

    ghost invariant = { λ h. h.len ≤ 4 };
}

impl AscendingHashes {
    /// The hashes of that command. It takes no memory.
    pub fn of(command: &Command) -> AscendingHashes
        ensures items { result ≡ hashes command.now }
        ensures least { 1 ≤ length result }
        ensures most { length result ≤ 4 }
    {
        let found = Hashes::of(command);
        let mut ascending = AscendingHashes {
            held: [0; 4],
            len: 0,
        };
        for at in 0..found.count() {
            ascending.add(found.as_slice()[at]);
        }
        ascending
    }

    pub fn as_slice(&self) -> &[u64]
        ensures { result.now ≡ self.now }
    {
        &self.held[..self.len as usize]
    }

    // One more hash in its place, where it isn't there yet.
    fn add(&mut self, hash: u64)
        requires { length self.old < 4 }
        ensures items { self.new ≡ insert_key nat_cmp self.old hash }
        ensures most { length self.new ≤ length self.old + 1 }
        ensures least { 1 ≤ length self.new }
    {
        if let Some(at) = gap(self.as_slice(), hash) {
            self.held.copy_within(at..self.len as usize, at + 1);
            self.held[at] = hash;
            self.len += 1;
        }
    }
}

/// The least hash of the keys that the request names. It takes no memory.
pub fn least_hash(request: &Request) -> u64
    ensures { result ≡ least_hash request.now }
{
    match AscendingHashes::of(&request.command).as_slice() {
        [] => 0,
        [least, ..] => *least,
    }
}

/// Where the hash would go among those in ascending order, if it isn't one of them.
fn gap(hashes: &[u64], hash: u64) -> Option<usize>
    ensures value { result ≡ gap hashes.now hash }
    ensures most { IfSome result (λ at. at ≤ length hashes.now) }
{
    match hashes {
        [] => Some(0),
        [first, rest @ ..] => match hash.cmp(first) {
            Ordering::Less => Some(0),
            Ordering::Equal => None,
            Ordering::Greater => match gap(rest, hash) {
                Some(at) => Some(at + 1),
                None => None,
            },
        },
    }
}

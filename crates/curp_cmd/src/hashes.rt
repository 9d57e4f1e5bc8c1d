ghost use Rattle.std.specs.Prelude.{◌≡◌, ◌≤◌, length};
ghost use Rattle.curp_cmd.specs.Hash.{hashes_of};
ghost use Rattle.curp_cmd.specs.declared.command.Command.TheVariants.{Multi};

use crate::{Command, Key, Value, key_hash};
use std::marker::Model;

/// The hashes of a command's keys, in the order of the keys, held in place. Contracts see the list.
#[derive(Drop)]
pub struct Hashes {
    held: [u64; 4],
    len: u8,
}

impl Model for Hashes {
    ghost use Rattle.std.specs.Prelude.{ℕ, List, ◌≤◌, take};

    ghost Value = { List ℕ };

    ghost view = { λ h. take h.len h.held };

    ghost invariant = { λ h. (1 ≤ h.len) × (h.len ≤ 4) };
}

impl Hashes {
    /// The hashes of that command. It takes no memory.
    pub fn of(command: &Command) -> Hashes
        ensures { result ≡ hashes_of command.now }
    {
        match command {
            Command::Get(key)
            | Command::Put(key, _)
            | Command::Delete(key)
            | Command::Incr(key)
            | Command::Append(key, _)
            | Command::CondPut(key, _, _) => Hashes {
                held: [key_hash(key), 0, 0, 0],
                len: 1,
            },
            Command::Multi(pairs) => Hashes::of_pairs(pairs.as_slice()),
        }
    }

    fn of_pairs(pairs: &[(Key, Value)]) -> Hashes
        requires least { 1 ≤ length pairs.now }
        requires most { length pairs.now ≤ 4 }
        ensures { result ≡ hashes_of (Multi pairs.now) }
    {
        let mut held = [0; 4];
        for at in 0..pairs.len() {
            held[at] = key_hash(&pairs[at].0);
        }
        Hashes {
            held,
            len: pairs.len() as u8,
        }
    }

    /// How many they are, as many as the command has keys.
    pub fn count(&self) -> usize
        ensures value { result ≡ length self.now }
        ensures least { 1 ≤ length self.now }
        ensures most { length self.now ≤ 4 }
    {
        self.len as usize
    }

    pub fn as_slice(&self) -> &[u64]
        ensures { result.now ≡ self.now }
    {
        &self.held[..self.len as usize]
    }
}

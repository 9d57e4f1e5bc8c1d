ghost use Rattle.std.specs.Prelude.{◌≡◌, ◌<◌, ◌≤◌, ◌↔◌, length, OnOk, IfOk};
ghost use Rattle.std.specs.Str.{bytes_eq};
ghost use Rattle.std.specs.Ordering.{nat_cmp, as_partial_cmp};
ghost use Rattle.std.specs.Cmp.{partial_order_from_own_ties};
ghost use Rattle.std.specs.Cmp.Lexicographic.{slice_cmp};
ghost use Rattle.std.specs.Cmp.Rules.{comparing, hashing};
ghost use Rattle.std.proofs.Common.{rules};
ghost use Rattle.curp_base.specs.Words.{AreBytes};

use crate::in_place::hold;
use std::cmp::Ordering;
use std::hash::{Hash, Hasher};
use std::marker::Model;
use thiserror::Error;

/// A key: 1 to 32 bytes, held in place and copied without memory. Contracts see the list of its bytes.
#[derive(Clone, Copy)]
pub struct Key {
    bytes: [u8; 32],
    len: u8,
}

impl Model for Key {
    ghost use Rattle.std.specs.Prelude.{ℕ, List, take, length};

    ghost Value = { List ℕ };

    ghost use Rattle.curp_cmd.specs.InPlace.{IsInPlace, padded, held_again, length_held};

    ghost view = { λ k. take k.len k.bytes };

    ghost invariant = { λ k. IsInPlace 32 1 k.len k.bytes };

    ghost inverse = { λ bytes. record { bytes = padded 32 bytes; len = length bytes } };

    ghost inverse_ok = { λ k h i. record { bytes = held_again h i; len = length_held h i } };
}

/// Why bytes are no key.
#[derive(Clone, Copy, Debug, PartialEq, Eq, Error)]
pub enum KeyError {
    /// There is no byte.
    #[error("a key has at least one byte")]
    Empty,
    /// There are more than 32 bytes.
    #[error("a key has at most 32 bytes")]
    TooLong,
}

impl Key {
    /// The key that is these bytes.
    pub fn new(bytes: &[u8]) -> Result<Key, KeyError>
        ensures ok { IfOk result (λ key. key ≡ bytes.now) }
        ensures empty { (result ≡ Err KeyError.Empty) ↔ (length bytes.now ≡ 0) }
        ensures too_long { (result ≡ Err KeyError.TooLong) ↔ (32 < length bytes.now) }
    {
        match bytes.len() {
            0 => Err(KeyError::Empty),
            len @ 1..=32 => Ok(Key {
                bytes: hold(bytes),
                len: len as u8,
            }),
            _ => Err(KeyError::TooLong),
        }
    }

    /// The bytes of the key.
    pub fn bytes(&self) -> &[u8]
        ensures value { result.now ≡ self.now }
        ensures least { 1 ≤ length self.now }
        ensures most { length self.now ≤ 32 }
        ensures range { AreBytes self.now }
    {
        &self.bytes[..self.len as usize]
    }
}

impl PartialEq for Key {
    ghost eq = { bytes_eq };

    ghost laws = { Prim.search (comparing, rules) };

    fn eq(&self, other: &Key) -> bool {
        self.bytes() == other.bytes()
    }
}

impl Eq for Key {
    ghost laws = { Prim.search (comparing, rules) };
}

impl PartialOrd for Key {
    ghost partial_cmp = { as_partial_cmp (slice_cmp nat_cmp) };

    ghost laws = { partial_order_from_own_ties (Prim.search (comparing, rules)) (Prim.search (comparing, rules)) };

    fn partial_cmp(&self, other: &Key) -> Option<Ordering> {
        Some(self.cmp(other))
    }
}

impl Ord for Key {
    ghost cmp = { slice_cmp nat_cmp };

    ghost total = { Prim.search (comparing, rules) };

    ghost matches_partial_cmp = { Prim.search (comparing, rules) };

    ghost matches_eq = { Prim.search (comparing, rules) };

    fn cmp(&self, other: &Key) -> Ordering {
        self.bytes().cmp(other.bytes())
    }
}

impl Hash for Key {
    ghost use Rattle.std.specs.Hash as fed;

    ghost hash_input = { fed.slice fed.u8 };

    ghost respects_eq = { Prim.search (hashing, rules) };

    fn hash<H: Hasher>(&self, state: &mut H) {
        self.bytes().hash(state);
    }
}

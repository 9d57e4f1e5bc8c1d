ghost use Rattle.std.specs.Prelude.{◌≡◌, ◌<◌, ◌≤◌, ◌↔◌, length, false, true, IfOk};
ghost use Rattle.std.specs.List.{list_any};
ghost use Rattle.std.specs.Str.{bytes_eq};
ghost use Rattle.std.specs.Cmp.Rules.{comparing};
ghost use Rattle.std.proofs.Common.{rules};
ghost use Rattle.curp_cmd.specs.Pairs.{names_twice, pairs_eq};

use crate::{Key, Value};
use std::marker::Model;
use thiserror::Error;

/// What a multi-put puts: 1 to 4 pairs of a key and its value, no key twice, held in place and copied without memory.
/// Contracts see the list of the pairs.
#[derive(Clone, Copy)]
pub struct Pairs {
    // The pairs, and copies of the first behind them.
    held: [(Key, Value); 4],
    len: u8,
}

impl Model for Pairs {
    ghost use Rattle.std.specs.Prelude.{ℕ, List, take, length};
    ghost use Rattle.curp_cmd.specs.Pairs.{Pair, filled, IsMulti, filled_again, length_filled};

    ghost Value = { List (List ℕ × List ℕ) };

    ghost view = { λ p. take p.len p.held };

    ghost invariant = { λ p. IsMulti p.len p.held };

    ghost inverse = { λ pairs. record { held = filled pairs; len = length pairs } };

    ghost inverse_ok = { λ p h i. record { held = filled_again h i; len = length_filled h i } };
}

/// Why pairs make no multi-put.
#[derive(Clone, Copy, Debug, PartialEq, Eq, Error)]
pub enum MultiError {
    /// There is no pair.
    #[error("a multi-put has at least one pair")]
    NoPairs,
    /// There are more than 4 pairs.
    #[error("a multi-put has at most 4 pairs")]
    TooManyPairs,
    /// Two of the pairs have one key.
    #[error("a multi-put has no key twice")]
    KeyTwice,
}

impl Pairs {
    /// These pairs. Too many pairs are reported as such, also where a key stands twice.
    pub fn new(pairs: &[(Key, Value)]) -> Result<Pairs, MultiError>
        ensures ok { IfOk result (λ held. held ≡ pairs.now) }
        ensures no_pairs { (result ≡ Err MultiError.NoPairs) ↔ (length pairs.now ≡ 0) }
        ensures too_many_pairs { (result ≡ Err MultiError.TooManyPairs) ↔ (4 < length pairs.now) }
        ensures key_twice { (result ≡ Err MultiError.KeyTwice)
            ↔ ((length pairs.now ≤ 4) × (names_twice pairs.now ≡ true)) }
    {
        match pairs {
            [] => Err(MultiError::NoPairs),
            [_, _, _, _, _, ..] => Err(MultiError::TooManyPairs),
            _ if names_twice(pairs) => Err(MultiError::KeyTwice),
            [first, ..] => {
                let mut held = [*first; 4];
                held[..pairs.len()].copy_from_slice(pairs);
                let len = pairs.len() as u8;
                Ok(Pairs { held, len })
            }
        }
    }

    /// The pairs, in the order in which they are put.
    pub fn as_slice(&self) -> &[(Key, Value)]
        ensures value { result.now ≡ self.now }
        ensures least { 1 ≤ length self.now }
        ensures most { length self.now ≤ 4 }
        ensures distinct { names_twice self.now ≡ false }
    {
        &self.held[..self.len as usize]
    }
}

impl PartialEq for Pairs {
    ghost eq = { pairs_eq };

    ghost laws = { Prim.search (comparing, rules) };

    fn eq(&self, other: &Pairs) -> bool {
        self.as_slice() == other.as_slice()
    }
}

impl Eq for Pairs {
    ghost laws = { Prim.search (comparing, rules) };
}

/// Whether two of the pairs have one key.
fn names_twice(pairs: &[(Key, Value)]) -> bool
    ensures { result ≡ names_twice pairs.now }
{
    match pairs {
        [] => false,
        [first, rest @ ..] => names(rest, &first.0) || names_twice(rest),
    }
}

/// Whether one of the pairs has the key.
fn names(pairs: &[(Key, Value)], key: &Key) -> bool
    ensures { result ≡ list_any (λ pair. bytes_eq pair.0 key.now) pairs.now }
{
    pairs.iter().any(|pair| pair.0 == *key)
}

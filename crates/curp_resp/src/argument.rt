ghost use Rattle.std.specs.Prelude.{◌≡◌, [], ◌∷◌, ◌++◌, length, nat_lt, if◌then◌else◌, Ok, Err, MatchResult};
ghost use Rattle.curp_resp.specs.Kept.{most_bytes};
ghost use Rattle.curp_resp.specs.Meaning.{key_in, one_in, pair_in, value_in};

use crate::asked::Wrong;
use crate::integer::is_integer;
use curp_cmd::{Key, Value};
use std::marker::Model;

/// How many bytes of an argument are kept: one more than a value may have.
const MOST_BYTES: usize = 129;

/// The first bytes of an argument, at most 129. Contracts see the list of them.
#[derive(Clone, Copy)]
pub(crate) struct Argument {
    bytes: [u8; MOST_BYTES],
    len: u8,
}

impl Model for Argument {
    ghost use Rattle.std.specs.Prelude.{ℕ, List, take, length};

    ghost Value = { List ℕ };

    ghost use Rattle.curp_cmd.specs.InPlace.{IsInPlace, padded, held_again, length_held};

    ghost view = { λ a. take a.len a.bytes };

    ghost invariant = { λ a. IsInPlace 129 0 a.len a.bytes };

    ghost inverse = { λ bytes. record { bytes = padded 129 bytes; len = length bytes } };

    ghost inverse_ok = { λ a h i. record { bytes = held_again h i; len = length_held h i } };
}

impl Argument {
    pub(crate) fn empty() -> Argument
        ensures { result ≡ [] }
    {
        Argument {
            bytes: [0; MOST_BYTES],
            len: 0,
        }
    }

    /// Adds a byte, where there is room.
    pub(crate) fn push(&mut self, byte: u8)
        ensures { self.new ≡ (if nat_lt (length self.old) most_bytes then self.old ++ byte ∷ [] else self.old) }
    {
        let len = self.len as usize;
        if len < MOST_BYTES {
            self.bytes[len] = byte;
            self.len += 1;
        }
    }

    pub(crate) fn bytes(&self) -> &[u8]
        ensures { result.now ≡ self.now }
    {
        &self.bytes[..self.len as usize]
    }

    pub(crate) fn key(&self) -> Result<Key, Wrong>
        ensures { result ≡ key_in self.now }
    {
        Key::new(self.bytes()).map_err(|_| Wrong::Size)
    }

    pub(crate) fn value(&self) -> Result<Value, Wrong>
        ensures { result ≡ value_in self.now }
    {
        Value::new(self.bytes()).map_err(|_| Wrong::Size)
    }

    /// Refuses all but 1.
    pub(crate) fn one(&self) -> Result<(), Wrong>
        ensures { result ≡ one_in self.now }
    {
        let bytes = self.bytes();
        if !is_integer(bytes) {
            return Err(Wrong::NotInteger);
        }
        if bytes != b"1".as_slice() {
            return Err(Wrong::NotOne);
        }
        Ok(())
    }
}

/// The pair of a key and its value.
pub(crate) fn pair_of(key: &Argument, value: &Argument) -> Result<(Key, Value), Wrong>
    ensures { result ≡ pair_in key.now value.now }
{
    Ok((key.key()?, value.value()?))
}

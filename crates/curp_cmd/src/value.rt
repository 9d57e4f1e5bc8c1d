ghost use Rattle.std.specs.Prelude.{◌≡◌, ◌<◌, ◌≤◌, ◌↔◌, ◌++◌, length, nat_le, if◌then◌else◌, IfOk};
ghost use Rattle.std.specs.Int.{w64, to_be_bytes};
ghost use Rattle.std.specs.Str.{bytes_eq};
ghost use Rattle.std.specs.Cmp.Rules.{comparing};
ghost use Rattle.std.proofs.Common.{rules};
ghost use Rattle.curp_base.specs.Words.{AreBytes};
ghost use Rattle.curp_cmd.specs.Store.{number_in};

use crate::in_place::hold;
use std::marker::Model;
use thiserror::Error;

/// A value: 0 to 128 bytes, held in place and copied without memory. Contracts see the list of its bytes.
#[derive(Clone, Copy)]
pub struct Value {
    bytes: [u8; 128],
    len: u8,
}

impl Model for Value {
    ghost use Rattle.std.specs.Prelude.{ℕ, List, take, length};

    ghost Value = { List ℕ };

    ghost use Rattle.curp_cmd.specs.InPlace.{IsInPlace, padded, held_again, length_held};

    ghost view = { λ v. take v.len v.bytes };

    ghost invariant = { λ v. IsInPlace 128 0 v.len v.bytes };

    ghost inverse = { λ bytes. record { bytes = padded 128 bytes; len = length bytes } };

    ghost inverse_ok = { λ v h i. record { bytes = held_again h i; len = length_held h i } };
}

/// Why bytes are no value.
#[derive(Clone, Copy, Debug, PartialEq, Eq, Error)]
pub enum ValueError {
    /// There are more than 128 bytes.
    #[error("a value has at most 128 bytes")]
    TooLong,
}

impl Value {
    /// The value that is these bytes.
    pub fn new(bytes: &[u8]) -> Result<Value, ValueError>
        ensures ok { IfOk result (λ value. value ≡ bytes.now) }
        ensures too_long { (result ≡ Err ValueError.TooLong) ↔ (128 < length bytes.now) }
    {
        match bytes.len() {
            len @ 0..=128 => Ok(Value {
                bytes: hold(bytes),
                len: len as u8,
            }),
            _ => Err(ValueError::TooLong),
        }
    }

    /// The value that is this number's 8 bytes, the highest first.
    pub fn from_number(number: u64) -> Value
        ensures { result ≡ to_be_bytes w64 number }
    {
        Value {
            bytes: hold(&number.to_be_bytes()),
            len: 8,
        }
    }

    /// The number that the value is, where it has 8 bytes.
    pub fn to_number(&self) -> Option<u64>
        ensures { result ≡ number_in self.now }
    {
        match self.len {
            8 => Some(u64::from_be_bytes(hold(self.bytes()))),
            _ => None,
        }
    }

    /// The value with the other's bytes behind its own, where these are at most 128 in all.
    pub fn joined(&self, more: &Value) -> Option<Value>
        ensures { result ≡ (if nat_le (length (self.now ++ more.now)) 128 then Some (self.now ++ more.now) else None) }
    {
        let (prefix, back) = (self.bytes(), more.bytes());
        let len = prefix.len() + back.len();
        if len > 128 {
            return None;
        }
        let mut bytes = self.bytes;
        bytes[prefix.len()..len].copy_from_slice(back);
        Some(Value {
            bytes,
            len: len as u8,
        })
    }

    /// The bytes of the value.
    pub fn bytes(&self) -> &[u8]
        ensures value { result.now ≡ self.now }
        ensures most { length self.now ≤ 128 }
        ensures range { AreBytes self.now }
    {
        &self.bytes[..self.len as usize]
    }
}

impl PartialEq for Value {
    ghost eq = { bytes_eq };

    ghost laws = { Prim.search (comparing, rules) };

    fn eq(&self, other: &Value) -> bool {
        self.bytes() == other.bytes()
    }
}

impl Eq for Value {
    ghost laws = { Prim.search (comparing, rules) };
}

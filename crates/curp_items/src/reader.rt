ghost use Rattle.std.specs.Prelude.{◌≡◌, ◌+◌, ◌<◌, ◌≤◌, ◌^◌, length, Ok, Err};
ghost use Rattle.curp_items.specs.Format.{bytes_at, byte, string};
ghost use Rattle.curp_items.specs.Calls.{IsAtEnd, ReadsItem, ReadsText};

use crate::Fault;
use std::marker::Model;

/// Bytes that are read from the left, and the place of the next one. A fault leaves it anywhere.
#[derive(Drop)]
pub struct Reader<'a> {
    place: u64,
    rest: &'a [u8],
}

impl<'a> Model for Reader<'a> {
    ghost use Rattle.std.specs.Prelude.{◌+◌, ◌<◌, ◌^◌, length};
    ghost use Rattle.curp_items.specs.Format.{Input};

    ghost Value = { Input };

    ghost view = { λ r. record { place = r.place; rest = r.rest.now } };

    ghost invariant = { λ r. r.place + length r.rest.now < 2 ^ 64 };
}

impl<'a> Reader<'a> {
    /// The bytes from the first one on.
    pub fn new(bytes: &'a [u8]) -> Reader<'a>
        ensures { result ≡ record { place = 0; rest = bytes.now } }
    {
        Reader {
            place: 0,
            rest: bytes,
        }
    }

    /// Bytes of which the first has this place.
    pub fn at(place: u32, bytes: &'a [u8]) -> Reader<'a>
        ensures { result ≡ record { place = place; rest = bytes.now } }
    {
        Reader {
            place: u64::from(place),
            rest: bytes,
        }
    }

    /// The place of the next byte.
    pub fn place(&self) -> u64
        ensures { result ≡ self.now.place }
    {
        self.place
    }

    /// That nothing is left over.
    pub fn end(&self) -> Result<(), Fault>
        ensures { IsAtEnd result self.now.place self.now.rest }
    {
        if self.rest.is_empty() {
            Ok(())
        } else {
            Err(Fault { place: self.place })
        }
    }

    /// The next byte.
    pub fn byte(&mut self) -> Result<u8, Fault>
        ensures { ReadsItem result self.new (byte.read self.old) }
    {
        match self.rest {
            [] => Err(Fault { place: self.place }),
            [byte, rest @ ..] => {
                self.place += 1;
                self.rest = rest;
                Ok(*byte)
            }
        }
    }

    /// The next bytes, as many as the array has.
    pub fn take<const N: usize>(&mut self) -> Result<[u8; N], Fault>
        ensures { ReadsItem result self.new (bytes_at N self.old) }
    {
        if self.rest.len() < N {
            return Err(Fault { place: self.place });
        }
        let (prefix, rest) = self.rest.split_at(N);
        let mut bytes = [0; N];
        bytes.copy_from_slice(prefix);
        self.place += N as u64;
        self.rest = rest;
        Ok(bytes)
    }

    /// A byte that says how many bytes follow, and these.
    pub fn string(&mut self) -> Result<&'a [u8], Fault>
        ensures { ReadsText result self.new (string.read self.old) }
    {
        let place = self.place;
        let fault = Fault { place };
        let count = usize::from(self.byte().or(Err(fault))?);
        if self.rest.len() < count {
            return Err(fault);
        }
        let (prefix, rest) = self.rest.split_at(count);
        self.place += count as u64;
        self.rest = rest;
        Ok(prefix)
    }
}

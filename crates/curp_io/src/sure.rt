ghost use Rattle.std.specs.Prelude.{◌≡◌, min, take, length, [], true, IfOk};
ghost use Rattle.curp_io.specs.Sure.{PutsAll};
ghost use Rattle.curp_io.specs.Streams.{flushed_after_put};

use crate::sink::{Flushed, Put, Sink};
use crate::source::{Source, Taken};
use curp_base::NoMemory;
use std::alloc::Global;
use std::marker::Model;

/// A source over bytes in memory that never fails.
pub struct SureSource {
    bytes: Vec<u8>,
    at: usize,
}

impl Drop for SureSource {
    fn drop(self) {
        let SureSource { bytes: _, at: _ } = self;
    }
}

impl Model for SureSource {
    ghost use Rattle.std.specs.Prelude.{List, ℕ, ◌≤◌, drop, vec_len};

    ghost Value = { List ℕ };

    ghost view = { λ s. drop s.at s.bytes.items };

    ghost invariant = { λ s. s.at ≤ vec_len s.bytes };
}

impl SureSource {
    pub fn new(alloc: Global, bytes: &[u8]) -> Result<SureSource, NoMemory>
        ensures { IfOk result (λ left. left ≡ bytes.now) }
    {
        Ok(SureSource {
            bytes: Vec::from_slice(alloc, bytes)?,
            at: 0,
        })
    }
}

impl Source for SureSource {
    ghost tells = { λ _. true };

    ghost left = { λ left. left };

    ghost faults = { λ _. 0 };

    fn take(&mut self, buf: &mut [u8]) -> Taken {
        let count = copy_prefix(&self.bytes[self.at..], buf, usize::MAX);
        self.at += count;
        Taken::Bytes(count)
    }
}

/// A sink that holds its bytes in memory and never fails.
pub struct SureSink {
    bytes: Vec<u8>,
    flushed: bool,
}

impl Drop for SureSink {
    fn drop(self) {
        let SureSink {
            bytes: _,
            flushed: _,
        } = self;
    }
}

impl Model for SureSink {
    ghost use Rattle.curp_io.specs.Sure.{SureIntake};

    ghost Value = { SureIntake };

    ghost view = { λ s. record { held = s.bytes.items; flushed = s.flushed } };
}

impl SureSink {
    /// An empty sink. It takes no memory until bytes are put.
    pub fn new(alloc: Global) -> SureSink
        ensures { result ≡ record { held = []; flushed = true } }
    {
        SureSink {
            bytes: Vec::new(alloc),
            flushed: true,
        }
    }

    pub fn bytes(&self) -> &[u8]
        ensures { result.now ≡ self.now.held }
    {
        &self.bytes
    }
}

impl Sink for SureSink {
    ghost tells = { λ _. true };

    ghost held = { λ sink. sink.held };

    ghost faults = { λ _. 0 };

    ghost flushed = { λ sink. sink.flushed };

    fn put(&mut self, bytes: &[u8]) -> Put {
        take_whole(&mut self.bytes, &mut self.flushed, bytes)
    }

    fn flush(&mut self) -> Flushed {
        self.flushed = true;
        Flushed::Done
    }
}

/// Copies bytes from the prefix of one slice to the prefix of another, at most `most`, and says how many.
pub(crate) fn copy_prefix(from: &[u8], to: &mut [u8], most: usize) -> usize
    ensures count { result ≡ min (min most (length to.old)) (length from.now) }
    ensures bytes { take result to.new ≡ take result from.now }
{
    let count = most.min(to.len()).min(from.len());
    to[..count].copy_from_slice(&from[..count]);
    count
}

/// Adds a whole piece to the bytes held, if there is memory.
pub(crate) fn take_whole(held: &mut Vec<u8>, flushed: &mut bool, piece: &[u8]) -> Put
    ensures bytes { PutsAll held.old.items held.new.items result piece.now }
    ensures flushed { flushed.new ≡ flushed_after_put flushed.old result }
{
    match held.extend_from_slice(piece) {
        Ok(()) => {
            *flushed = *flushed && piece.is_empty();
            Put::Took(piece.len())
        }
        Err(_) => Put::NoMemory,
    }
}

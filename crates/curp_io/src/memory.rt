ghost use Rattle.std.specs.Prelude.{◌≡◌, ◌≢◌, ◌≤◌, ◌<◌, ◌-◌, ◌^◌, ◌↔◌, [], length, true, if◌then◌else◌, IfOk};
ghost use Rattle.curp_io.specs.Memory.{called, fails, fresh_calls, supplied};
ghost use Rattle.curp_io.specs.Streams.{FitsBuffer, MovesOn, Puts, Rose, SameCount, Takes};
ghost use Rattle.curp_io.specs.Streams.{flushed_after_flush, flushed_after_put};

use crate::schedule::{Schedule, Turn};
use crate::sink::{Flushed, Put, Sink};
use crate::source::{Source, Taken};
use crate::sure::{copy_prefix, take_whole};
use curp_base::NoMemory;
use std::alloc::Global;
use std::marker::Model;

/// A source over bytes in memory, whose listed calls fail.
pub struct MemorySource {
    bytes: Vec<u8>,
    at: usize,
    piece: usize,
    schedule: Schedule,
}

impl Drop for MemorySource {
    fn drop(self) {
        let MemorySource {
            bytes: _,
            at: _,
            piece: _,
            schedule: _,
        } = self;
    }
}

impl Model for MemorySource {
    ghost use Rattle.std.specs.Prelude.{◌≤◌, ◌<◌, drop, vec_len};
    ghost use Rattle.curp_io.specs.Memory.{Supply};

    ghost Value = { Supply };

    ghost view = { λ s. record { left = drop s.at s.bytes.items; piece = s.piece; calls = s.schedule } };

    ghost invariant = { λ s. (s.at ≤ vec_len s.bytes) × (0 < s.piece) };
}

impl MemorySource {
    /// A source of these bytes that gives as many a call as there is room for. The calls with the numbers in
    /// `failing`, from 1, fail.
    pub fn new(alloc: Global, bytes: &[u8], failing: &[u64]) -> Result<MemorySource, NoMemory>
        ensures left { IfOk result (λ source. source.left ≡ bytes.now) }
        ensures piece { IfOk result (λ source. source.piece ≡ 2 ^ 64 - 1) }
        ensures calls { IfOk result (λ source. source.calls ≡ fresh_calls failing.now) }
    {
        MemorySource::in_pieces(alloc, bytes, failing, usize::MAX)
    }

    /// The same, and it gives at most `piece` bytes a call.
    pub fn in_pieces(
        alloc: Global,
        bytes: &[u8],
        failing: &[u64],
        piece: usize,
    ) -> Result<MemorySource, NoMemory>
        requires { 0 < piece }
        ensures left { IfOk result (λ source. source.left ≡ bytes.now) }
        ensures piece { IfOk result (λ source. source.piece ≡ piece) }
        ensures calls { IfOk result (λ source. source.calls ≡ fresh_calls failing.now) }
    {
        Ok(MemorySource {
            bytes: Vec::from_slice(alloc, bytes)?,
            at: 0,
            piece,
            schedule: Schedule::new(alloc, failing)?,
        })
    }
}

impl Source for MemorySource {
    ghost tells = { λ _. true };

    ghost left = { λ source. source.left };

    ghost faults = { λ source. source.calls.faults };

    fn take(&mut self, buf: &mut [u8]) -> Taken
        ensures fits { FitsBuffer result buf.new }
        ensures bytes { Takes self.old.left self.new.left result buf.new }
        ensures cause { result ≡ Taken.Failed → Rose self.old.calls.faults self.new.calls.faults }
        ensures told { result ≢ Taken.Failed → SameCount self.old.calls.faults self.new.calls.faults }
        ensures never_falls { self.old.calls.faults ≤ self.new.calls.faults }
        ensures answer { result ≡ supplied self.old (length buf.old) }
        ensures calls { self.new.calls ≡ called self.old.calls }
        ensures piece { self.new.piece ≡ self.old.piece }
    {
        match self.schedule.turn() {
            Turn::Fails => Taken::Failed,
            Turn::Goes => {
                let count = copy_prefix(&self.bytes[self.at..], buf, self.piece);
                self.at += count;
                Taken::Bytes(count)
            }
        }
    }
}

/// A sink that holds its bytes in memory, and whose listed calls of `put` and `flush`, counted together, fail.
pub struct MemorySink {
    bytes: Vec<u8>,
    flushed: bool,
    schedule: Schedule,
}

impl Drop for MemorySink {
    fn drop(self) {
        let MemorySink {
            bytes: _,
            flushed: _,
            schedule: _,
        } = self;
    }
}

impl Model for MemorySink {
    ghost use Rattle.curp_io.specs.Memory.{Intake};

    ghost Value = { Intake };

    ghost view = { λ s. record { held = s.bytes.items; flushed = s.flushed; calls = s.schedule } };
}

impl MemorySink {
    /// An empty sink. The calls with the numbers in `failing`, from 1, fail.
    pub fn new(alloc: Global, failing: &[u64]) -> Result<MemorySink, NoMemory>
        ensures held { IfOk result (λ sink. sink.held ≡ []) }
        ensures flushed { IfOk result (λ sink. sink.flushed ≡ true) }
        ensures calls { IfOk result (λ sink. sink.calls ≡ fresh_calls failing.now) }
    {
        Ok(MemorySink {
            bytes: Vec::new(alloc),
            flushed: true,
            schedule: Schedule::new(alloc, failing)?,
        })
    }

    pub fn bytes(&self) -> &[u8]
        ensures { result.now ≡ self.now.held }
    {
        &self.bytes
    }

    /// Whether a flush was done after the last byte was put.
    pub fn is_flushed(&self) -> bool
        ensures { result ≡ self.now.flushed }
    {
        self.flushed
    }
}

impl Sink for MemorySink {
    ghost tells = { λ _. true };

    ghost held = { λ sink. sink.held };

    ghost faults = { λ sink. sink.calls.faults };

    ghost flushed = { λ sink. sink.flushed };

    fn put(&mut self, bytes: &[u8]) -> Put
        ensures moves_on { MovesOn result bytes.now }
        ensures bytes { Puts self.old.held self.new.held result bytes.now }
        ensures flushed { self.new.flushed ≡ flushed_after_put self.old.flushed result }
        ensures cause { result ≡ Put.Failed → Rose self.old.calls.faults self.new.calls.faults }
        ensures told { result ≢ Put.Failed → SameCount self.old.calls.faults self.new.calls.faults }
        ensures never_falls { self.old.calls.faults ≤ self.new.calls.faults }
        ensures fails { (result ≡ Put.Failed) ↔ (fails self.old.calls ≡ true) }
        ensures whole { fails self.old.calls ≢ true → result ≢ Put.NoMemory → result ≡ Put.Took (length bytes.now) }
        ensures calls { self.new.calls ≡ called self.old.calls }
    {
        match self.schedule.turn() {
            Turn::Fails => Put::Failed,
            Turn::Goes => take_whole(&mut self.bytes, &mut self.flushed, bytes),
        }
    }

    fn flush(&mut self) -> Flushed
        ensures bytes { self.new.held ≡ self.old.held }
        ensures flushed { self.new.flushed ≡ flushed_after_flush self.old.flushed result }
        ensures cause { result ≡ Flushed.Failed → Rose self.old.calls.faults self.new.calls.faults }
        ensures told { result ≢ Flushed.Failed → SameCount self.old.calls.faults self.new.calls.faults }
        ensures never_falls { self.old.calls.faults ≤ self.new.calls.faults }
        ensures answer { result ≡ (if fails self.old.calls then Flushed.Failed else Flushed.Done) }
        ensures calls { self.new.calls ≡ called self.old.calls }
    {
        match self.schedule.turn() {
            Turn::Fails => Flushed::Failed,
            Turn::Goes => {
                self.flushed = true;
                Flushed::Done
            }
        }
    }
}

ghost use Rattle.std.specs.Prelude.{◌≡◌, ◌≢◌, ◌≤◌, ◌<◌, ◌++◌, [], drop, true, vec_len, IfOk};
ghost use Rattle.curp_base.specs.Words.{first_of};
ghost use Rattle.curp_io.specs.Streaming.{TellsFault};
ghost use Rattle.curp_io.specs.Streams.{FitsBuffer, Takes, one_more};
ghost use Rattle.curp_resp.specs.Feeds.{Fills};

use curp_base::NoMemory;
use curp_io::{Source, Taken};
use std::alloc::Global;
use std::marker::Model;

/// How many bytes are read ahead at most.
const ROOM: usize = 65_536;

/// The bytes read ahead, and how many were passed over before.
#[derive(Drop)]
pub(crate) struct Window {
    buffer: Vec<u8>,
    start: usize,
    end: usize,
    passed: u64,
}

impl Model for Window {
    ghost use Rattle.std.specs.Prelude.{◌≡◌, ◌≤◌, vec_len};
    ghost use Rattle.std.specs.List.{between};
    ghost use Rattle.curp_resp.specs.Ahead.{Ahead};

    ghost Value = { Ahead };

    ghost view = { λ w. record { bytes = between w.start w.end w.buffer.items; passed = w.passed } };

    ghost invariant = { λ w. (vec_len w.buffer ≡ 65536) × (w.start ≤ w.end) × (w.end ≤ 65536) };
}

impl Window {
    pub(crate) fn new(alloc: Global) -> Result<Window, NoMemory>
        ensures { IfOk result (λ window. window ≡ record { bytes = []; passed = 0 }) }
    {
        Ok(Window {
            buffer: vec![in alloc; 0; ROOM]?,
            start: 0,
            end: 0,
            passed: 0,
        })
    }

    /// How many bytes were passed over.
    pub(crate) fn passed(&self) -> u64
        ensures { result ≡ self.now.passed }
    {
        self.passed
    }

    /// The bytes ahead.
    pub(crate) fn bytes(&self) -> &[u8]
        ensures { result.now ≡ self.now.bytes }
    {
        &self.buffer[self.start..self.end]
    }

    /// The first byte ahead.
    pub(crate) fn first(&self) -> Option<u8>
        ensures { result ≡ first_of self.now.bytes }
    {
        self.buffer[self.start..self.end].first().copied()
    }

    /// Passes over the first byte ahead.
    pub(crate) fn pass(&mut self)
        requires { self.old.bytes ≢ [] }
        ensures { self.new ≡ record { bytes = drop 1 self.old.bytes; passed = one_more self.old.passed } }
    {
        self.start += 1;
        self.passed = self.passed.saturating_add(1);
    }

    /// How many bytes are ahead; where none is, as many are read as the source gives at a time.
    pub(crate) fn fill<S: Source>(&mut self, source: &mut S) -> Taken
        ensures len { Fills result self.new.bytes }
        ensures passed { self.new.passed ≡ self.old.passed }
        ensures same { self.old.bytes ≢ [] → (self.new ≡ self.old) × (source.new ≡ source.old) }
        ensures bytes { S.tells source.old ≡ true
            → self.new.bytes ++ S.left source.new ≡ self.old.bytes ++ S.left source.old }
        ensures end { S.tells source.old ≡ true → result ≡ Taken.Bytes 0 → S.left source.new ≡ [] }
        ensures tells { S.tells source.old ≡ true → S.tells source.new ≡ true }
        ensures read_fault { TellsFault (result ≡ Taken.Failed) (S.faults source.old) (S.faults source.new) }
        ensures never_falls { S.faults source.old ≤ S.faults source.new }
    {
        if self.start < self.end {
            return Taken::Bytes(self.end - self.start);
        }
        self.start = 0;
        self.end = 0;
        let taken = take(source, &mut self.buffer);
        if let Taken::Bytes(count) = taken {
            self.end = count;
        }
        taken
    }
}

/// Takes bytes of the source into the buffer, from its prefix on.
fn take<S: Source>(source: &mut S, buffer: &mut Vec<u8>) -> Taken
    ensures len { vec_len buffer.new ≡ vec_len buffer.old }
    ensures fits { FitsBuffer result buffer.new.items }
    ensures bytes { S.tells source.old ≡ true
        → Takes (S.left source.old) (S.left source.new) result buffer.new.items }
    ensures tells { S.tells source.old ≡ true → S.tells source.new ≡ true }
    ensures read_fault { TellsFault (result ≡ Taken.Failed) (S.faults source.old) (S.faults source.new) }
    ensures never_falls { S.faults source.old ≤ S.faults source.new }
{
    source.take(&mut buffer[..])
}

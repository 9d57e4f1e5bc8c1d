ghost use Rattle.std.specs.Prelude.{◌≡◌, ◌≤◌, ◌<◌, ◌+◌, ◌++◌, List, ℕ, [], length, take, drop, true, false, IfSome, None, Some};
ghost use Rattle.curp_io.specs.Streaming.{TellsFault};
ghost use Rattle.curp_parcels.specs.Buffer.{Adds};
ghost use Rattle.curp_parcels.specs.Parcels.{parcel_limit};
ghost use Rattle.curp_parcels.specs.Reading.{FindsFirst, IsAtEnd, IsNextParcel, IsReady, LeavesAll, OfBytes, StandsFirst, StandsNot};
ghost use Rattle.curp_parcels.specs.Reading.{nothing_read, place_behind};
ghost use Rattle.curp_parcels.specs.declared.framing.First.TheVariants as first;

use crate::buffer::{Filled, drop_first, read_behind};
use crate::framing::{First, first_in};
use crate::incoming::arrival_in;
use curp_io::Source;
use curp_journal::Arrived;
use std::alloc::Global;
use std::marker::Model;

/// What stands next in an input. A place is that of the first byte of a length, counted from 0; past the end of a `u64` it
/// is told as that end.
#[derive(Drop)]
pub enum NextParcel {
    /// A parcel.
    Arrived(Arrived),
    /// As many bytes as a length says, which are nothing that may come to a node. They are passed over.
    NoParcel { at: u64 },
    /// No byte was left.
    End,
    /// The input ends behind this place, inside a length or before as many bytes as that says.
    Inside { at: u64 },
    /// A length of more than 4,294,967,287, which no parcel has. What stands behind it can't be found.
    TooLong { at: u64 },
    /// The source failed.
    ReadFault,
    /// There was no memory for the parcel, or for what is read ahead.
    NoMemory,
}

/// Takes the bytes of a source apart into parcels.
///
/// Bytes that were read ahead are kept here, so one source is to be read by one of these. They are at most 65,536 more
/// than the longest parcel has, and the memory for them is kept.
pub struct Parcels {
    alloc: Global,
    buffer: Vec<u8>,
    start: usize,
    passed: u64,
}

impl Drop for Parcels {
    fn drop(self) {
        let Parcels {
            alloc: _,
            buffer: _,
            start: _,
            passed: _,
        } = self;
    }
}

impl Model for Parcels {
    ghost use Rattle.std.specs.Prelude.{◌≤◌, ◌<◌, ◌^◌, drop, length};
    ghost use Rattle.curp_parcels.specs.Reading.{ParcelsRead};

    ghost Value = { ParcelsRead };

    ghost view = { λ p. record { ahead = drop p.start p.buffer.items; passed = p.passed } };

    ghost invariant = { λ p. (p.start ≤ length p.buffer.items) × (p.passed < 2 ^ 64) };
}

impl Parcels {
    /// It takes no memory.
    pub fn new(alloc: Global) -> Parcels
        ensures { result ≡ nothing_read }
    {
        Parcels {
            alloc,
            buffer: Vec::new(alloc),
            start: 0,
            passed: 0,
        }
    }

    /// Gives the next parcel of the bytes read ahead and those that the source has left. It takes what the source gives at
    /// a time, and nothing while a whole parcel is read ahead. After any answer it may be called again: only a parcel, and
    /// one that is none, is passed over.
    pub fn next_parcel<S: Source>(&mut self, source: &mut S) -> NextParcel
        ensures bytes { S.tells source.old ≡ true → IsNextParcel (self.old.ahead ++ S.left source.old) self.old.passed
            result (self.new.ahead ++ S.left source.new) self.new.passed }
        // A parcel that is read ahead is given before anything is read.
        ensures waits { (content rest : List ℕ) → StandsFirst self.old.ahead content rest → source.new ≡ source.old }
        ensures tells { S.tells source.old ≡ true → S.tells source.new ≡ true }
        ensures read_fault { TellsFault (result ≡ NextParcel.ReadFault) (S.faults source.old) (S.faults source.new) }
        ensures never_falls { S.faults source.old ≤ S.faults source.new }
    {
        'fills: loop {
            if let Some(answer) = self.ready_parcel() {
                return answer;
            }
            match self.fill(source) {
                Filled::Failed => return NextParcel::ReadFault,
                Filled::NoMemory => return NextParcel::NoMemory,
                Filled::Bytes(0) => return self.at_end(),
                Filled::Bytes(_) => {}
            }
        }
    }

    /// Reads until a parcel is read ahead whole, or a length that no parcel has: then `ready_parcel` has the answer. Else
    /// it tells why there is none. Nothing is passed over.
    pub fn await_parcel<S: Source>(&mut self, source: &mut S) -> Option<NextParcel>
        ensures ready { result ≡ None → StandsNot self.new.ahead → ⊥ }
        ensures left { S.tells source.old ≡ true → LeavesAll (self.old.ahead ++ S.left source.old) self.old.passed
            (self.new.ahead ++ S.left source.new) self.new.passed }
        ensures why { S.tells source.old ≡ true → IfSome result (λ answer.
            IsNextParcel (self.old.ahead ++ S.left source.old) self.old.passed answer (self.new.ahead ++ S.left source.new)
            self.new.passed) }
        // Where one is read ahead, nothing is read.
        ensures waits { (content rest : List ℕ) → StandsFirst self.old.ahead content rest
            → (result ≡ None) × (source.new ≡ source.old) × (self.new ≡ self.old) }
        ensures tells { S.tells source.old ≡ true → S.tells source.new ≡ true }
        ensures read_fault { TellsFault (result ≡ Some NextParcel.ReadFault) (S.faults source.old) (S.faults source.new) }
        ensures never_falls { S.faults source.old ≤ S.faults source.new }
    {
        'fills: loop {
            if !self.is_part() {
                return None;
            }
            match self.fill(source) {
                Filled::Failed => return Some(NextParcel::ReadFault),
                Filled::NoMemory => return Some(NextParcel::NoMemory),
                Filled::Bytes(0) => return Some(self.at_end()),
                Filled::Bytes(_) => {}
            }
        }
    }

    /// What stands behind the next length, where that parcel is read ahead whole. It stays there: `ready_parcel` takes it.
    pub fn ready_content(&self) -> Option<&[u8]>
        ensures content { IfSome result (λ content. (rest : List ℕ) × StandsFirst self.now.ahead content.now rest) }
        ensures none { result ≡ None → (content rest : List ℕ) → StandsFirst self.now.ahead content rest → ⊥ }
    {
        match first_in(self.bytes()) {
            First::Whole(count) => Some(self.content(count)),
            First::TooLong | First::Part => None,
        }
    }

    /// Whether more bytes are to come before there is an answer.
    fn is_part(&self) -> bool
        ensures yes { result ≡ true → StandsNot self.now.ahead × (length self.now.ahead < parcel_limit + 4) }
        ensures no { result ≡ false → StandsNot self.now.ahead → ⊥ }
    {
        matches!(first_in(self.bytes()), First::Part)
    }

    /// Gives the next parcel where it is read ahead whole. It has no source to ask: `next_parcel` gives what isn't ready.
    pub fn ready_parcel(&mut self) -> Option<NextParcel>
        ensures answer { IsReady self.old result self.new }
        ensures of_bytes { IfSome result OfBytes }
    {
        match first_in(self.bytes()) {
            First::Whole(count) => Some(self.give(count)),
            First::TooLong => Some(NextParcel::TooLong { at: self.passed }),
            First::Part => None,
        }
    }

    /// Gives what stands behind a length that says so many bytes.
    fn give(&mut self, count: usize) -> NextParcel
        requires { FindsFirst self.old.ahead (first.Whole count) }
        ensures answer { IsReady self.old (Some result) self.new }
        ensures of_bytes { OfBytes result }
    {
        let Ok(read) = arrival_in(self.alloc, self.content(count)) else {
            return NextParcel::NoMemory;
        };
        let at = self.passed;
        self.pass(4 + count);
        match read {
            Some(arrived) => NextParcel::Arrived(arrived),
            None => NextParcel::NoParcel { at },
        }
    }

    /// The bytes ahead.
    fn bytes(&self) -> &[u8]
        ensures { result.now ≡ self.now.ahead }
    {
        &self.buffer[self.start..]
    }

    /// So many bytes behind a length.
    fn content(&self, count: usize) -> &[u8]
        requires { 4 + count ≤ length self.now.ahead }
        ensures { result.now ≡ take count (drop 4 self.now.ahead) }
    {
        &self.bytes()[4..4 + count]
    }

    /// Passes over so many bytes.
    fn pass(&mut self, count: usize)
        requires { count ≤ length self.old.ahead }
        ensures { self.new ≡ record { ahead = drop count self.old.ahead; passed = place_behind self.old.passed count } }
    {
        self.start += count;
        self.passed = self.passed.saturating_add(count as u64);
    }

    /// No more bytes are to come.
    fn at_end(&self) -> NextParcel
        ensures { IsAtEnd self.now result }
    {
        if self.bytes().is_empty() {
            NextParcel::End
        } else {
            NextParcel::Inside { at: self.passed }
        }
    }

    /// Gives the room of what was passed over to what comes.
    fn tidy(&mut self)
        ensures { self.new ≡ self.old }
    {
        drop_first(&mut self.buffer, self.start);
        self.start = 0;
    }

    /// Reads more bytes behind those ahead, as many as the source gives at a time.
    fn fill<S: Source>(&mut self, source: &mut S) -> Filled
        ensures adds { Adds self.old.ahead self.new.ahead result }
        ensures passed { self.new.passed ≡ self.old.passed }
        ensures bytes { S.tells source.old ≡ true
            → self.new.ahead ++ S.left source.new ≡ self.old.ahead ++ S.left source.old }
        ensures end { S.tells source.old ≡ true → result ≡ Filled.Bytes 0 → S.left source.new ≡ [] }
        ensures tells { S.tells source.old ≡ true → S.tells source.new ≡ true }
        ensures read_fault { TellsFault (result ≡ Filled.Failed) (S.faults source.old) (S.faults source.new) }
        ensures never_falls { S.faults source.old ≤ S.faults source.new }
    {
        self.tidy();
        read_behind(&mut self.buffer, source)
    }
}

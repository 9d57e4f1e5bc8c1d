// Std's readers and writers, as a source and as a sink.
ghost use Rattle.std.specs.Prelude.{◌≤◌, IfOk};

use crate::lines::{fresh, gives};
use crate::sinks::{flush, write};
use curp_io::{Flushed, NextLine, Source, StdSink, StdSource, Taken, Written};
use std::io;
use std::io::{ErrorKind, Read, Write};

#[test]
fn a_reader_is_a_source(rt: HostRuntime) {
    let mut lines = fresh(&rt, rt.alloc());
    let mut source = StdSource::new(b"one\ntwo".as_slice());
    assert!(rt; gives(&mut lines, &mut source, "one|two|", NextLine::End));
    drop(lines);
}

#[test]
fn a_writer_is_a_sink(rt: HostRuntime) {
    let mut sink = StdSink::new(Vec::new(rt.alloc()));
    assert!(rt; write(&mut sink, b"one") == Written::Whole);
    assert!(rt; flush(&mut sink) == Flushed::Done);
    assert!(rt; sink.into_inner().as_slice() == b"one".as_slice());
}

/// A reader and writer that is interrupted so many times, and then fails for a reason, if it has one. Else each call
/// moves at most 4,096 bytes, until it is used up.
#[derive(Drop)]
struct Rough {
    interruptions: u64,
    failure: Option<ErrorKind>,
    left: usize,
}

impl Rough {
    fn turn(&mut self, len: usize) -> io::Result<usize>
        ensures { IfOk result (λ n. n ≤ len) }
    {
        if self.interruptions > 0 {
            self.interruptions -= 1;
            return Err(io::Error::from(ErrorKind::Interrupted));
        }
        if let Some(kind) = self.failure {
            return Err(io::Error::from(kind));
        }
        let count = self.left.min(len).min(4_096);
        self.left -= count;
        Ok(count)
    }
}

impl Read for Rough {
    fn read(&mut self, buf: &mut [u8]) -> io::Result<usize> {
        self.turn(buf.len())
    }
}

impl Write for Rough {
    fn write(&mut self, buf: &[u8]) -> io::Result<usize> {
        self.turn(buf.len())
    }

    fn flush(&mut self) -> io::Result<()> {
        self.turn(0)?;
        Ok(())
    }
}

const NO_MEMORY: Option<ErrorKind> = Some(ErrorKind::OutOfMemory);

const BROKEN: Option<ErrorKind> = Some(ErrorKind::BrokenPipe);

/// Rough writers, how they take a piece of 5,000 bytes, and how they are flushed then.
static WRITERS: [(u64, Option<ErrorKind>, usize, Written, Flushed); 6] = [
    (0, None, 5_000, Written::Whole, Flushed::Done),
    (999, None, 5_000, Written::Whole, Flushed::Done),
    (1_000, None, 5_000, Written::WriteFault, Flushed::Done),
    (0, None, 4_999, Written::WriteFault, Flushed::Done),
    (0, BROKEN, 5_000, Written::WriteFault, Flushed::Failed),
    (0, NO_MEMORY, 5_000, Written::NoMemory, Flushed::Failed),
];

#[test]
fn rough_writers(rt: HostRuntime) {
    for (interruptions, failure, left, written, flushed) in &WRITERS {
        let mut sink = StdSink::new(Rough {
            interruptions: *interruptions,
            failure: *failure,
            left: *left,
        });
        assert!(rt; write(&mut sink, &[b'x'; 5_000]) == *written);
        assert!(rt; flush(&mut sink) == *flushed);
        drop(sink);
    }
}

fn take<R: Read>(source: &mut StdSource<R>) -> Taken {
    source.take(&mut [0; 9])
}

/// Rough readers, and what two calls take of them.
static READERS: [(u64, Option<ErrorKind>, Taken, Taken); 4] = [
    (0, None, Taken::Bytes(3), Taken::Bytes(0)),
    (999, None, Taken::Bytes(3), Taken::Bytes(0)),
    (1_000, None, Taken::Failed, Taken::Bytes(3)),
    (0, NO_MEMORY, Taken::Failed, Taken::Failed),
];

#[test]
fn rough_readers(rt: HostRuntime) {
    for (interruptions, failure, first, second) in &READERS {
        let mut source = StdSource::new(Rough {
            interruptions: *interruptions,
            failure: *failure,
            left: 3,
        });
        assert!(rt; take(&mut source) == *first);
        assert!(rt; take(&mut source) == *second);
        drop(source);
    }
}

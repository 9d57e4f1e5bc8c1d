// Sinks in memory.
use crate::rows::must_hold;
use curp_io::{Flushed, MemorySink, Sink, SureSink, Written, write_piece};
use std::alloc::Global;
use std::process::Abort;

// ---- what is called, of which the tests know nothing

/// A sink whose calls of these numbers fail.
fn failing(rt: &impl Abort, alloc: Global, calls: &[u64]) -> MemorySink {
    MemorySink::new(alloc, calls).expect(rt, "no memory")
}

pub(crate) fn write<K: Sink>(sink: &mut K, piece: &[u8]) -> Written {
    write_piece(sink, piece)
}

pub(crate) fn flush<K: Sink>(sink: &mut K) -> Flushed {
    sink.flush()
}

fn is_flushed(sink: &MemorySink) -> bool {
    sink.is_flushed()
}

fn has(sink: &MemorySink, bytes: &[u8]) -> bool {
    sink.bytes() == bytes
}

fn has_all(sink: &SureSink, bytes: &[u8]) -> bool {
    sink.bytes() == bytes
}

// ---- tests

/// A call of a sink with its answer.
enum Row {
    Writes(&'static [u8], Written),
    Flushes(Flushed),
    IsFlushed(bool),
    Has(&'static [u8]),
}

fn holds(sink: &mut MemorySink, row: &Row) -> bool {
    match row {
        Row::Writes(piece, written) => write(sink, piece) == *written,
        Row::Flushes(flushed) => flush(sink) == *flushed,
        Row::IsFlushed(flushed) => is_flushed(sink) == *flushed,
        Row::Has(bytes) => has(sink, bytes),
    }
}

/// The second and the fourth call fail.
static FAILING: [Row; 9] = [
    Row::IsFlushed(true),
    Row::Writes(b"one", Written::Whole),
    Row::Writes(b"two", Written::WriteFault),
    Row::Writes(b"two", Written::Whole),
    Row::Flushes(Flushed::Failed),
    Row::IsFlushed(false),
    Row::Flushes(Flushed::Done),
    Row::IsFlushed(true),
    Row::Has(b"onetwo"),
];

#[test]
fn a_memory_sink_fails_at_the_listed_calls(rt: HostRuntime) {
    let mut sink = failing(&rt, rt.alloc(), &[2, 4]);
    for row in &FAILING {
        must_hold(&rt, "a call", holds(&mut sink, row));
    }
    drop(sink);
}

fn sure_takes(alloc: Global, piece: &[u8]) -> bool {
    let mut sink = SureSink::new(alloc);
    let takes = write(&mut sink, piece) == Written::Whole
        && flush(&mut sink) == Flushed::Done
        && has_all(&sink, piece);
    drop(sink);
    takes
}

fn takes(rt: &impl Abort, alloc: Global, piece: &[u8]) -> bool {
    let mut sink = failing(rt, alloc, &[2]);
    let takes = write(&mut sink, piece) == Written::Whole && has(&sink, piece);
    drop(sink);
    takes
}

#[test]
fn sinks_in_memory_take_large_pieces(rt: HostRuntime) {
    let alloc = rt.alloc();
    let piece = "x".repeat(alloc, 70_000).expect(&rt, "no memory");
    must_hold(&rt, "a sure sink", sure_takes(alloc, piece.as_bytes()));
    must_hold(&rt, "another", takes(&rt, alloc, piece.as_bytes()));
}

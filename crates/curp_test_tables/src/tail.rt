//! The entries of a log that aren't synced, and which hashes they touch.

use crate::build::{id, must, right, right_at};
use curp_base::{AscendingPairs, Shared};
use curp_cmd::{Command, Entry, Key, Package, Request, TablePart, Value};
use curp_tail::Tail;
use std::alloc::Global;
use std::process::Abort;

// The hashes of "a", "b" and "c", as the authors of FNV published them.
const A: u64 = 0xaf63dc4c8601ec8c;

const B: u64 = 0xaf63df4c8601f1a5;

const C: u64 = 0xaf63de4c8601eff2;

fn key(rt: &impl Abort, bytes: &[u8]) -> Key {
    must(rt, Key::new(bytes))
}

fn op(rt: &impl Abort, alloc: Global, command: Command) -> Entry {
    let request = Request {
        id: id(1, 1),
        first: 1,
        command,
    };
    Entry::Op {
        request: must(rt, Shared::of(alloc, &request)),
        acknowledge: 1,
    }
}

fn increment(rt: &impl Abort, alloc: Global) -> Entry {
    op(rt, alloc, Command::Incr(key(rt, b"a")))
}

fn put_both(rt: &impl Abort, first: &[u8], second: &[u8]) -> Command {
    let one = must(rt, Value::new(b"1"));
    must(
        rt,
        Command::multi(&[(key(rt, first), one), (key(rt, second), one)]),
    )
}

fn empty(alloc: Global) -> Package {
    Package {
        lo: 7,
        hi: 99,
        pairs: AscendingPairs::new(Vec::new(alloc)),
        table: TablePart::new(alloc),
    }
}

fn take(rt: &impl Abort, alloc: Global) -> Entry {
    Entry::Take {
        migration: 1,
        package: must(rt, Shared::new(alloc, empty(alloc))),
    }
}

fn four_entries(rt: &impl Abort, alloc: Global) -> Vec<Entry> {
    let mut entries = Vec::new(alloc);
    must(rt, entries.push(increment(rt, alloc)));
    must(rt, entries.push(op(rt, alloc, put_both(rt, b"b", b"c"))));
    must(rt, entries.push(take(rt, alloc)));
    must(rt, entries.push(Entry::Expire { client: 1 }));
    entries
}

// The entries stand from that index on.
fn tail_of(rt: &impl Abort, alloc: Global, entries: Vec<Entry>, index: u64) -> Tail {
    assert!(rt; entries.len() <= 1_000 && index <= 1_000);
    let mut tail = Tail::new(alloc);
    must(rt, tail.add(&entries, index));
    drop(entries);
    tail
}

// Which of the hashes each length leaves dirty.
const DIRTY: [(u64, [bool; 7]); 6] = [
    (9, [true, true, true, false, true, true, false]),
    (10, [true, true, true, false, true, true, false]),
    (11, [false, true, true, false, true, true, false]),
    (12, [false, false, false, false, true, true, false]),
    (13, [false, false, false, false, false, false, false]),
    (14, [false, false, false, false, false, false, false]),
];

const HASHES: [u64; 7] = [A, B, C, 6, 7, 99, 100];

#[test]
fn tells_what_is_not_synced(rt: HostRuntime) {
    let mut tail = tail_of(&rt, rt.alloc(), four_entries(&rt, rt.alloc()), 10);
    for (length, dirty) in DIRTY {
        tail.synced(length);
        try_length(&rt, &tail, dirty);
    }
    drop(tail);
}

fn try_dirty(rt: &impl Abort, tail: &Tail, hash: u64, dirty: bool) {
    right_at(rt, tail.is_dirty(hash) == dirty, "dirty", hash);
}

fn try_covers(rt: &impl Abort, tail: &Tail, command: &Command, dirty: bool) {
    right(rt, tail.covers_dirty(command) == dirty, "covers");
}

fn try_length(rt: &impl Abort, tail: &Tail, dirty: [bool; 7]) {
    for (hash, dirty) in HASHES.iter().zip(&dirty) {
        try_dirty(rt, tail, *hash, *dirty);
    }
    try_covers(rt, tail, &Command::Get(key(rt, b"a")), dirty[0]);
    try_covers(rt, tail, &put_both(rt, b"a", b"c"), dirty[2]);
}

fn increments(rt: &impl Abort, alloc: Global) -> Vec<Entry> {
    let mut entries = Vec::new(alloc);
    for _ in 0..1000 {
        must(rt, entries.push(increment(rt, alloc)));
    }
    entries
}

// A thousand entries name one hash: it is dirty until the last of them is synced.
#[test]
fn keeps_a_hash_until_its_last_entry(rt: HostRuntime) {
    let entries = increments(&rt, rt.alloc());
    right(
        &rt,
        entries.len() == 1000,
        "keeps a hash until its last entry",
    );
    let mut tail = tail_of(&rt, rt.alloc(), entries, 0);
    try_last(&rt, &mut tail);
    drop(tail);
}

fn try_last(rt: &impl Abort, tail: &mut Tail) {
    right(rt, tail.reserve(u64::MAX).is_err(), "last");
    tail.synced(999);
    try_dirty(rt, tail, A, true);
    tail.synced(1000);
    try_dirty(rt, tail, A, false);
}

//! Logs whose oldest entries are packed: what a log has, and what a master's log has in which a range left.

use crate::build::{begin, made, must, op, push, put, request, right, right_at, serving, tell};
use crate::packages::package;
use curp_base::{Shared, past};
use curp_cmd::{Entry, NodeId, Package, Request, room};
use curp_log::{Log, TakenPackage};
use curp_master::Master;
use curp_msg::{AppendAnswer, Appended, Body, TakeOut};
use curp_same::{Same, all_same};
use std::alloc::Global;
use std::process::Abort;

// Puts, ranges that come, and clients that go, in turn.
fn entry_at(rt: &impl Abort, alloc: Global, number: u32) -> Entry {
    match number % 3 {
        0 => op(rt, alloc, &put_at(rt, number), 0),
        1 => Entry::Give {
            migration: number,
            package: package(rt, alloc),
        },
        _ => Entry::Expire {
            client: u32::MAX - number,
        },
    }
}

fn put_at(rt: &impl Abort, number: u32) -> Request {
    let command = put(rt, &number.to_be_bytes(), b"v");
    request(10, number.saturating_add(1), command)
}

// Where there is room for an entry, fewer than 128 aren't packed.
fn try_room(rt: &impl Abort, log: &mut Log, entry: &Entry) {
    made(rt, log.reserve(room(entry)));
    let (packed, _) = log.packed();
    right(
        rt,
        packed % 64 == 0 && log.len() < packed.saturating_add(128),
        "room",
    );
}

fn push_next(rt: &impl Abort, alloc: Global, log: &mut Log, number: u32) {
    let entry = entry_at(rt, alloc, number);
    try_room(rt, log, &entry);
    push(rt, log, entry);
}

fn log_of(rt: &impl Abort, alloc: Global, count: u32) -> Log {
    let mut log = begin(rt, alloc, u64::MAX);
    for number in 0..count {
        push_next(rt, alloc, &mut log, number);
    }
    log
}

fn entries(rt: &impl Abort, alloc: Global, count: u32) -> Vec<Entry> {
    let mut entries = Vec::new(alloc);
    for number in 0..count {
        must(rt, entries.push(entry_at(rt, alloc, number)));
    }
    entries
}

// With 10,000 entries 9,920 are packed.
const PLACES: [u64; 8] = [0, 63, 64, 65, 9_920, 9_921, 10_000, 10_001];

// The plain entries from an index on, as far as another.
fn part(entries: &[Entry], start: u64, end: u64) -> &[Entry] {
    let rest = past(entries, start);
    let count = end.saturating_sub(start) as usize;
    rest.get(..count).unwrap_or(rest)
}

fn try_rest(rt: &impl Abort, log: &Log, plain: &[Entry], start: u64) {
    let rest = must(rt, log.suffix(start));
    right_at(rt, all_same(&rest, past(plain, start)), "rest", start);
    drop(rest);
}

fn try_part(rt: &impl Abort, log: &Log, plain: &[Entry], start: u64, end: u64) {
    let found = must(rt, log.between(start, end));
    right_at(rt, all_same(&found, part(plain, start, end)), "part", start);
    drop(found);
}

fn try_parts(rt: &impl Abort, log: &Log, plain: &[Entry]) {
    for start in PLACES {
        try_rest(rt, log, plain, start);
        try_part(rt, log, plain, start, 65);
        try_part(rt, log, plain, start, 9_921);
    }
}

fn packed_log(rt: &impl Abort, alloc: Global) -> Log {
    let mut log = log_of(rt, alloc, 10_000);
    must(rt, log.reserve(1));
    right(rt, log.packed().0 == 9_920, "packed log");
    log
}

#[test]
fn a_log_gives_each_part(rt: HostRuntime) {
    let plain = entries(&rt, rt.alloc(), 10_000);
    let log = packed_log(&rt, rt.alloc());
    try_parts(&rt, &log, &plain);
    drop(log);
    drop(plain);
}

fn request_of(entry: &Entry) -> Option<Request> {
    match entry {
        Entry::Op { request, .. } => Some(**request),
        _ => None,
    }
}

fn is_copied(rt: &impl Abort, log: &Log, index: u64, entry: &Entry) -> bool {
    match must(rt, log.entry(index)) {
        Some(copy) => copy.same(entry),
        None => false,
    }
}

fn try_told(rt: &impl Abort, log: &Log, index: u64, entry: &Entry) {
    right_at(rt, is_copied(rt, log, index, entry), "told (1)", index);
    right_at(
        rt,
        log.request(index) == request_of(entry),
        "told (2)",
        index,
    );
}

fn try_all_told(rt: &impl Abort, log: &Log, plain: &[Entry]) {
    for (index, entry) in plain.iter().enumerate() {
        if index < 200 || index >= 9_850 {
            try_told(rt, log, index as u64, entry);
        }
    }
    right(rt, log.request(10_000).is_none(), "all told");
}

#[test]
fn a_log_gives_the_oldest_and_the_newest_entries(rt: HostRuntime) {
    let plain = entries(&rt, rt.alloc(), 10_000);
    let log = log_of(&rt, rt.alloc(), 10_000);
    try_all_told(&rt, &log, &plain);
    drop(log);
    drop(plain);
}

// A log of 9,849 entries, from which all hashes leave; a backup has all of them, and then 150 clients go.
fn left(rt: &impl Abort, alloc: Global) -> Master {
    let mut master = serving(rt, alloc, log_of(rt, alloc, 9_849));
    leave(rt, &mut master);
    master
}

fn leave(rt: &impl Abort, master: &mut Master) {
    let take = TakeOut {
        migration: 1,
        lo: 0,
        hi: u64::MAX,
    };
    tell(rt, master, NodeId::manager(), Body::TakeOut(take));
    let stored = Body::Appended(stored(master.round()));
    tell(rt, master, NodeId::backup(1), stored);
    for client in 20_000..20_150 {
        tell(rt, master, NodeId::manager(), Body::ExpireClient { client });
    }
}

fn stored(round: u64) -> Appended {
    Appended {
        epoch: 1,
        round,
        answer: AppendAnswer::Stored { length: 9_850 },
    }
}

fn are_expiries(entries: &[Entry]) -> bool {
    for (number, entry) in entries.iter().enumerate() {
        match entry {
            Entry::Expire { client } if *client as usize == number.saturating_add(20_000) => {}
            _ => return false,
        }
    }
    entries.len() == 150
}

fn try_expiries(rt: &impl Abort, log: &Log) {
    let rest = must(rt, log.suffix(9_850));
    right(rt, are_expiries(&rest), "expiries");
    drop(rest);
}

fn try_oldest(rt: &impl Abort, alloc: Global, log: &Log) {
    let plain = entries(rt, alloc, 9_849);
    try_part(rt, log, &plain, 0, 9_849);
    drop(plain);
}

// The package of the range has 3,283 puts and two keys that came, and is what the log tells.
fn is_taken(entry: &Entry, told: Option<TakenPackage>) -> bool {
    match (entry, told) {
        (
            Entry::Take {
                migration: 1,
                package,
            },
            Some(taken),
        ) => package.pairs.len() == 3_285 && is_told(package, taken),
        _ => false,
    }
}

fn is_told(package: &Shared<Package>, taken: TakenPackage) -> bool {
    taken.migration == 1 && taken.index == 9_849 && taken.package.same(package)
}

fn try_taken(rt: &impl Abort, log: &Log) {
    match must(rt, log.entry(9_849)) {
        Some(entry) => right(rt, is_taken(&entry, log.package()), "taken"),
        None => rt.panic("no range left"),
    }
}

// A range that leaves is packed too, and its package is told.
#[test]
fn a_log_has_all_four_kinds(rt: HostRuntime) {
    let master = left(&rt, rt.alloc());
    try_four_kinds(&rt, rt.alloc(), master.log());
    drop(master);
}

fn try_four_kinds(rt: &impl Abort, alloc: Global, log: &Log) {
    right(rt, log.packed().0 == 9_920, "four kinds");
    try_oldest(rt, alloc, log);
    try_expiries(rt, log);
    try_taken(rt, log);
}

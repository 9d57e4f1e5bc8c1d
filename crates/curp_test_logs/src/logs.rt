//! Logs: what was done, what stands, and ranges that leave and come.

use crate::build::{
    A, begin, held, id, key, must, op, push, put, request, right, right_at, serving, tell, value,
};
use curp_base::{Shared, past};
use curp_cmd::{Answer, Command, Entry, Key, NodeId, Package, Request, RequestId, Store, Value};
use curp_log::{LatestGive, Log};
use curp_master::Master;
use curp_model::Check;
use curp_msg::{Body, TakeOut};
use std::alloc::Global;
use std::process::Abort;

fn pack(rt: &impl Abort, log: &Log, lo: u64, hi: u64) -> Package {
    assert!(rt; lo <= hi);
    must(rt, log.pack(lo, hi))
}

// A master's log, once a range has left it.
fn after_take(rt: &impl Abort, alloc: Global, log: Log, take: TakeOut) -> Master {
    let mut master = serving(rt, alloc, log);
    tell(rt, &mut master, NodeId::manager(), Body::TakeOut(take));
    master
}

fn push_give(rt: &impl Abort, log: &mut Log, migration: u32, package: Shared<Package>) {
    push(rt, log, Entry::Give { migration, package });
}

fn try_op(
    rt: &impl Abort,
    alloc: Global,
    log: &mut Log,
    request: Request,
    (acknowledge, index): (u32, u64),
) {
    let found = push(rt, log, op(rt, alloc, request, acknowledge));
    right_at(rt, found == index, "op", found);
}

// Three Ops, of which the second lets go of the answer to the first.
fn three_ops(rt: &impl Abort, alloc: Global) -> Log {
    let (a, one) = (key(rt, b"a"), value(rt, b"1"));
    let mut log = begin(rt, alloc, u64::MAX);
    for (request, row) in [
        (request(1, 1, Command::Put(a, one)), (0, 0)),
        (request(1, 2, Command::Delete(a)), (2, 1)),
        (request(2, 1, Command::Incr(a)), (0, 2)),
    ] {
        try_op(rt, alloc, &mut log, request, row);
    }
    log
}

// A client, the number of its request, and what is known of it.
type Row = (u32, u32, Check);

fn try_check(rt: &impl Abort, log: &Log, id: RequestId, known: Check) {
    right_at(rt, log.check(&id) == known, "check", u64::from(id.seq));
}

fn try_checks(rt: &impl Abort, log: &Log, rows: &[Row]) {
    for (client, seq, known) in rows {
        try_check(rt, log, id(*client, *seq), *known);
    }
}

const DONE: [Row; 5] = [
    (1, 1, Check::Stale { first: 2 }),
    (
        1,
        2,
        Check::Known {
            answer: Answer::Removed(true),
            index: 1,
        },
    ),
    (1, 3, Check::New),
    (
        2,
        1,
        Check::Known {
            answer: Answer::Number(1),
            index: 2,
        },
    ),
    (3, 1, Check::New),
];

fn number(number: u64) -> Value {
    Value::from_number(number)
}

#[test]
fn tells_what_was_done(rt: HostRuntime) {
    let log = three_ops(&rt, rt.alloc());
    try_checks(&rt, &log, &DONE);
    try_key(&rt, &log, b"a", Some(number(1)));
    drop(log);
}

fn try_store(rt: &impl Abort, store: &Store, key: &Key, value: Option<Value>) {
    right(rt, store.get(key) == value, "store");
}

fn try_owns(rt: &impl Abort, log: &Log, command: &Command, owned: bool) {
    right(rt, log.owns(command) == owned, "owns");
}

// The store has that value of the key, and the log owns the key where there is one.
fn try_key(rt: &impl Abort, log: &Log, name: &[u8], value: Option<Value>) {
    let key = key(rt, name);
    try_store(rt, log.store(), &key, value);
    try_owns(rt, log, &Command::Get(key), value.is_some());
}

fn has_entry(rt: &impl Abort, log: &Log, index: u64) -> bool {
    must(rt, log.entry(index)).is_some()
}

const ANSWERS: [(u64, Option<Answer>); 3] = [
    (0, Some(Answer::Done)),
    (2, Some(Answer::Number(1))),
    (3, None),
];

fn try_answer(rt: &impl Abort, log: &Log, index: u64, answer: Option<Answer>) {
    right_at(rt, log.answer(index) == answer, "answer", index);
}

fn try_answers(rt: &impl Abort, log: &Log) {
    for (index, answer) in ANSWERS {
        try_answer(rt, log, index, answer);
        right_at(
            rt,
            has_entry(rt, log, index) == answer.is_some(),
            "answers",
            index,
        );
    }
}

fn try_request(rt: &impl Abort, log: &Log, index: u64, request: Option<Request>) {
    right(rt, log.request(index) == request, "request");
}

#[test]
fn gives_what_stands(rt: HostRuntime) {
    let log = three_ops(&rt, rt.alloc());
    try_answers(&rt, &log);
    let last = request(2, 1, Command::Incr(key(&rt, b"a")));
    try_request(&rt, &log, 2, Some(last));
    try_request(&rt, &log, 3, None);
    drop(log);
}

fn suffix_len(rt: &impl Abort, log: &Log, start: u64) -> usize {
    let rest = must(rt, log.suffix(start));
    let len = rest.len();
    drop(rest);
    len
}

#[test]
fn copies_what_stands_from_there_on(rt: HostRuntime) {
    let log = three_ops(&rt, rt.alloc());
    for (start, count) in [(0, 3), (2, 1), (3, 0), (4, 0)] {
        right_at(
            &rt,
            suffix_len(&rt, &log, start) == count,
            "copies what stands from there on",
            start,
        );
    }
    try_len(&rt, &log, 3);
    drop(log);
}

fn try_len(rt: &impl Abort, log: &Log, len: u64) {
    right(rt, log.len() == len, "len");
}

// Puts "a" and "b".
fn two_ops(rt: &impl Abort, alloc: Global) -> Log {
    let mut log = begin(rt, alloc, u64::MAX);
    try_op(
        rt,
        alloc,
        &mut log,
        request(1, 1, put(rt, b"a", b"1")),
        (0, 0),
    );
    try_op(
        rt,
        alloc,
        &mut log,
        request(1, 2, put(rt, b"b", b"2")),
        (0, 1),
    );
    log
}

// The same, and then the range leaves that "a" alone lies in.
fn a_taken(rt: &impl Abort, alloc: Global) -> Master {
    let take = TakeOut {
        migration: 7,
        lo: A,
        hi: A,
    };
    after_take(rt, alloc, two_ops(rt, alloc), take)
}

// What that range has.
fn packed_a(rt: &impl Abort, alloc: Global) -> Package {
    let log = two_ops(rt, alloc);
    let package = pack(rt, &log, A, A);
    drop(log);
    package
}

// A log with other hashes, to which that range comes.
fn a_given(rt: &impl Abort, alloc: Global) -> Log {
    let mut log = begin(rt, alloc, 9);
    push(rt, &mut log, Entry::Expire { client: 9 });
    push_give(rt, &mut log, 7, held(rt, alloc, packed_a(rt, alloc)));
    log
}

// Where the last Take stands, with its migration, and how many pairs and records its package has.
fn last_take(log: &Log) -> Option<(u32, u64, usize, usize)> {
    let taken = log.package()?;
    let part = taken.package;
    Some((
        taken.migration,
        taken.index,
        part.pairs.len(),
        part.table.records.len(),
    ))
}

fn try_spans(rt: &impl Abort, log: &Log, spans: &[(u64, u64)]) {
    right(rt, log.ranges().spans() == spans, "spans");
}

#[test]
fn a_range_leaves_with_its_pairs(rt: HostRuntime) {
    let master = a_taken(&rt, rt.alloc());
    try_left(&rt, master.log());
    drop(master);
}

fn try_left(rt: &impl Abort, log: &Log) {
    try_key(rt, log, b"a", None);
    try_key(rt, log, b"b", Some(value(rt, b"2")));
    try_spans(rt, log, &[(0, A - 1), (A + 1, u64::MAX)]);
    right(rt, last_take(log) == Some((7, 2, 1, 2)), "left");
}

#[test]
fn a_range_comes_with_its_pairs(rt: HostRuntime) {
    let log = a_given(&rt, rt.alloc());
    try_come(&rt, &log);
    drop(log);
}

fn try_come(rt: &impl Abort, log: &Log) {
    try_key(rt, log, b"a", Some(value(rt, b"1")));
    try_key(rt, log, b"b", None);
    try_spans(rt, log, &[(0, 9), (A, A)]);
    try_given_at(rt, log, 7, 1);
}

fn try_given_at(rt: &impl Abort, log: &Log, migration: u32, index: u64) {
    right(
        rt,
        log.given() == Some(LatestGive { migration, index }),
        "given at",
    );
}

#[test]
fn a_package_has_its_pairs_and_all_records(rt: HostRuntime) {
    let part = packed_a(&rt, rt.alloc());
    try_package(&rt, &part);
    drop(part);
}

fn are_pairs(found: &[(Key, Value)], expected: &[(Key, Value)]) -> bool {
    found == expected
}

fn are_records(found: &[(RequestId, Answer)], expected: &[(RequestId, Answer)]) -> bool {
    found == expected
}

fn try_package(rt: &impl Abort, part: &Package) {
    let pairs = [(key(rt, b"a"), value(rt, b"1"))];
    right(rt, are_pairs(part.pairs.as_slice(), &pairs), "package (1)");
    let records = [(id(1, 1), Answer::Done), (id(1, 2), Answer::Done)];
    right(
        rt,
        are_records(part.table.records.as_slice(), &records),
        "package (2)",
    );
}

// The records come with the range, and stand at the Give.
const DONE_ELSEWHERE: [Row; 3] = [
    (
        1,
        2,
        Check::Known {
            answer: Answer::Done,
            index: 1,
        },
    ),
    (1, 3, Check::New),
    (9, 1, Check::Expired),
];

#[test]
fn what_was_done_elsewhere_is_known(rt: HostRuntime) {
    let log = a_given(&rt, rt.alloc());
    try_checks(&rt, &log, &DONE_ELSEWHERE);
    right(
        &rt,
        last_take(&log) == None,
        "what was done elsewhere is known",
    );
    drop(log);
}

const ONE_GONE: [Row; 3] = [
    (1, 2, Check::Expired),
    (1, 9, Check::Expired),
    (
        2,
        1,
        Check::Known {
            answer: Answer::Number(1),
            index: 2,
        },
    ),
];

#[test]
fn a_client_goes_with_its_records(rt: HostRuntime) {
    let mut log = three_ops(&rt, rt.alloc());
    push(&rt, &mut log, Entry::Expire { client: 1 });
    try_checks(&rt, &log, &ONE_GONE);
    try_answer(&rt, &log, 1, Some(Answer::Removed(true)));
    drop(log);
}

fn is_one(rt: &impl Abort, alloc: Global, (lo, hi): (u64, u64), entries: &[Entry]) -> bool {
    assert!(rt; lo <= hi);
    must(rt, Log::from_entries(alloc, lo, hi, entries)).is_some()
}

#[test]
fn a_package_is_what_the_range_has(rt: HostRuntime) {
    let master = a_taken(&rt, rt.alloc());
    let entries = must(&rt, master.log().suffix(0));
    drop(master);
    try_taken(&rt, rt.alloc(), &entries);
    drop(entries);
}

fn try_taken(rt: &impl Abort, alloc: Global, entries: &[Entry]) {
    right(rt, is_one(rt, alloc, (0, u64::MAX), entries), "taken (1)");
    right(
        rt,
        !is_one(rt, alloc, (0, u64::MAX), past(entries, 1)),
        "taken (2)",
    );
    right(
        rt,
        !is_one(rt, alloc, (0, A - 1), past(entries, 2)),
        "taken (3)",
    );
}

// 29,998 Ops of six clients, each of a key of its own; then all hashes leave, and a client goes.
fn thirty_thousand(rt: &impl Abort, alloc: Global) -> Master {
    let take = TakeOut {
        migration: 1,
        lo: 0,
        hi: u64::MAX,
    };
    let mut master = after_take(rt, alloc, many_ops(rt, alloc), take);
    let expire = Body::ExpireClient { client: 3 };
    tell(rt, &mut master, NodeId::manager(), expire);
    master
}

fn nth_op(rt: &impl Abort, alloc: Global, seq: u32) -> Entry {
    let [a, b, c, d] = seq.to_be_bytes();
    let put = put(rt, &[a, b, c, d, 0, 0, 0, 0], &[7; 128]);
    let client = (seq / 5_000).wrapping_add(1);
    op(rt, alloc, request(client, seq, put), 0)
}

fn many_ops(rt: &impl Abort, alloc: Global) -> Log {
    let mut log = begin(rt, alloc, u64::MAX);
    for seq in 1..=29_998u32 {
        push(rt, &mut log, nth_op(rt, alloc, seq));
    }
    log
}

// A log to which the last package comes.
fn given_last(rt: &impl Abort, alloc: Global, log: &Log) -> Log {
    let mut other = begin(rt, alloc, 0);
    match log.package() {
        Some(taken) => push_give(rt, &mut other, 1, must(rt, taken.package.share())),
        None => rt.panic("no range left"),
    }
    other
}

const LAST: RequestId = RequestId {
    client: 6,
    seq: 29_998,
};

fn is_known_at(log: &Log, index: u64) -> bool {
    log.check(&LAST)
        == Check::Known {
            answer: Answer::Done,
            index,
        }
}

#[test]
fn holds_thirty_thousand_entries(rt: HostRuntime) {
    let master = thirty_thousand(&rt, rt.alloc());
    try_many(&rt, rt.alloc(), master.log());
    let other = given_last(&rt, rt.alloc(), master.log());
    drop(master);
    try_given(&rt, &other);
    drop(other);
}

fn try_many(rt: &impl Abort, alloc: Global, log: &Log) {
    try_len(rt, log, 30_000);
    let whole = Some((1, 29_998, 29_998, 29_998));
    right(rt, last_take(log) == whole, "many (1)");
    right(rt, is_known_at(log, 29_997), "many (2)");
    let entries = must(rt, log.suffix(0));
    right(rt, entries.len() == 30_000, "many (3)");
    right(rt, is_one(rt, alloc, (0, u64::MAX), &entries), "many (4)");
    drop(entries);
}

fn try_given(rt: &impl Abort, other: &Log) {
    right(rt, is_known_at(other, 0), "given (1)");
    let whole = pack(rt, other, 0, u64::MAX);
    right(rt, whole.pairs.len() == 29_998, "given (2)");
    drop(whole);
}

fn get_of(rt: &impl Abort, alloc: Global, seq: u32) -> Entry {
    op(rt, alloc, request(1, seq, Command::Get(key(rt, b"a"))), 0)
}

// Whether a log of those hashes has two Gets of "a", of these ids.
fn has_gets(rt: &impl Abort, alloc: Global, hashes: (u64, u64), seqs: [u32; 2]) -> bool {
    let mut entries = Vec::new(alloc);
    for seq in seqs {
        must(rt, entries.push(get_of(rt, alloc, seq)));
    }
    let is = is_one(rt, alloc, hashes, &entries);
    drop(entries);
    is
}

const HASHES: [((u64, u64), bool); 4] = [
    ((0, u64::MAX), true),
    ((A, A), true),
    ((0, A - 1), false),
    ((A + 1, u64::MAX), false),
];

#[test]
fn a_log_has_each_id_once_and_its_own_hashes(rt: HostRuntime) {
    for (at, (hashes, is)) in HASHES.iter().enumerate() {
        right_at(
            &rt,
            has_gets(&rt, rt.alloc(), *hashes, [1, 2]) == *is,
            "a log has each id once and its own hashes (1)",
            at as u64,
        );
        right_at(
            &rt,
            !has_gets(&rt, rt.alloc(), *hashes, [1, 1]),
            "a log has each id once and its own hashes (2)",
            at as u64,
        );
    }
}

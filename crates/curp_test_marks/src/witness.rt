//! A witness: which requests it holds, in which order it tells them, and which it suspects.

use crate::build::{key, must, request, right, right_at, shared, value};
use curp_base::{Failed, Shared};
use curp_cmd::{Command, Hashes, Request, RequestId};
use curp_model::Mode;
use curp_msg::Reason;
use curp_slots::{BadShape, NotIdle, RecordAnswer, Stranger, Witness};
use std::alloc::Global;
use std::process::Abort;

const ACCEPTED: RecordAnswer = RecordAnswer::Accepted;

const FULL: RecordAnswer = RecordAnswer::Rejected(Reason::SetFull { set: 0 });

const IDLE: RecordAnswer = RecordAnswer::Rejected(Reason::Idle);

const FROZEN: RecordAnswer = RecordAnswer::Rejected(Reason::Frozen);

fn conflict(held: RequestId) -> RecordAnswer {
    RecordAnswer::Rejected(Reason::Conflict { held })
}

fn idle(rt: &impl Abort, alloc: Global, sets: u32, ways: u32) -> Witness {
    must(rt, Witness::new(alloc, sets, ways))
}

fn try_start(rt: &impl Abort, witness: &mut Witness, epoch: u32, answer: Result<(), NotIdle>) {
    let answer = answer.map_err(Failed::Because);
    right(rt, witness.start(1, epoch) == answer, "start");
}

fn not_idle(mode: Mode) -> NotIdle {
    NotIdle { mode }
}

fn started(rt: &impl Abort, alloc: Global, sets: u32, ways: u32) -> Witness {
    let mut witness = idle(rt, alloc, sets, ways);
    try_start(rt, &mut witness, 1, Ok(()));
    witness
}

// A put of that client's request.
fn put_by(rt: &impl Abort, client: u32, seq: u32, name: &[u8], bytes: &[u8]) -> Request {
    request(client, seq, Command::Put(key(rt, name), value(rt, bytes)))
}

fn hold(
    rt: &impl Abort,
    alloc: Global,
    witness: &mut Witness,
    epoch: u32,
    request: &Request,
) -> RecordAnswer {
    witness.hold(epoch, shared(rt, alloc, request))
}

fn try_hold(
    rt: &impl Abort,
    alloc: Global,
    witness: &mut Witness,
    epoch: u32,
    request: &Request,
    answer: RecordAnswer,
) {
    right(
        rt,
        hold(rt, alloc, witness, epoch, request) == answer,
        "hold",
    );
}

fn try_probe(rt: &impl Abort, witness: &Witness, epoch: u32, live: bool) {
    right_at(rt, witness.probe(epoch) == live, "probe", u64::from(epoch));
}

fn try_holds(rt: &impl Abort, witness: &Witness, id: &RequestId) {
    right(rt, witness.holds(id), "holds");
}

// Whether these are the requests.
fn are(found: &[Shared<Request>], requests: &[Request]) -> bool {
    for (at, request) in requests.iter().enumerate() {
        match found.get(at) {
            Some(other) if **other == *request => (),
            _ => return false,
        }
    }
    found.len() == requests.len()
}

fn try_frozen(rt: &impl Abort, witness: &mut Witness, requests: &[Request]) {
    let found = must(rt, witness.freeze());
    right(rt, are(&found, requests), "frozen");
    drop(found);
}

fn shape_error(alloc: Global, sets: u32, ways: u32) -> Option<BadShape> {
    Witness::new(alloc, sets, ways).err()
}

#[test]
fn has_the_shapes_that_are_allowed(rt: HostRuntime) {
    for (sets, ways) in [(0, 1), (1, 0), (1025, 1), (1, 17)] {
        let refused = shape_error(rt.alloc(), sets, ways);
        right_at(
            &rt,
            refused == Some(BadShape),
            "has the shapes that are allowed (1)",
            u64::from(sets),
        );
    }
    for (sets, ways) in [(1024, 16), (1, 1)] {
        let refused = shape_error(rt.alloc(), sets, ways);
        right_at(
            &rt,
            refused == None,
            "has the shapes that are allowed (2)",
            u64::from(sets),
        );
    }
}

fn shows(rt: &impl Abort, alloc: Global, failed: &Failed<BadShape>, text: &str) {
    let written = must(rt, format!(in alloc; "{failed}"));
    right(rt, written.as_str() == text, text);
    drop(written);
}

#[test]
fn failures_have_texts(rt: HostRuntime) {
    shows(&rt, rt.alloc(), &Failed::NoMemory, "out of memory");
    shows(
        &rt,
        rt.alloc(),
        &Failed::Because(BadShape),
        "a witness has 1 to 1024 sets of 1 to 16 ways",
    );
}

#[test]
fn answers_each_call(rt: HostRuntime) {
    let mut witness = idle(&rt, rt.alloc(), 1, 1);
    let held = put_by(&rt, 1, 1, b"a", b"1");
    try_idle(&rt, rt.alloc(), &mut witness, &held);
    try_calls(&rt, rt.alloc(), &mut witness, &held);
    try_others(&rt, rt.alloc(), &mut witness, &held);
    try_freezes(&rt, rt.alloc(), &mut witness, &held);
    drop(witness);
}

fn try_idle(rt: &impl Abort, alloc: Global, witness: &mut Witness, held: &Request) {
    try_hold(rt, alloc, witness, 2, held, IDLE);
    try_probe(rt, witness, 2, false);
    try_start(rt, witness, 2, Ok(()));
    try_probe(rt, witness, 2, true);
    try_probe(rt, witness, 1, false);
    try_start(rt, witness, 2, Err(not_idle(Mode::Normal)));
}

// What a witness with one slot answers that was started at epoch 2.
fn try_calls(rt: &impl Abort, alloc: Global, witness: &mut Witness, held: &Request) {
    let stranger = RecordAnswer::Rejected(Reason::Stranger { epoch: 2 });
    try_hold(rt, alloc, witness, 1, held, stranger);
    try_hold(rt, alloc, witness, 2, held, ACCEPTED);
    try_hold(rt, alloc, witness, 2, held, ACCEPTED);
}

fn try_others(rt: &impl Abort, alloc: Global, witness: &mut Witness, held: &Request) {
    let other = put_by(rt, 2, 1, b"a", b"2");
    try_hold(rt, alloc, witness, 2, &other, conflict(held.id));
    let other = put_by(rt, 2, 1, b"b", b"2");
    try_hold(rt, alloc, witness, 2, &other, FULL);
    let again = put_by(rt, 1, 1, b"b", b"2");
    try_hold(rt, alloc, witness, 2, &again, ACCEPTED);
    right(rt, witness.epoch() == Some(2), "others");
}

fn try_freezes(rt: &impl Abort, alloc: Global, witness: &mut Witness, held: &Request) {
    try_frozen(rt, witness, &[*held]);
    try_frozen(rt, witness, &[*held]);
    try_hold(rt, alloc, witness, 2, held, FROZEN);
    try_probe(rt, witness, 2, false);
    try_holds(rt, witness, &held.id);
    right(rt, witness.mode() == Mode::Frozen, "freezes");
}

#[test]
fn stays_frozen_where_it_was_never_started(rt: HostRuntime) {
    let mut witness = idle(&rt, rt.alloc(), 1, 1);
    try_frozen(&rt, &mut witness, &[]);
    try_start(&rt, &mut witness, 2, Err(not_idle(Mode::Frozen)));
    let refused = put_by(&rt, 1, 1, b"a", b"1");
    try_hold(&rt, rt.alloc(), &mut witness, 2, &refused, FROZEN);
    try_stranger(&rt, &mut witness, 2, &[], None);
    right(&rt, !witness.holds(&refused.id), "stays frozen (1)");
    right(&rt, witness.mode() == Mode::Frozen, "stays frozen (2)");
    drop(witness);
}

// A multi-put of four keys.
fn put_all(rt: &impl Abort) -> Request {
    let one = value(rt, b"1");
    let pairs = [
        (key(rt, b"a"), one),
        (key(rt, b"b"), one),
        (key(rt, b"c"), one),
        (key(rt, b"d"), one),
    ];
    request(1, 1, must(rt, Command::multi(&pairs)))
}

#[test]
fn takes_a_slot_for_each_hash(rt: HostRuntime) {
    let mut witness = started(&rt, rt.alloc(), 1, 4);
    try_hold(&rt, rt.alloc(), &mut witness, 1, &put_all(&rt), ACCEPTED);
    let fifth = put_by(&rt, 1, 2, b"e", b"1");
    try_hold(&rt, rt.alloc(), &mut witness, 1, &fifth, FULL);
    drop(witness);
}

fn least_hash(request: &Request) -> u64 {
    let hashes = Hashes::of(&request.command);
    let mut least = u64::MAX;
    for hash in hashes.as_slice() {
        least = least.min(*hash);
    }
    least
}

fn in_hash_order(requests: &[Shared<Request>]) -> bool {
    for at in 1..requests.len() {
        if least_hash(&requests[at - 1]) >= least_hash(&requests[at]) {
            return false;
        }
    }
    true
}

fn hold_many(rt: &impl Abort, alloc: Global, witness: &mut Witness) {
    for number in 1..=20000_u32 {
        let request = put_by(rt, number, 1, &number.to_be_bytes(), b"1");
        let _answer = hold(rt, alloc, witness, 1, &request);
    }
}

// The hashes of so many keys fill each of the largest number of sets.
#[test]
fn holds_as_many_requests_as_it_has_slots(rt: HostRuntime) {
    let mut witness = started(&rt, rt.alloc(), 1024, 16);
    hold_many(&rt, rt.alloc(), &mut witness);
    try_full(&rt, &mut witness);
    drop(witness);
}

fn try_full(rt: &impl Abort, witness: &mut Witness) {
    let frozen = must(rt, witness.freeze());
    right(rt, frozen.len() == 1024 * 16, "full (1)");
    right(rt, in_hash_order(&frozen), "full (2)");
    drop(frozen);
}

// The least hashes are those of "a", "c" and "b", in this order, as the authors of FNV published them.
#[test]
fn gives_requests_by_their_least_hashes(rt: HostRuntime) {
    let mut witness = started(&rt, rt.alloc(), 1, 4);
    let held = [
        put_by(&rt, 1, 1, b"b", b"1"),
        put_by(&rt, 1, 2, b"c", b"1"),
        put_by(&rt, 1, 3, b"a", b"1"),
    ];
    for request in &held {
        try_hold(&rt, rt.alloc(), &mut witness, 1, request, ACCEPTED);
    }
    let sorted = [
        put_by(&rt, 1, 3, b"a", b"1"),
        put_by(&rt, 1, 2, b"c", b"1"),
        put_by(&rt, 1, 1, b"b", b"1"),
    ];
    try_frozen(&rt, &mut witness, &sorted);
    drop(witness);
}

// A collection of that epoch is turned away, and so is told the epoch of the witness.
fn try_stranger(
    rt: &impl Abort,
    witness: &mut Witness,
    epoch: u32,
    dropped: &[RequestId],
    own: Option<u32>,
) {
    let refused = witness.gc(epoch, dropped).err();
    right(
        rt,
        refused == Some(Failed::Because(Stranger { epoch: own })),
        "stranger",
    );
}

// A collection of epoch 2.
fn try_gc(rt: &impl Abort, witness: &mut Witness, dropped: &[RequestId], suspects: &[Request]) {
    let found = must(rt, witness.gc(2, dropped));
    right(rt, are(&found, suspects), "gc");
    drop(found);
}

fn try_conflict(
    rt: &impl Abort,
    alloc: Global,
    witness: &mut Witness,
    name: &[u8],
    held: RequestId,
) {
    let other = put_by(rt, 3, 1, name, b"1");
    try_hold(rt, alloc, witness, 2, &other, conflict(held));
}

// Both arrive in the order of `b` and `a`, behind a collection that is turned away and before another.
fn try_two(rt: &impl Abort, alloc: Global, witness: &mut Witness, b: &Request, a: &Request) {
    try_stranger(rt, witness, 2, &[], None);
    try_start(rt, witness, 2, Ok(()));
    try_hold(rt, alloc, witness, 2, b, ACCEPTED);
    try_hold(rt, alloc, witness, 2, a, ACCEPTED);
    try_stranger(rt, witness, 1, &[a.id], Some(2));
}

// Both survive three collections, and are then in the way.
fn try_survive(rt: &impl Abort, alloc: Global, witness: &mut Witness, b: &Request, a: &Request) {
    for _ in 0..3 {
        try_gc(rt, witness, &[], &[]);
    }
    try_conflict(rt, alloc, witness, b"a", a.id);
    try_conflict(rt, alloc, witness, b"b", b.id);
}

// Suspects are told by their ids, 1.1 before 2.1.
fn try_suspects(rt: &impl Abort, alloc: Global, witness: &mut Witness, b: &Request, a: &Request) {
    try_gc(rt, witness, &[], &[*a, *b]);
    try_gc(rt, witness, &[a.id, a.id], &[*b]);
    let again = put_by(rt, 3, 1, b"a", b"1");
    try_hold(rt, alloc, witness, 2, &again, ACCEPTED);
    try_frozen(rt, witness, &[again, *b]);
    try_gc(rt, witness, &[b.id], &[]);
    try_holds(rt, witness, &b.id);
}

#[test]
fn drops_what_is_listed_and_tells_suspects(rt: HostRuntime) {
    let b = put_by(&rt, 2, 1, b"b", b"1");
    let a = put_by(&rt, 1, 1, b"a", b"1");
    let mut witness = idle(&rt, rt.alloc(), 1, 2);
    try_two(&rt, rt.alloc(), &mut witness, &b, &a);
    try_survive(&rt, rt.alloc(), &mut witness, &b, &a);
    try_suspects(&rt, rt.alloc(), &mut witness, &b, &a);
    drop(witness);
}

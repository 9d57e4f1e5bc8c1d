//! A recovery: what a fresh master asks, hears and says until its log is stored.

use crate::build::{
    adopted, backups, log_of, message, must, nodes, put, request, right, right_at, shared, stored,
};
use curp_base::{Items, Shared};
use curp_cmd::{Entry, NodeId, Request};
use curp_log::Log;
use curp_msg::{Body, Done, Local, Message, Recover};
use curp_recover::Recovery;
use std::alloc::Global;
use std::process::Abort;

// What comes: the log of a backup, by the numbers of its puts; the requests of a witness, by theirs; how much of the log
// a backup has; the adoption; the order to say again what is waited for.
#[derive(Clone, Copy)]
enum Comes {
    Log(u32, &'static [u32]),
    Frozen(u32, &'static [u32]),
    Stored(u32, u64, u64),
    Adopted,
    Again,
}

// What the master says: to a backup and a witness what it asks them for, to a backup how many entries and in which round,
// to the manager that all is stored.
enum Said {
    Fence(u32),
    Freeze(u32),
    Append(u32, usize, u64),
    Recovered,
}

// A recovery for those backups, of the hashes up to one, with what comes and what it says then.
type Case = (&'static [u32], u64, &'static [(Comes, &'static [Said])]);

const CASES: [Case; 5] = [
    (
        &[2],
        u64::MAX,
        &[
            (Comes::Again, &[Said::Fence(1), Said::Freeze(1)]),
            (Comes::Log(1, &[]), &[]),
            (Comes::Again, &[Said::Freeze(1)]),
            (Comes::Frozen(1, &[2, 1]), &[Said::Append(2, 2, 1)]),
            (Comes::Adopted, &[]),
            (Comes::Stored(2, 2, 1), &[Said::Recovered]),
            (Comes::Stored(2, 2, 1), &[]),
            (Comes::Again, &[Said::Recovered]),
        ],
    ),
    (
        &[2],
        u64::MAX,
        &[
            (Comes::Frozen(1, &[1, 2, 3, 3]), &[]),
            (Comes::Frozen(1, &[4]), &[]),
            (Comes::Again, &[Said::Fence(1)]),
            (Comes::Log(1, &[7, 1]), &[Said::Append(2, 4, 1)]),
            (Comes::Log(1, &[7, 1]), &[]),
            (Comes::Stored(2, 3, 1), &[]),
            (Comes::Stored(1, 4, 1), &[]),
            (Comes::Stored(2, 4, 1), &[Said::Recovered]),
        ],
    ),
    (
        &[2, 3],
        u64::MAX,
        &[
            (Comes::Log(1, &[1]), &[]),
            (
                Comes::Frozen(1, &[]),
                &[Said::Append(2, 1, 1), Said::Append(3, 1, 1)],
            ),
            (Comes::Stored(3, 1, 1), &[]),
            (Comes::Again, &[Said::Append(2, 1, 2)]),
            (Comes::Again, &[Said::Append(2, 1, 3)]),
            (Comes::Stored(2, 1, 1), &[Said::Recovered]),
        ],
    ),
    (
        &[2],
        u64::MAX,
        &[
            (Comes::Log(2, &[1]), &[]),
            (Comes::Log(1, &[1, 1]), &[]),
            (Comes::Frozen(2, &[1]), &[]),
            (Comes::Again, &[Said::Fence(1), Said::Freeze(1)]),
        ],
    ),
    (
        &[2],
        0,
        &[
            (Comes::Log(1, &[1]), &[]),
            (Comes::Log(1, &[]), &[]),
            (Comes::Frozen(1, &[1, 2]), &[Said::Append(2, 0, 1)]),
        ],
    ),
];

#[test]
fn says_what_it_should(rt: HostRuntime) {
    for (backups, hi, rows) in CASES {
        try_case(&rt, rt.alloc(), backups, hi, rows);
    }
}

fn try_case(
    rt: &impl Abort,
    alloc: Global,
    backups: &[u32],
    hi: u64,
    rows: &[(Comes, &'static [Said])],
) {
    let mut recovery = begin(rt, alloc, backups, hi);
    try_rows(rt, alloc, &mut recovery, rows);
    drop(recovery);
}

// Whether the messages say that, in this order.
fn are(sent: &[Message], expected: &[Said]) -> bool {
    for (at, message) in sent.iter().enumerate() {
        match expected.get(at) {
            Some(said) if is(message, said) => {}
            _ => return false,
        }
    }
    sent.len() == expected.len()
}

fn try_rows(
    rt: &impl Abort,
    alloc: Global,
    recovery: &mut Recovery,
    rows: &[(Comes, &'static [Said])],
) {
    for (at, (comes, expected)) in rows.iter().enumerate() {
        let done = done_on(rt, alloc, recovery, *comes);
        right_at(rt, are(done.sent.as_slice(), expected), "rows", at as u64);
        drop(done);
    }
}

const REPLAYED: [Comes; 3] = [
    Comes::Log(1, &[7, 1]),
    Comes::Frozen(1, &[3, 1, 2, 3]),
    Comes::Stored(2, 4, 1),
];

// The replayed requests stand behind the log, in their order, each once, and acknowledge nothing.
#[test]
fn replays_behind_the_log(rt: HostRuntime) {
    let mut recovery = begin(&rt, rt.alloc(), &[2], u64::MAX);
    for comes in REPLAYED {
        drop(done_on(&rt, rt.alloc(), &mut recovery, comes));
    }
    let log = finished(&rt, recovery);
    try_numbers(&rt, &log, &[7, 1, 3, 2]);
    drop(log);
}

fn finished(rt: &impl Abort, recovery: Recovery) -> Log {
    match recovery.finish() {
        Ok(log) => log,
        Err(_) => rt.panic("not finished"),
    }
}

fn try_numbers(rt: &impl Abort, log: &Log, numbers: &[u32]) {
    let entries = must(rt, log.suffix(0));
    right(rt, are_puts(&entries, numbers), "numbers");
    drop(entries);
}

fn is_put(entry: &Entry, number: u32) -> bool {
    match entry {
        Entry::Op {
            request,
            acknowledge: 0,
        } => request.id.seq == number,
        _ => false,
    }
}

// Whether the entries are puts of these numbers, each of which acknowledges nothing.
fn are_puts(entries: &[Entry], numbers: &[u32]) -> bool {
    for (at, entry) in entries.iter().enumerate() {
        match numbers.get(at) {
            Some(number) if is_put(entry, *number) => {}
            _ => return false,
        }
    }
    entries.len() == numbers.len()
}

#[test]
fn recovers_a_hundred_thousand_entries(rt: HostRuntime) {
    let mut recovery = begin(&rt, rt.alloc(), &[2], u64::MAX);
    let log = log_of(2, many_puts(&rt, rt.alloc(), 100_000));
    let done = hear(&rt, &mut recovery, NodeId::backup(1), log);
    drop(done);
    let done = done_on(&rt, rt.alloc(), &mut recovery, Comes::Frozen(1, &[0]));
    drop(recovery);
    let are = are(done.sent.as_slice(), &[Said::Append(2, 100_001, 1)]);
    right(&rt, are, "recovers a hundred thousand entries");
    drop(done);
}

fn many_puts(rt: &impl Abort, alloc: Global, count: u32) -> Vec<Entry> {
    let mut entries = Vec::new(alloc);
    for seq in 1..=count {
        must(rt, entries.push(op(rt, alloc, seq)));
    }
    entries
}

fn order(rt: &impl Abort, alloc: Global, numbers: &[u32], hi: u64) -> Recover {
    Recover {
        part: 1,
        epoch: 2,
        version: 2,
        backup: NodeId::backup(1),
        witness: NodeId::witness(1),
        backups: Items::new(backups(rt, alloc, numbers)),
        witnesses: Items::new(nodes(rt, alloc, &[NodeId::witness(2)])),
        lo: 0,
        hi,
    }
}

// Master 2 recovers from backup 1 and witness 1.
fn begin(rt: &impl Abort, alloc: Global, backups: &[u32], hi: u64) -> Recovery {
    let order = order(rt, alloc, backups, hi);
    let (recovery, asked) = must(rt, Recovery::begin(alloc, 2, &order));
    drop(asked);
    drop(order);
    recovery
}

fn hear(rt: &impl Abort, recovery: &mut Recovery, from: NodeId, body: Body) -> Done {
    let message = message(from, NodeId::master(2), body);
    let done = must(rt, recovery.on_message(&message));
    drop(message);
    done
}

fn done_on(rt: &impl Abort, alloc: Global, recovery: &mut Recovery, comes: Comes) -> Done {
    match comes_from(rt, alloc, comes) {
        Some((from, body)) => hear(rt, recovery, from, body),
        None => must(rt, recovery.on_order(&Local::Sync)),
    }
}

fn comes_from(rt: &impl Abort, alloc: Global, comes: Comes) -> Option<(NodeId, Body)> {
    match comes {
        Comes::Log(backup, seqs) => {
            let log = log_of(2, puts(rt, alloc, seqs));
            Some((NodeId::backup(backup), log))
        }
        Comes::Frozen(witness, seqs) => Some((NodeId::witness(witness), frozen(rt, alloc, seqs))),
        Comes::Stored(backup, length, round) => {
            Some((NodeId::backup(backup), stored(2, length, round)))
        }
        Comes::Adopted => Some((NodeId::manager(), adopted(2, 2))),
        Comes::Again => None,
    }
}

fn frozen(rt: &impl Abort, alloc: Global, seqs: &[u32]) -> Body {
    Body::FrozenAnswer {
        requests: Items::new(requests(rt, alloc, seqs)),
    }
}

fn is(message: &Message, said: &Said) -> bool {
    let to = message.to.number;
    match (&message.body, said) {
        (Body::Fence { epoch: 2 }, Said::Fence(backup)) => to == *backup,
        (Body::Freeze { epoch: 2 }, Said::Freeze(witness)) => to == *witness,
        (Body::Append(append), Said::Append(backup, count, round)) => {
            to == *backup && append.entries.len() == *count && append.round == *round
        }
        (Body::Recovered(_), Said::Recovered) => true,
        _ => false,
    }
}

fn puts(rt: &impl Abort, alloc: Global, seqs: &[u32]) -> Vec<Entry> {
    let mut entries = Vec::new(alloc);
    for seq in seqs {
        must(rt, entries.push(op(rt, alloc, *seq)));
    }
    entries
}

fn requests(rt: &impl Abort, alloc: Global, seqs: &[u32]) -> Vec<Shared<Request>> {
    let mut requests = Vec::new(alloc);
    for seq in seqs {
        must(rt, requests.push(shared(rt, alloc, &put_of(rt, *seq))));
    }
    requests
}

fn op(rt: &impl Abort, alloc: Global, seq: u32) -> Entry {
    Entry::Op {
        request: shared(rt, alloc, &put_of(rt, seq)),
        acknowledge: 0,
    }
}

// A put of client 1 to a key of its own.
fn put_of(rt: &impl Abort, seq: u32) -> Request {
    request(1, seq, put(rt, &seq.to_be_bytes(), b"1"))
}

//! A client: how it invokes, when a request completes, and what it can't send.

use crate::build::{config, id, key, message, must, put, reply, right, right_at};
use curp_base::{Boxed, Failed};
use curp_client::{Client, InvokeError, RetryError};
use curp_cmd::{Answer, Command, NodeId, NodeKind};
use curp_msg::{
    Accepted, Body, Capture, Completed, Config, Core, Done, Message, Protocol, Reason, Rejected,
    Worth,
};
use std::alloc::Global;
use std::process::Abort;

// What is asked of client 1, or comes to it from the nodes of its partition, which has master 1 and witnesses 1 and 2.
#[derive(Clone, Copy)]
enum Row {
    Put,
    // The request's number.
    Retry(u32),
    Unsynced(u32),
    Synced(u32),
    Rejected(u32),
    // The witness, and the request's number.
    Accepted(u32, u32),
}

// What the client does on a row.
#[derive(Clone, Copy, PartialEq, Eq)]
enum Did {
    // An update to the master and a record to each witness: the request's number, and the first that is pending.
    Sends(u32, u32),
    // A Sync to the master: the request's number, and the first that is pending.
    Asks(u32, u32),
    Completes(u32),
    Nothing,
    Another,
}

fn one_part(rt: &impl Abort, alloc: Global, serial: u32, hi: u64) -> Config {
    let witnesses = [NodeId::witness(1), NodeId::witness(2)];
    config(rt, alloc, serial, &witnesses, hi)
}

fn begin(rt: &impl Abort, alloc: Global, fast: bool) -> Client {
    let config = one_part(rt, alloc, 1, u64::MAX);
    Client::new(alloc, 1, fast, Protocol::One, config)
}

fn give(rt: &impl Abort, client: &mut Client, from: NodeId, body: Body) -> Done {
    let message = message(from, NodeId::client(1), body);
    let done = must(rt, client.on_message(&message));
    drop(message);
    done
}

fn put_one(rt: &impl Abort) -> Command {
    put(rt, &[0x61], &[0x31])
}

fn done_on(rt: &impl Abort, alloc: Global, client: &mut Client, row: Row) -> Done {
    match row {
        Row::Put => must(rt, client.invoke(&put_one(rt))),
        Row::Retry(seq) => must(rt, client.retry(seq)),
        Row::Unsynced(seq) => replied(rt, alloc, client, seq, false),
        Row::Synced(seq) => replied(rt, alloc, client, seq, true),
        Row::Rejected(seq) => give(rt, client, NodeId::witness(1), rejected(seq)),
        Row::Accepted(witness, seq) => give(rt, client, NodeId::witness(witness), accepted(seq)),
    }
}

fn replied(rt: &impl Abort, alloc: Global, client: &mut Client, seq: u32, synced: bool) -> Done {
    let reply = reply(rt, alloc, id(1, seq), synced);
    give(rt, client, NodeId::master(1), reply)
}

fn rejected(seq: u32) -> Body {
    Body::Rejected(Rejected {
        id: id(1, seq),
        reason: Reason::Frozen,
    })
}

fn accepted(seq: u32) -> Body {
    Body::Accepted(Accepted {
        id: id(1, seq),
        epoch: 1,
    })
}

fn did_by(done: &Done) -> Did {
    match (done.sent.as_slice(), &done.completed) {
        ([], None) => Did::Nothing,
        ([], Some(completed)) => Did::Completes(completed.id.seq),
        ([sync], None) => asked_by(sync),
        ([update, one, two], None) => sent_by(update, one, two),
        _ => Did::Another,
    }
}

fn asked_by(sync: &Message) -> Did {
    match &sync.body {
        Body::Sync(ask) if sync.to.kind == NodeKind::Master => {
            let request = &ask.request;
            Did::Asks(request.id.seq, request.first)
        }
        _ => Did::Another,
    }
}

fn sent_by(update: &Message, one: &Message, two: &Message) -> Did {
    match (&update.body, &one.body, &two.body) {
        (Body::Update(ask), Body::Record(_), Body::Record(_)) if one.to != two.to => {
            let request = &ask.request;
            Did::Sends(request.id.seq, request.first)
        }
        _ => Did::Another,
    }
}

fn try_rows(rt: &impl Abort, alloc: Global, client: &mut Client, rows: &[(Row, Did)]) {
    for (at, (row, expected)) in rows.iter().enumerate() {
        let done = done_on(rt, alloc, client, *row);
        right_at(rt, did_by(&done) == *expected, "rows", at as u64);
        drop(done);
    }
}

const FAST: [(Row, Did); 12] = [
    (Row::Put, Did::Sends(1, 1)),
    (Row::Unsynced(1), Did::Nothing),
    (Row::Accepted(1, 1), Did::Nothing),
    (Row::Accepted(1, 1), Did::Nothing),
    (Row::Put, Did::Sends(2, 1)),
    (Row::Accepted(2, 1), Did::Completes(1)),
    (Row::Synced(1), Did::Nothing),
    (Row::Rejected(2), Did::Asks(2, 1)),
    (Row::Rejected(2), Did::Nothing),
    (Row::Retry(2), Did::Sends(2, 1)),
    (Row::Rejected(2), Did::Asks(2, 1)),
    (Row::Synced(2), Did::Completes(2)),
];

#[test]
fn completes_by_evidence_or_a_synced_reply(rt: HostRuntime) {
    let mut client = begin(&rt, rt.alloc(), true);
    try_rows(&rt, rt.alloc(), &mut client, &FAST);
    right(
        &rt,
        client.last() == 2,
        "completes by evidence or a synced reply",
    );
    drop(client);
}

const SLOW: [(Row, Did); 2] = [
    (Row::Put, Did::Asks(1, 1)),
    (Row::Synced(1), Did::Completes(1)),
];

#[test]
fn asks_for_a_synced_reply_where_it_is_slow(rt: HostRuntime) {
    let mut client = begin(&rt, rt.alloc(), false);
    try_rows(&rt, rt.alloc(), &mut client, &SLOW);
    let done = must(&rt, client.fetch());
    drop(client);
    right(
        &rt,
        done.sent.len() == 1,
        "asks for a synced reply where it is slow",
    );
    drop(done);
}

// The value of the capture of number 5.
fn worth(rt: &impl Abort, alloc: Global) -> Body {
    let worth = Worth {
        id: id(1, 1),
        epoch: 1,
        capture: 5,
        answer: Answer::Found(None),
    };
    Body::Worth(must(rt, Boxed::of(alloc, &worth)))
}

fn invoke_read(rt: &impl Abort, client: &mut Client) {
    let read = Command::Get(key(rt, &[0x61]));
    let done = must(rt, client.invoke(&read));
    right(rt, done.sent.len() == 1, "invoke read");
    drop(done);
}

fn read_of(number: u64) -> Completed {
    let by = Capture {
        master: NodeId::master(1),
        epoch: 1,
        number,
    };
    Completed {
        id: id(1, 1),
        answer: Answer::Found(None),
        by: Some(by),
    }
}

#[test]
fn reads_by_a_captured_value(rt: HostRuntime) {
    let mut client = begin(&rt, rt.alloc(), true);
    invoke_read(&rt, &mut client);
    let worth = worth(&rt, rt.alloc());
    let done = give(&rt, &mut client, NodeId::master(1), worth);
    drop(client);
    right(
        &rt,
        done.completed == Some(read_of(5)),
        "reads by a captured value",
    );
    drop(done);
}

fn invoke_error(rt: &impl Abort, client: &mut Client) -> Option<Failed<InvokeError>> {
    client.invoke(&put_one(rt)).err()
}

fn retry_error(client: &mut Client, seq: u32) -> Option<Failed<RetryError>> {
    client.retry(seq).err()
}

// The partition owns the first hash alone.
fn split(rt: &impl Abort, alloc: Global, client: &mut Client) {
    let config = one_part(rt, alloc, 2, 0);
    let told = Body::Configuration { config };
    let done = give(rt, client, NodeId::manager(), told);
    drop(done);
}

#[test]
fn refuses_what_it_cannot_send(rt: HostRuntime) {
    let mut client = begin(&rt, rt.alloc(), true);
    for seq in 1..9 {
        let row = [(Row::Put, Did::Sends(seq, 1))];
        try_rows(&rt, rt.alloc(), &mut client, &row);
    }
    right(
        &rt,
        invoke_error(&rt, &mut client) == Some(Failed::Because(InvokeError::TooMany)),
        "refuses what it cannot send (1)",
    );
    right(
        &rt,
        retry_error(&mut client, 9) == Some(Failed::Because(RetryError::NotPending)),
        "refuses what it cannot send (2)",
    );
    split(&rt, rt.alloc(), &mut client);
    right(
        &rt,
        retry_error(&mut client, 8) == Some(Failed::Because(RetryError::Split)),
        "refuses what it cannot send (3)",
    );
    drop(client);
}

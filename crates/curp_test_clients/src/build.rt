//! What the tests build by calls of which they know nothing. A test ends where something isn't built. Nothing is promised
//! of what is built: a test has to be safe, and what a call promises would join each goal of its caller.

use curp_base::{Boxed, Items};
use curp_cmd::{Answer, Command, Key, NodeId, RequestId, Value};
use curp_msg::{Body, Config, Message, PartConfig, Reply};
use curp_range::{Ranges, Spans};
use std::alloc::Global;
use std::process::Abort;

// A test ends where it isn't so, and says what wasn't.
pub(crate) fn right(rt: &impl Abort, so: bool, what: &str) {
    if !so {
        rt.panic(what)
    }
}

// The same of one of several, told by its place.
pub(crate) fn right_at(rt: &impl Abort, so: bool, what: &str, place: u64) {
    assert!(rt; so, "{what}, at {place}");
}

pub(crate) fn must<T, E: Drop>(rt: &impl Abort, answer: Result<T, E>) -> T {
    match answer {
        Ok(value) => value,
        Err(_) => rt.panic("an error"),
    }
}

// ---- Data

pub(crate) fn key(rt: &impl Abort, bytes: &[u8]) -> Key {
    must(rt, Key::new(bytes))
}

fn value(rt: &impl Abort, bytes: &[u8]) -> Value {
    must(rt, Value::new(bytes))
}

pub(crate) fn put(rt: &impl Abort, name: &[u8], bytes: &[u8]) -> Command {
    Command::Put(key(rt, name), value(rt, bytes))
}

pub(crate) fn id(client: u32, seq: u32) -> RequestId {
    RequestId { client, seq }
}

pub(crate) fn nodes(rt: &impl Abort, alloc: Global, nodes: &[NodeId]) -> Vec<NodeId> {
    must(rt, Vec::from_slice(alloc, nodes))
}

pub(crate) fn backups(rt: &impl Abort, alloc: Global, numbers: &[u32]) -> Vec<NodeId> {
    let mut backups = Vec::new(alloc);
    for number in numbers {
        must(rt, backups.push(NodeId::backup(*number)));
    }
    backups
}

// ---- What messages carry

pub(crate) fn message(from: NodeId, to: NodeId, body: Body) -> Message {
    Message { from, to, body }
}

pub(crate) fn reply(rt: &impl Abort, alloc: Global, id: RequestId, synced: bool) -> Body {
    let reply = Reply {
        id,
        synced,
        epoch: 1,
        version: 1,
        answer: Answer::Done,
    };
    Body::Reply(must(rt, Boxed::of(alloc, &reply)))
}

fn to(rt: &impl Abort, alloc: Global, hi: u64) -> Spans {
    Spans::new(must(rt, Ranges::new(alloc, 0, hi)))
}

// The one partition, of master 1 and backup 1, that owns the hashes up to one.
fn part(rt: &impl Abort, alloc: Global, witnesses: &[NodeId], hi: u64) -> PartConfig {
    PartConfig {
        part: 1,
        epoch: 1,
        version: 1,
        master: NodeId::master(1),
        backups: Items::new(backups(rt, alloc, &[1])),
        witnesses: Items::new(nodes(rt, alloc, witnesses)),
        ranges: to(rt, alloc, hi),
    }
}

pub(crate) fn config(
    rt: &impl Abort,
    alloc: Global,
    serial: u32,
    witnesses: &[NodeId],
    hi: u64,
) -> Config {
    let mut parts = Vec::new(alloc);
    must(rt, parts.push(part(rt, alloc, witnesses, hi)));
    Config {
        serial,
        parts: Items::new(parts),
    }
}

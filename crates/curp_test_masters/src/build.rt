//! What the tests of several files build alike. A test ends where something isn't built. Nothing is promised of what is
//! built: a test has to be safe, and what a call promises would join each goal of its caller.

use curp_base::{Items, Shared};
use curp_cmd::{Command, Entry, Key, NodeId, Request, RequestId, Value};
use curp_msg::{Adopted, AppendAnswer, Appended, Ask, Body, FenceAnswer, FenceReply, Message};
use std::alloc::Global;
use std::process::Abort;

// A test ends where it isn't so, and says what wasn't.
pub(crate) fn right(rt: &impl Abort, so: bool, what: &str) {
    if !so {
        rt.panic(what)
    }
}

// The same of one of several, told by its place.
pub(crate) fn right_at(rt: &impl Abort, so: bool, what: &str, place: u64) {
    assert!(rt; so, "{what}, at {place}");
}

pub(crate) fn must<T, E: Drop>(rt: &impl Abort, answer: Result<T, E>) -> T {
    match answer {
        Ok(value) => value,
        Err(_) => rt.panic("an error"),
    }
}

// ---- Data

pub(crate) fn key(rt: &impl Abort, bytes: &[u8]) -> Key {
    must(rt, Key::new(bytes))
}

fn value(rt: &impl Abort, bytes: &[u8]) -> Value {
    must(rt, Value::new(bytes))
}

pub(crate) fn put(rt: &impl Abort, name: &[u8], bytes: &[u8]) -> Command {
    Command::Put(key(rt, name), value(rt, bytes))
}

pub(crate) fn request(client: u32, seq: u32, command: Command) -> Request {
    Request {
        id: RequestId { client, seq },
        first: 1,
        command,
    }
}

pub(crate) fn shared(rt: &impl Abort, alloc: Global, request: &Request) -> Shared<Request> {
    must(rt, Shared::of(alloc, request))
}

pub(crate) fn nodes(rt: &impl Abort, alloc: Global, nodes: &[NodeId]) -> Vec<NodeId> {
    must(rt, Vec::from_slice(alloc, nodes))
}

pub(crate) fn backups(rt: &impl Abort, alloc: Global, numbers: &[u32]) -> Vec<NodeId> {
    let mut backups = Vec::new(alloc);
    for number in numbers {
        must(rt, backups.push(NodeId::backup(*number)));
    }
    backups
}

// ---- What messages carry

pub(crate) fn message(from: NodeId, to: NodeId, body: Body) -> Message {
    Message { from, to, body }
}

pub(crate) fn ask(rt: &impl Abort, alloc: Global, request: &Request) -> Ask {
    Ask {
        request: shared(rt, alloc, request),
        epoch: 1,
        version: 1,
    }
}

pub(crate) fn stored(epoch: u32, length: u64, round: u64) -> Body {
    Body::Appended(Appended {
        epoch,
        round,
        answer: AppendAnswer::Stored { length },
    })
}

pub(crate) fn adopted(epoch: u32, version: u32) -> Body {
    Body::Adopted(Adopted {
        part: 1,
        epoch,
        version,
    })
}

pub(crate) fn log_of(epoch: u32, entries: Vec<Entry>) -> Body {
    Body::FenceAnswer(FenceAnswer {
        epoch,
        answer: FenceReply::Log(Items::new(entries)),
    })
}

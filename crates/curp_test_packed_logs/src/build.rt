//! What the tests of several files build alike. A test ends where something isn't built. Nothing is promised of what is
//! built: a test has to be safe, and what a call promises would join each goal of its caller.
ghost use Rattle.std.specs.Prelude.{◌≡◌, Ok};

use curp_base::{NoMemory, Shared};
use curp_cmd::{Command, Entry, Key, NodeId, Request, RequestId, Value, room};
use curp_log::Log;
use curp_master::Master;
use curp_model::Check;
use curp_msg::{Body, Message};
use std::alloc::Global;
use std::process::Abort;

// A test ends where it isn't so, and says what wasn't.
pub(crate) fn right(rt: &impl Abort, so: bool, what: &str) {
    if !so {
        rt.panic(what)
    }
}

// The same of one of several, told by its place.
pub(crate) fn right_at(rt: &impl Abort, so: bool, what: &str, place: u64) {
    assert!(rt; so, "{what}, at {place}");
}

pub(crate) fn must<T, E: Drop>(rt: &impl Abort, answer: Result<T, E>) -> T {
    match answer {
        Ok(value) => value,
        Err(_) => rt.panic("an error"),
    }
}

// There is room then: a call that asks for it may be made.
pub(crate) fn made(rt: &impl Abort, answer: Result<(), NoMemory>)
    ensures { answer ≡ Ok tt }
{
    answer.expect(rt, "no memory")
}

// ---- Data

pub(crate) fn key(rt: &impl Abort, bytes: &[u8]) -> Key {
    must(rt, Key::new(bytes))
}

pub(crate) fn value(rt: &impl Abort, bytes: &[u8]) -> Value {
    must(rt, Value::new(bytes))
}

pub(crate) fn put(rt: &impl Abort, name: &[u8], bytes: &[u8]) -> Command {
    Command::Put(key(rt, name), value(rt, bytes))
}

pub(crate) fn request(client: u32, seq: u32, command: Command) -> Request {
    Request {
        id: RequestId { client, seq },
        first: 1,
        command,
    }
}

pub(crate) fn op(rt: &impl Abort, alloc: Global, request: &Request, acknowledge: u32) -> Entry {
    Entry::Op {
        request: must(rt, Shared::of(alloc, request)),
        acknowledge,
    }
}

// ---- Logs

pub(crate) fn begin(rt: &impl Abort, alloc: Global, hi: u64) -> Log {
    must(rt, Log::begin(alloc, 0, hi))
}

// The entry is no range that leaves, and an operation is new and of hashes that the log has.
pub(crate) fn push(rt: &impl Abort, log: &mut Log, entry: Entry) -> u64 {
    made(rt, log.reserve(room(&entry)));
    match &entry {
        Entry::Op { request, .. } => {
            assert!(rt; log.check(&request.id) == Check::New && log.owns(&request.command));
        }
        Entry::Take { .. } => rt.panic("a range that leaves"),
        _ => {}
    }
    log.push(entry)
}

// Master 1 with that log, of one backup and one witness.
pub(crate) fn serving(rt: &impl Abort, alloc: Global, log: Log) -> Master {
    let backups = must(rt, Vec::from_slice(alloc, &[NodeId::backup(1)]));
    let witnesses = must(rt, Vec::from_slice(alloc, &[NodeId::witness(1)]));
    let shell = must(rt, Master::shell(alloc, 1, 1, 1, 1, backups, witnesses));
    Master::begin(shell, log, 0)
}

// The master hears that from the node.
pub(crate) fn tell(rt: &impl Abort, master: &mut Master, from: NodeId, body: Body) {
    let message = Message {
        from,
        to: NodeId::master(1),
        body,
    };
    let done = must(rt, master.on_message(&message));
    drop(done);
    drop(message);
}

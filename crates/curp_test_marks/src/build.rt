//! What the tests of several files build alike. A test ends where something isn't built. Nothing is promised of what is
//! built: a test has to be safe, and what a call promises would join each goal of its caller.
ghost use Rattle.std.specs.Prelude.{◌≡◌, Ok};

use curp_base::{NoMemory, Shared};
use curp_cmd::{Command, Key, Request, RequestId, Value};
use std::alloc::Global;
use std::process::Abort;

// A test ends where it isn't so, and says what wasn't.
pub(crate) fn right(rt: &impl Abort, so: bool, what: &str) {
    if !so {
        rt.panic(what)
    }
}

// The same of one of several, told by its place.
pub(crate) fn right_at(rt: &impl Abort, so: bool, what: &str, place: u64) {
    assert!(rt; so, "{what}, at {place}");
}

pub(crate) fn must<T, E: Drop>(rt: &impl Abort, answer: Result<T, E>) -> T {
    match answer {
        Ok(value) => value,
        Err(_) => rt.panic("an error"),
    }
}

// There is room then: a call that asks for it may be made.
pub(crate) fn made(rt: &impl Abort, answer: Result<(), NoMemory>)
    ensures { answer ≡ Ok tt }
{
    answer.expect(rt, "no memory")
}

pub(crate) fn key(rt: &impl Abort, bytes: &[u8]) -> Key {
    must(rt, Key::new(bytes))
}

pub(crate) fn value(rt: &impl Abort, bytes: &[u8]) -> Value {
    must(rt, Value::new(bytes))
}

pub(crate) fn id(client: u32, seq: u32) -> RequestId {
    RequestId { client, seq }
}

pub(crate) fn request(client: u32, seq: u32, command: Command) -> Request {
    Request {
        id: RequestId { client, seq },
        first: 1,
        command,
    }
}

pub(crate) fn shared(rt: &impl Abort, alloc: Global, request: &Request) -> Shared<Request> {
    must(rt, Shared::of(alloc, request))
}

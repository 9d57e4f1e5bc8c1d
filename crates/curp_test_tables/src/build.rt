//! What the tests of several files build alike. A test ends where something isn't built. Nothing is promised of what is
//! built: a test has to be safe, and what a call promises would join each goal of its caller.
ghost use Rattle.std.specs.Prelude.{◌≡◌, Ok};

use curp_base::NoMemory;
use curp_cmd::RequestId;
use std::process::Abort;

// A test ends where it isn't so, and says what wasn't.
pub(crate) fn right(rt: &impl Abort, so: bool, what: &str) {
    if !so {
        rt.panic(what)
    }
}

// The same of one of several, told by its place.
pub(crate) fn right_at(rt: &impl Abort, so: bool, what: &str, place: u64) {
    assert!(rt; so, "{what}, at {place}");
}

pub(crate) fn must<T, E: Drop>(rt: &impl Abort, answer: Result<T, E>) -> T {
    match answer {
        Ok(value) => value,
        Err(_) => rt.panic("an error"),
    }
}

// There is room then: a call that asks for it may be made.
pub(crate) fn made(rt: &impl Abort, answer: Result<(), NoMemory>)
    ensures { answer ≡ Ok tt }
{
    answer.expect(rt, "no memory")
}

pub(crate) fn id(client: u32, seq: u32) -> RequestId {
    RequestId { client, seq }
}

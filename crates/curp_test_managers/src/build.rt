//! What the tests build by calls of which they know nothing. A test ends where something isn't built. Nothing is promised
//! of what is built: a test has to be safe, and what a call promises would join each goal of its caller.

use curp_base::Boxed;
use curp_cmd::NodeId;
use curp_msg::{Body, Message};
use std::alloc::Global;
use std::fmt::Debug;
use std::process::Abort;

// A test ends where it isn't so, and says what wasn't.
pub(crate) fn right(rt: &impl Abort, so: bool, what: &str) {
    assert!(rt; so, "{what}");
}

pub(crate) fn must<T, E: Debug>(rt: &impl Abort, answer: Result<T, E>) -> T {
    answer.expect(rt, "an error")
}

pub(crate) fn boxed<T: Drop>(rt: &impl Abort, alloc: Global, value: T) -> Boxed<T> {
    match Boxed::new(alloc, value) {
        Ok(boxed) => boxed,
        Err(_) => panic!(rt; "no memory"),
    }
}

pub(crate) fn message(from: NodeId, to: NodeId, body: Body) -> Message {
    Message { from, to, body }
}

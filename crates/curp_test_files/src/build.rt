//! What the tests of several files do alike, by calls of which they know nothing.
use std::process::Abort;

/// Ends a test in which that doesn't hold.
pub(crate) fn must_hold(rt: &impl Abort, what: &str, holds: bool) {
    if !holds {
        rt.panic(what)
    }
}

pub(crate) fn must<T, E: Drop>(rt: &impl Abort, answer: Result<T, E>) -> T {
    match answer {
        Ok(value) => value,
        Err(_) => rt.panic("an error"),
    }
}

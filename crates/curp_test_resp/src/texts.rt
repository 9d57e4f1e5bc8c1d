// Long texts, an answer with a value, and how a test ends.
use curp_cmd::{Answer, Value};
use std::alloc::Global;
use std::process::Abort;

/// Ends a test in which that doesn't hold of a row.
pub(crate) fn must_hold(rt: &impl Abort, row: &str, holds: bool) {
    if !holds {
        rt.panic(row)
    }
}

/// Ends a test in which that doesn't hold of the row at this place.
pub(crate) fn must_hold_at(rt: &impl Abort, place: usize, holds: bool) {
    assert!(rt; holds, "row {place}");
}

pub(crate) fn repeated(rt: &impl Abort, alloc: Global, text: &str, count: usize) -> String {
    text.repeat(alloc, count).expect(rt, "no memory")
}

/// The text with that in place of the letter.
pub(crate) fn filled(
    rt: &impl Abort,
    alloc: Global,
    text: &str,
    letter: &str,
    with: &str,
) -> String {
    text.replace(alloc, letter, with).expect(rt, "no memory")
}

pub(crate) fn found(bytes: &[u8]) -> Answer {
    Answer::Found(Value::new(bytes).ok())
}

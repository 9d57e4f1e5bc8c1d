//! How a test ends.

use std::process::Abort;

/// Ends a test in which that doesn't hold of a row.
pub(crate) fn must_hold(rt: &impl Abort, row: &str, what: &str, holds: bool) {
    assert!(rt; holds, "{what}: {row}");
}

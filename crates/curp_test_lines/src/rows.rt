// Rows of tables.
use std::process::Abort;

/// Ends a test in which that doesn't hold of a row.
pub(crate) fn must_hold(rt: &impl Abort, row: &str, holds: bool) {
    if !holds {
        rt.panic(row)
    }
}

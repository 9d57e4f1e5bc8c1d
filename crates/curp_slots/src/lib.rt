//! A witness as a data structure: it holds requests that don't conflict, each in a slot for every hash of its keys,
//! until they are stored.
//!
//! - `Witness::new`: exact; it refuses a shape exactly where there are not 1 to 1024 sets or not 1 to 16 ways. It takes
//!   no memory.
//! - `start`: exact; only an idle witness is started. All memory that it needs to hold requests is taken there; out of
//!   memory, nothing has changed. `started` is both at once.
//! - `hold`, clauses `state` and `answer`: exact, so it accepts or rejects as `rejected_exactly` says. It takes no
//!   memory. `probe`, `mode`, `epoch`, `holds`: exact.
//! - `gc`, clauses `state` and `answer`: exact; the listed requests are dropped, what remains has survived one more
//!   collection, and the suspects are given in ascending order of their ids. Out of memory, nothing has changed. It
//!   costs a search for each listed id, for each held request and for each slot.
//! - `freeze`: what it holds, in ascending order of the least hashes: exact; out of memory, it isn't frozen. That
//!   what it holds stands in order of the ids is a clause.
#![tactic(auto)]

mod answer;
mod error;
mod hashes;
mod kept;
mod listed;
mod register;
mod set;
mod slots;
mod started;
mod witness;

pub use answer::RecordAnswer;
pub use error::{BadShape, NotIdle, Stranger};
pub use witness::Witness;

//! Any node outlives its process: what comes to it stands on a disk before what it sends goes out.
//!
//! `specs/Journal.antt` says what a journal is: a title, and records of batches of arrivals, each behind a commit byte; what
//! stands behind the first commit byte that isn't open says nothing. A record is written behind its shut commit byte and
//! synced, then the commit byte is opened by a write of its own and synced.
//!
//! - `format` writes an empty journal, on a disk that has no more bytes than one (`empty`); any other is left as it is
//!   (`spares`, `refused`). At any moment in the call no other bytes are torn (`any_moment`), so it may be called again
//!   after a crash or an error (`again`). `Durable::open` reads one and gives its inputs to a fresh node: `NotFormatted` and
//!   `Damaged` come exactly where the bytes are so, and never where they are a journal (`journal`). `read_inputs` gives
//!   the inputs alone, and `inputs_in` those of bytes that were read before. `Durable::open_from` reads and gives only
//!   what stands behind a `Checkpoint`, and answers as `open` does of a journal that led to that (`LedTo`).
//! - `Durable::on_all` gives the node a batch. The answers come once those that the node takes are on the disk
//!   (`answers`, `kept`); `on`, `on_message` and `on_order` give it one input. After a crash at any moment in the call the disk has the journal with all of these or with none
//!   (`any_moment`).
//! - `laws`: bytes are one journal of a title at most, and never one and damaged; what is damaged is so at one place. Of a
//!   batch that was stopped a crash leaves all or nothing, and all that stood before it.
#![tactic(auto)]

mod checkpoint;
mod deciding;
mod durable;
mod error;
mod formatting;
pub mod laws;
mod opening;
mod stand;
mod writing;

pub use checkpoint::Checkpoint;
pub use durable::{Durable, OpenFailed, SIZE_LIMIT};
pub use error::{DurableError, FormatError, OpenError};
pub use formatting::format;
pub use opening::{inputs_in, read_inputs};
pub use stand::Answered;

//! A master's log with what stands beside it: what isn't synced, and which Ops were free as they were pushed.
//!
//! - `MasterLog` is the log with its tail and the free ops. The tail begins empty, since each backup has the log that a
//!   master begins with; a list without backups, which no header has, would leave entries before the tail, and these
//!   are read from the log and looked at themselves (`untold`). `push`, `push_op`, `settle`, `settle_anew`, `is_clean`,
//!   `is_free`: exact. `push` takes no memory; `reserve` makes the room that it asks for.
//! - `suspects`: what suspects of a witness bring into the log (`news`), and each of them in turn at the log and at the
//!   queue of what waits for collection (`treat_each`), which takes no memory. Exact.
//! - `suffix_with`: what stands in the log from a place on, with more entries behind it. Exact.
//! - `only`, `in_prefix`, `reply_room`: lists of the messages that a master sends.
#![tactic(auto)]

mod master_log;
mod sending;
mod suffix;
pub mod suspects;
mod untold;

pub use master_log::{MasterLog, op_of, op_room};
pub use sending::{in_prefix, only, reply_room};
pub use suffix::suffix_with;

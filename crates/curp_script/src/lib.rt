//! The lines of a script, read: the header, and the steps. What is printed for them is defined here too.
//!
//! - `LineReader::parse_header`, `parse_line`, clause `reads`: exact, for every line, over what serde_json reads, and
//!   which of several faults is told. The reader keeps its memory from line to line; texts and numbers stay in the
//!   line. The text of `LineError` is exact too. `bad_field`: exact.
//! - `LineReader::parse_event`: the same for the lines of a history and of an order that is claimed for it.
//! - `LineReader::parse_order`: the same for the lines of orders for a manager whose journal is kept.
#![tactic(auto)]

mod error;
mod event;
mod header;
mod kind;
mod manage;
mod read;

pub use curp_msg::{Header, Protocol, Step};
pub use error::{FieldName, LineError};
pub use event::{EventKind, EventLine};
pub use header::bad_field;
pub use kind::{Kind, header_names};
pub use manage::ManageLine;
pub use read::LineReader;

//! RIFL's reply table as a data structure: the answer to each request that is done and not acknowledged, with look-ups by
//! binary search.
//!
//! - `check` (the duplicate check), `note`, `acknowledge`, `expire`, `merge`: exact over the definition's table. None
//!   takes memory: they ask for room, which `reserve` makes, and `room` says how much a package's part takes. `finish`
//!   is a note and an acknowledgement in the room of one. `pack`: exact.
//! - Two lists ascend, the records and the clients, so a check is at most two binary searches, and an acknowledgement
//!   or an expiry drops a client's records as one run, without a scan. `merge` puts in one record after the other, and
//!   then goes through the table once.
#![tactic(auto)]

mod clients;
mod kept;
mod records;
mod table;

pub use table::{Table, room};

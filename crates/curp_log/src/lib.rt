//! A master's log as a data structure, with all four kinds of entry, and with what it means: what a request's check finds,
//! what each Op was answered, the store, the reply table and the owned hashes behind the entries, the last package taken
//! and the last migration given.
//!
//! - `from_entries`: the log with these entries, if they are one: exact.
//! - `push`: the log has one entry more; it takes no memory. It asks that there is room, which `reserve` makes, and
//!   that the entry fits: an operation's request is new and its keys are owned; a take's range is owned, and its
//!   package is what `pack` gives.
//! - `check` (the duplicate check), `owns`, `answer`, `store`, `table`, `ranges`, `package` (the last one taken),
//!   `given` (the last migration given), `pack`: exact over what the log means, the fold of its entries. `request`,
//!   `entry`, `suffix`, `between`, `len`: exact.
//! - The oldest entries are kept packed, as their encodings; `reserve` packs until fewer than 128 aren't packed, or one of
//!   the first 64 of those has no encoding. `packed`: how many are, and the encodings. What asks for one request or for a
//!   part of the log costs what it reads.
//! - The check, and whether a hash is owned, are binary searches: no call but `from_entries`, `pack` and the copies goes
//!   through the log or the table. A take costs a search and a removal for each of its pairs, a give one and an
//!   insertion.
//! - `laws::entry_more`, `seen_stays_seen`: what one entry more means, and that what was seen is never new again.
#![tactic(auto)]

pub mod laws;
mod log;
mod packing;
mod state;
mod taken;

pub use log::{Log, TakenPackage};
pub use state::LatestGive;

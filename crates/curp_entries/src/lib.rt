//! The entries of a log, of which the oldest are kept as their encodings in one vector of bytes, and the newest as they are.
//!
//! - `PackedEntries`: contracts see the list of all entries, how many of them are packed, and for how many more there is
//!   room. `push`, `extend`, `len`, `newest`, `request`, `entry`, `suffix`, `between`: exact. `pack`, and `reserve`, which
//!   begins with it, leave a tail of fewer than 128 entries, or one of whose first 64 one has no encoding; what is packed is
//!   a multiple of 64.
//! - `packed`: how many are packed, and their encodings in order.
//! - One entry is found by one number for each 64, and by at most 63 entries that are read past.
#![tactic(auto)]

mod encoded;
mod entries;
mod prefix;
mod runs;

pub use encoded::has_encoding;
pub use entries::PackedEntries;

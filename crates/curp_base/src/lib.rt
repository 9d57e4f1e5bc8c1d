//! What every crate of curp stands on: running out of memory, lists as plain data, in any order or an ascending one, and words
//! and lemmas on lists.
//!
//! - `Boxed`: a value at a place of its own; `Shared`: one that several hold, which stands in memory once. Contracts see
//!   the value.
//! - `Reserved`: a list in whose room an item more takes no memory; contracts see the items, and how many more have room.
//!   `ReservedPairs`: pairs in strictly ascending order of their keys in such room, where a key is found by a binary
//!   search. What they keep and what they drop is exact; of the room they say how much is left at least, and where it is
//!   made, at most. `make_room` makes it in a `Vec`.
//! - `Items`, `AscendingPairs`, `AscendingKeys`: `new`, `into_vec`, `as_slice`, `len`, `copy`: exact. The last two are
//!   in strictly ascending order by their type; `pairs_ascend` and `keys_ascend` are the tests. `TryCopy` is the trait
//!   of what is copied where there is memory: its clause says that the copy is the same value. `copies_of`, `past`:
//!   exact.
#![tactic(auto)]

mod ascending;
mod boxed;
mod failed;
mod items;
mod reserved;
mod reserved_pairs;
mod shared;

pub use ascending::{AscendingKeys, AscendingPairs, keys_ascend, pairs_ascend};
pub use boxed::Boxed;
pub use failed::Failed;
pub use items::{Items, TryCopy, copies_of, past};
pub use reserved::{Reserved, make_room};
pub use reserved_pairs::ReservedPairs;
pub use shared::Shared;
use std::alloc::AllocError;

/// There was no memory left. It is the one failure that no clause predicts.
pub type NoMemory = AllocError;

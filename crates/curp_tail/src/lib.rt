//! The end of a log that isn't synced yet: what its entries touch, and whether a hash or a command is among it.
//!
//! `add`, `synced`, `is_dirty`, `covers_dirty`: exact over the list of what is kept. Whether a hash is dirty is a look
//! into a hash table of the last entry that names each hash, and at the ranges that are moved and not synced. `add`
//! adds all or none; `add_reserved` takes no memory, and `reserve` makes the room that it asks for.
//! `laws::tail_tells_of_log`, `laws::tail_follows_log`: where it follows a log, a hash is dirty exactly where an entry
//! that isn't synced touches it.
//!
//! The ids that wait for collection: the witnesses may let go of each once so many entries are synced.
//!
//! `Queue::add`: exact over the queue of a master's definition, so an id waits once, in its first place and at its
//! larger length; it takes no memory, and finds the id by a binary search. `reserve` makes the room that it asks for, or
//! for as many ids as wait where that is more, and no more in any list. `due`, `leave`: exact; the ids whose length is
//! synced, in the order in which they were first added, and what waits without them.
#![tactic(auto)]

pub mod laws;
mod queue;
mod tail;
mod touched;

pub use queue::Queue;
pub use tail::{Moved, Tail, TailEntry};
pub use touched::Touched;

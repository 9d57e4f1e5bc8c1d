//! What a master keeps of its rounds, without its log: what its backups have acknowledged, the reads and the replies
//! that wait until they all have, the lists that it takes up next, and what it says.
//!
//! - `Acknowledgements`: `all_at`, `set_all`, `raise`, `reach_of`: exact; what is acknowledged never falls. A backup is
//!   found by its name. `Heard` is that, perhaps with one acknowledgement more, and copies nothing: `all_have`,
//!   `reach_of_all`, `least_length`: exact over the definition of a master.
//! - `Captures` are in the order in which they were captured, and those that are ready are the first ones: `push`,
//!   `remove_ready` and `tell_ready` exact, and no others are looked at; `push` takes no memory, and `reserve` makes its
//!   room. `Indexes` ascend: `insert`, `push`, `contains`, `below`, `remove_below`: exact.
//! - `MasterPhase`: whether the master is open, to which backups a round goes, and how far the next list is: exact.
//!   `messages`: each message, in the master's name.
#![tactic(auto)]

mod acknowledged;
mod acknowledgements;
mod captured;
mod captures;
mod heard;
mod indexes;
pub mod messages;
mod node_key;
mod phase;
mod reach;

pub use acknowledged::Acknowledged;
pub use acknowledgements::Acknowledgements;
pub use captured::Captured;
pub use captures::Captures;
pub use heard::Heard;
pub use indexes::Indexes;
pub use phase::{MasterPhase, Switch};
pub use reach::Reach;

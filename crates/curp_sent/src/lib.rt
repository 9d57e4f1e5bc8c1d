//! What a run has beside its nodes: every message that was ever sent, and the nodes that get nothing more. It knows no
//! node.
//!
//! - `SentMessages`: the messages by the steps that sent them, numbered from 1, with what they weigh. `push` takes no memory;
//!   `reserve` makes the room that it asks for, or for as many steps as there are where it makes any, and no more in any
//!   list. `count`, `next`, `weight`, `get`, `get_at`, `step_at`: exact. A number is found by a binary search, once where
//!   its `MessagePlace` is kept.
//! - `Stopped`: `contains`, `add`: exact.
//! - `order_of`: the node and the order that a step is for. `answered`: requests, each with the answer of one thread.
//!   Exact.
#![tactic(auto)]

mod batch;
mod ordered;
mod orders;
mod sent;
mod stopped;

pub use ordered::answered;
pub use orders::order_of;
pub use sent::{MessagePlace, SentMessages};
pub use stopped::Stopped;

//! Desks: nodes with their journals whose messages go through inboxes.
//!
//! - A `Desk` is a node with its journal and an outbox, under one lock. No clause can say what lies under a lock: what
//!   holds is the invariant of the type there. By it the journal, replayed, gives the node and all that it did (`Running`),
//!   and the outbox holds just what the journal's items sent and the courier hasn't taken, each once and in order, as
//!   envelopes with the node's number (`IsOutbox`).
//! - A node has a worker, who takes envelopes from the inbox and makes steps, those that its `Chores` order among them, and
//!   a courier, who sends what they put out. A worker never sends, and no lock is held over a send, a receive or a wait for
//!   another thread; so full inboxes can't make all threads wait for each other, by whatever room they have.
//! - `run_crew` runs nodes with an inbox for each: workers and couriers on threads of their own, the driver on the calling
//!   one. Where a thread can't be made, those that were made get the ends that they wait for.
#![tactic(auto)]

mod crew;
mod desk;
mod inside;
mod listener;

pub use crew::{Carry, Drive, Member, Serve, run_crew};
pub use desk::Desk;
pub use listener::{Listener, MadeStep};

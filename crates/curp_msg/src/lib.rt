//! The messages that nodes send, how much each weighs, and what every node is to the one that runs it.
//!
//! - `Message::copy`, `Body::copy` and the copies of their parts: exact.
//! - `{}` of messages, of orders, of inputs, of what nodes do, refuse and complete: exact (`specs/Text.antt`). `{:?}` is
//!   that text behind the name of the type, where it isn't derived.
//! - `weight`: exact over `specs/Weight.antt`: 1, and 1 more for each entry, pair, record, id, partition and range that
//!   a message carries; it stands still at 2^64 - 1.
//! - `Core`, the trait of nodes. Its ghost member `machine` says which machine a node is, a function from a state and
//!   an input to a move: the state after, what is sent, what is invoked, what completes, and the number of a refusal.
//!   `on_message` takes a message by reference, `on_order` an order, `on` either (`Input`); each is exact over the
//!   machine by the one word `Moves`, and out of memory the node is as before. An order that is refused needs no memory.
//!   Its laws: a refusal's number is below 255, a refused order changes, sends, invokes and completes nothing, and a
//!   message is never refused. A message has at most 80 bytes, beside its boxes.
//! - `told`: what a node tells of an order that a call of its own makes, exact (`specs/Told.antt`): a refusal by the number
//!   of its reason, which is `Numbered`.
#![tactic(auto)]

mod answer;
mod body;
mod config;
mod limits;
mod machine;
mod message;
mod outcome;
mod refusing;
mod script;
mod text;
mod weighing;

pub use answer::{AppendAnswer, FenceReply, GcAnswer, Reason, Refusal};
pub use body::{
    Accepted, Adopted, Append, Appended, Ask, Body, Collected, FenceAnswer, Gc, Parcel, Prepare,
    Probe, Probed, Quick, Record, Recover, Recovered, Refuse, Rejected, Reply, Start, TakeOut,
    Worth,
};
pub use config::{Config, PartConfig};
pub use limits::{STEP_LIMIT, WEIGHT_LIMIT};
pub use machine::{Capture, Completed, Core, Done, Input, Local};
pub use message::Message;
pub use outcome::{Outcome, StepResult};
pub use refusing::{Numbered, told};
pub use script::{Header, Protocol, Step};
pub use weighing::weight;

//! Inboxes that many senders fill: what is taken of each sender is what it sent, whole, once and in its order.
//!
//! - An inbox is a channel with room for so many envelopes, under a rule (`specs/Rule.antt`) that each of its steps keeps:
//!   for each sender, what was taken of it and then what stands in the inbox of it is what it sent.
//! - `inbox` makes one, with a `Post` for each sender and a `Take`. Contracts see a post as the list that it sent, and a
//!   take as the list that it took, in the inbox that they are of. `send` and `receive` add one to these lists, and
//!   return only then; that they return is no clause.
//! - `close` takes all posts and the take, and has what the rule is there for: what was taken of each sender is a prefix
//!   of what it sent (`prefix`), and nothing else was taken (`no_other`).
//! - An `Envelope` is seen as its sender's number and the input that it carries, or none at the sender's end. It holds a
//!   message as a `Framed`.
//! - `Posts` are all posts of one sender, seen with what each sent and whether it is used up. What `send` and `end` do is
//!   exact: an envelope goes through no other post than that of its node. Each gets exactly one end, as its last envelope:
//!   sending it uses the post up.
//! - `Inboxes` are the inboxes of all nodes of a run, with the posts of each node and of its driver.
#![tactic(auto)]

mod calls;
mod closing;
mod ends;
mod envelope;
mod inboxes;
mod opening;
mod posts;
mod rule;

pub use closing::close;
pub use ends::{Closed, Post, Take};
pub use envelope::Envelope;
pub use inboxes::{Inboxes, ROOM};
pub use opening::inbox;
pub use posts::Posts;

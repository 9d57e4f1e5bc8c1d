//! A client as a node: its requests until they complete, and what was delivered for each of them.
//!
//! `Client` is a `Core`: its machine is in `specs/Machine.antt`, and is the definition of a client whole. `invoke`, `retry`
//! and `fetch` are its orders as calls: exact, by `Moves`, over that definition. Each reason comes exactly where the
//! definition refuses by its number, so a call that is refused wants no memory; after an error nothing has changed. `new`, as at opening, and what tells of its requests (`last`, `pending`, `least_pending`): exact.
//! That no pending number is past the last one is a clause.
#![tactic(auto)]

mod client;
mod error;
mod evidence;
mod owner;
mod pending;
mod requests;
mod sending;

pub use client::{Client, MOST_PENDING};
pub use error::{InvokeError, RetryError};

//! What the process of a node says of what its node did.
//!
//! `specs/Told.antt` has what that is, in the words of `curp_parcels`.
//!
//! - `tell` puts the parcels of what is said of a batch's answers behind a text (`tells`), `tell_one` that of one word.
//! - `greet` puts there what the process says before it reads anything: where its journal stands, which requests
//!   completed, and which are pending (`greets`).
//! - `laws`: the batches in which inputs come don't show in what is told of them.
#![tactic(auto)]

mod greeting;
pub mod laws;
mod telling;

pub use greeting::greet;
pub use telling::{tell, tell_one};

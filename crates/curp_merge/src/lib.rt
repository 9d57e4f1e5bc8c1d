//! Journals of many nodes, merged into one script.
//!
//! - `merge` takes the turn that is due: the one with the least stamp and, of these, the first strand's. A message is
//!   delivered by the number that the merge so far gave it; since its sender's stamp is lower, the sender's item was
//!   taken before. It first looks whether each message that a node took is the one that its sender's journal holds at
//!   that step and place, with that stamp (`Mismatch`, else), whether there are more than 200,000 turns, and whether
//!   what was sent weighs too much; each error has exactly its cause. A step costs a look at each strand and what it
//!   sends.
//! - `merge_held` does the same without the look at messages, for journals that are known to hold each.
#![tactic(auto)]

mod count;
mod due;
mod error;
mod held;
mod mismatch;
mod script;
mod step;
mod strand;
mod track;
mod weave;

pub use error::GatherError;
pub use script::{merge, merge_held};
pub use strand::Strand;

//! The journals of a header's nodes, and the one script that they are.
//!
//! - `gather` says of the real nodes that the steps are a run of their journals (`RunOf`): one step for each item and
//!   each last stop, each is done, and messages and completions are those that the journals hold. It asks that each
//!   journal was begun with the node that the header's world has by that name (`AreOf`). `strands_of` gives the journals
//!   as they are merged.
//!
//! Journals in which what each node took of each other is the prefix of what that sent to it.
//!
//! - `are_ruled` is exact, both ways: it is true where each message came from a node with a journal, and what a node took
//!   of each is the prefix of what that sent to it, message by message with step, place and stamp (`AreRuled`).
//! - `ruled_journals_hold` is the law for which it is there: journals that are so hold each message that came, by its
//!   name. So they are merged without a mismatch.
//!
//! Journals under a rule, and the one script that they are.
//!
//! - A `Ruled` holds the journals of a run, and its type keeps that what each node took of each other is the prefix of what
//!   that sent to it (`AreRuled`). `Ruled::new` compares this, and gives none exactly where it isn't so.
//! - `gather_ruled` says of them what `gather` says of journals (`IsScriptOf`), and has no mismatch among its errors.
#![tactic(auto)]

mod compare;
mod error;
mod journals;
mod next;
mod prefix;
mod ruled;
mod ruled_journals;
mod ruled_script;
mod script;
mod strands;

pub use curp_merge::GatherError;
pub use error::RuledError;
pub use journals::Journals;
pub use ruled::{are_ruled, ruled_journals_hold};
pub use ruled_journals::Ruled;
pub use ruled_script::gather_ruled;
pub use script::{gather, gather_held};
pub use strands::strands_of;

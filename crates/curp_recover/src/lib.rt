//! A master before it serves: it takes the log of one backup and the requests of one witness, replays the requests
//! behind the log, and stores the whole on fresh backups (after CURP's recovery).
//!
//! `Recovery::begin`, `on_log`, `on_frozen`, `on_stored`, `again`, clause `moves`: each call makes the move of a
//! recovering master's definition, and hands out all that it sends; what isn't waited for is told as ignored.
//! `on_message`, `on_order`: the same for a message or an order as it comes, where the adoption changes nothing;
//! `is_adopted_by` says whether a message is the adoption by which it begins to serve, and `finish` gives the log to
//! serve with, without memory. The replayed requests stand behind the log as ops that acknowledge nothing, in the
//! witness's order, each where it is new and owned. A log that is none counts as not delivered. A recovery executes its
//! log once, as it comes. It copies the entries, which share their requests, into that log, once more while it waits for
//! the requests, and once for each fresh backup. Out of memory, nothing has changed; when what came then comes again, the
//! log is executed anew.
#![tactic(auto)]

mod error;
pub mod laws;
mod messages;
mod phase;
mod recovery;
mod replay;
mod stage;
mod turned;

pub use error::Ignored;
pub use phase::Phase;
pub use recovery::Recovery;
pub use turned::turned_away;

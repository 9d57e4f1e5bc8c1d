//! Commands served in turn by a whole cluster of one client, one partition, and as many backups and witnesses as asked
//! for: each command is invoked, and every message is delivered, in rising number, until none is left. After every
//! sixteenth command follow a round and a collection, and after each of a given number a recovery.
//!
//! `Served::serve` is exact over the steps that `curp_law_served` defines: clauses `state` and `prefix` say which it
//! makes, `limit` when it is refused, both ways, and `answer` what it answers, running out of memory aside. There is an answer
//! wherever all steps were made. By the law (clauses `one_thread` and `shows`) it is that of one thread, and the steps
//! are a script whose run shows it; `steps` gives them.
//!
//! A step costs what it costs the cluster, and the list of steps grows by doubling.
#![tactic(auto)]

mod served;
mod stepper;

pub use served::{ServeError, Served};

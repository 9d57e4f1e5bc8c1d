//! What `curpd` does: it makes the journal of a node, runs a node over parcels, or prints what the nodes of journals did.
//!
//! `start` does what `main` is to do. A node's process opens its journal, which gives its inputs to the node as it was
//! before any; says where it stands (`greet` of `curp_told`); and answers parcels until its input ends (`run_node` of
//! `curp_filter`). `gather` reads journals and prints the script that they are (`script_of` of `curp_collected`), and what
//! `play` prints for it (`write_played` of `curp_play`). An error is told on standard error, and ends the process with a
//! number of its own (`Ending`). Files and streams of the system tell nothing, so what is proved here is that these are
//! called as they ask.
#![tactic(auto)]

mod ending;
mod gathering;
mod mismatch;
mod nodes;
mod process;
mod running;

pub use ending::Ending;
pub use mismatch::MessageMismatch;
pub use process::start;

//! A world's nodes run on threads until the clients' work is done, and the journals of such a run.
//!
//! - `live` runs the nodes of a plan, the fresh ones of its recoveries too (`run_nodes` of `curp_threads`). What comes out of
//!   a lock has no clause, so the journals are begun anew and compared (`checked`), and what each node took of each other with
//!   what that sent (`Ruled`). Where anything differs the run is made anew, and only there (`judged`).
//! - `checked` compares names, outputs, addressees, the clients' commands, their completions, the recoveries and the last
//!   stops. It gives nothing just where they aren't those of a run of the plan in which the work was done.
//! - `anew_at_opening` gives the inputs again so for any journals of a header's nodes, and what it gives can be gathered
//!   (`AreOf`). It gives nothing just where they aren't those of all nodes at opening.
#![tactic(auto)]

mod checking;
mod once;
mod run;

pub use checking::{anew_at_opening, checked};
pub use run::{live, live_in_rooms};

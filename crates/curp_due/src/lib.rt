//! What the driver, the clients and the masters of a run on threads are due to do. It knows no thread.
//!
//! - What the driver does is a list that follows from the plan alone (`deeds_of`): which partition is recovered, after how
//!   many completed requests, which master is stopped before, and when clients are told to fetch. `stops` says which nodes
//!   it stops, and `recovery_of` which recoveries it orders; `recovers_as_planned` is the test of these.
//! - What a client and a master are due to be ordered follows from what they took (`client_due`, `master_due`).
#![tactic(auto)]

mod chores;
mod driving;
mod recoveries;
mod stopping;

pub use chores::{ClientChores, MasterChores};
pub use driving::{Deed, Need, deeds};
pub use recoveries::{recovers_as_planned, recovery_of};
pub use stopping::stops;

//! A world's nodes on threads, each at a desk, and the clients' work done by them.
//!
//! - `run_nodes` gives each node of `Desks` an inbox, a worker and a courier, the fresh nodes of recoveries too, and drives
//!   the run itself: it makes the recoveries, and ends all nodes once all requests are completed. Where a thread can't be
//!   made or finds no memory, every wait ends, and it says so. What comes out of a lock has no clause, so the journals that
//!   the desks leave are looked at by who runs them (`curp_live`).
//! - The driver does one thing after the other of its list (`deeds` of `curp_due`, `drive.rt`). That it waits as that list
//!   says is no clause, since what it waits for lies behind a lock.
#![tactic(auto)]

mod board;
mod crew;
mod desks;
mod drive;
mod members;
mod running;
mod teller;

pub use desks::Desks;
pub use running::run_nodes;

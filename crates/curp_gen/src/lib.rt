//! Scripts and commands that are made from a number: a stream of random words chooses each step, so that one number
//! always gives the same script.
//!
//! `Maker` means a `Making`, the world with the place in the stream of words and the counts of the summary. `next_step`
//! is exact: the step that the definition chooses, and the world after it. A step costs what the world's step costs and a
//! few words. `make` gives all steps at once, `workload` the commands of one client from its own stream. `choice.rt` has a
//! function for each definition of a choice.
#![tactic(auto)]

mod choice;
mod commands;
mod draws;
mod maker;
mod summary;

pub use commands::workload;
pub use maker::{Maker, make};
pub use summary::Summary;

//! Whether two messages are the same.
#![tactic(auto)]

mod answers;
mod bodies;
mod commands;
mod configs;
mod entries;
mod lists;
mod plain;
mod same;

pub use lists::all_same;
pub use same::Same;

//! The world as code: its nodes, every message that was ever sent, the history, and the steps of a script.
//!
//! - `World::begin`: exact; it refuses a header exactly where a value is out of its range, by the first such name in
//!   byte order.
//! - `step`, clauses `state` and `outcome`: exact; and one clause for each result, with its cause. It asks nothing of
//!   the step. Clause `err`: out of memory nothing has changed. `message`, `sent`, `weight`: exact.
//! - `World::history`, clause `is_history`, and `World::order`, clause `is_order`: of every world that can be reached,
//!   they are a history and an order of it. `step`, clause `grows`: the completed requests of the order before it
//!   stand, in that order, among those after it. `keeps`: all that every reached world keeps (`Kept`), by the call.
#![tactic(auto)]

pub mod laws;
mod world;

pub use curp_msg::{Header, Outcome, Step, StepResult};
pub use curp_script::FieldName;
pub use world::{BeginError, World};

//! The nodes of a run together: every message that was ever sent, the history, the marks, and the steps of a script. It
//! knows no law. What comes of a master's input to be marked `curp_line` tells.
//!
//! - `Cluster::new`: exact, of a header whose numbers are in their ranges. `step`: exact, of any step, and out of memory
//!   nothing has changed (`MakesStep`). `config`, `message`, `sent`, `weight`, `history`, `order`: exact.
#![tactic(auto)]

mod cluster;
mod given;
mod growing;
mod marked;
mod marks;
mod nodes;

pub use cluster::Cluster;
pub use curp_msg::{Header, Outcome, Step, StepResult};

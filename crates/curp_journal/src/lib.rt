//! What a node's journal is: the inputs that came to it, and what it did on each. `is_own` tells which inputs may come
//! to a node.
//!
//! The turns of journals, what a step is to do by its turn, and what of that is asked of lists alone, are definitions here:
//! no code of this crate computes them.
#![tactic(auto)]

mod arrived;
mod item;
mod origin;
mod own;

pub use arrived::{Arrived, Named};
pub use item::Item;
pub use origin::Origin;
pub use own::is_own;

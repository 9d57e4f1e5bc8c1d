//! `curp manage`: reads orders for the manager, whose inputs stand in a journal before its messages go out, on a disk that
//! crashes where the input says so; and writes what the manager does.
//!
//! - `manage_orders`: exact. The text is that of the manager's definition over the inputs that are kept
//!   (`specs/Managed.antt`, `specs/Text.antt`), where no disk stands: so what a crash leaves is what the lines say.
#![tactic(auto)]

mod manage;
mod managing;
mod outcome;

pub use manage::manage_orders;

//! The lines of a script, of a history and of an order, printed.
//!
//! - `print_header`, `print_line`, clause `text`: exact, byte for byte; clause `reads_back`: the printed line is read as
//!   the same header or step.
//! - `print_event`: the same for the lines of a history and of an order that is claimed for it.
#![tactic(auto)]

mod command;
mod event;
mod line;
mod shown;

pub use event::print_event;
pub use line::{print_header, print_line};

//! Histories, what an order of a history is, and the answers of one thread.
//!
//! - `run_order`: the answers of one thread, for all commands. `History::record`, `events`: exact.
//! - `KeptEvent`: an event whose command stands in memory once, with the request; contracts see the event.
#![tactic(auto)]

mod history;
mod kept;
mod run;

use curp_cmd::{Answer, Command, RequestId};
pub use history::History;
pub use kept::KeptEvent;
pub use run::run_order;

/// What clients saw: a request was invoked, or its answer came.
#[derive(Clone, Copy, PartialEq, Eq)]
pub enum Event {
    /// A client asks for the command.
    Invoke { id: RequestId, command: Command },
    /// The client has its answer.
    Complete { id: RequestId, answer: Answer },
}

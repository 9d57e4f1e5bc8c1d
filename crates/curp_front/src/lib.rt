//! Redis' protocol in front of one client node: the bytes of connections in, the commands that the node is to invoke,
//! and the replies, for each connection in the order of its requests.
//!
//! It has no stream, no disk and no thread: whoever runs the node gives it what comes, and asks it what to do next.
//!
//! `specs/Conversation.antt` has what a connection stands for and what each thing that comes makes of it,
//! `specs/Fronts.antt` the connections beside each other.
//!
//! - `Fronts`, each clause `connections`: exact over these definitions. A call changes one connection, the answer to a
//!   command that whose it is, and no other. What is said is `output_of`, the replies those of `curp_resp`.
//! - Out of memory, nothing has changed.
//! - `laws`: whatever comes, a connection is told the replies to its requests in their order, each once (`InOrder`).
#![tactic(auto)]

mod connection;
mod connections;
mod due;
mod fronts;
pub mod laws;
mod output;
mod words;

pub use connections::Admitted;
pub use due::InvokeRefusal;
pub use fronts::Fronts;
pub use output::{FrontOutput, too_many_text};
pub use words::{FrontInput, front_input_in, is_short, write_front_output};

//! The command line of `curpd`: which process is to run, and of which node.
//!
//! `read` gives the task of the words behind the program's name, or what a user is told of them: `clap`'s own text where
//! they are no command line, else what is wrong with a name, a header or a stamp. A header is one of a script's first
//! line, in the ranges of that (`valid`). Names are written as in the texts of steps: G, C1, M1, B1, W1.
#![tactic(auto)]

mod name;
mod task;
mod words;

pub use name::{NodeName, node_named};
pub use task::{CurpdTask, CurpdWordsError, Seat};
pub use words::read;

//! What the program does by the words of its command line: it plays a script, makes one, runs nodes on threads, checks
//! an order, serves requests, or gives a manager whose journal is kept its orders.
//!
//! `live_script` prints the script into memory, writes it, and plays just these bytes by `play_script`. A made script
//! is written line by line, as its steps are made; nothing but the world is kept.
//!
//! `complaints_of` gives all lines of standard error as one value, exact over how a run ended and what is wrong with its
//! words; printing it takes no memory. `run_to_end` runs the arguments, prints that value, and ends with the number of
//! the status; `start` is the same for the arguments of the process and the standard streams.
#![tactic(auto)]

mod command;
mod complaints;
mod live;
mod process;
mod script;

pub use command::run;
pub use complaints::{Complaints, complaints_of};
pub use live::live_script;
pub use process::{run_to_end, start};
pub use script::make_script;

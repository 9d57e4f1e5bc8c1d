//! The journals of a cluster's nodes, as bytes of files, as one script.
//!
//! - `collect` reads the title of each file and gives the inputs that stand in it to the node that the title names,
//!   made anew. What it gives are the journals of the header's nodes (`AreCollected`, in `specs/Collected.antt`): each is
//!   that of its node's file up to a stamp, and each file is there. An opening node without a file did nothing; a node
//!   that isn't of the opening begins fresh.
//! - `script_of` gathers them (`curp_gather`): the part that each node has in the script is its journal.
//! - Each error has its cause (`specs/Causes.antt`), and names the file that it is of.
#![tactic(auto)]

mod beginning;
mod collecting;
mod error;
mod files;
mod kinds;
mod replaying;
mod script;

pub use collecting::collect;
pub use error::{CollectError, ScriptError};
pub use script::{FileScript, script_of};

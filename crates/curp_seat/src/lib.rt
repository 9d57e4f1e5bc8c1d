//! Nodes with their journals, as threads run them, and messages on their way between nodes.
//!
//! - `Kept<N>` means a name, the state that the node began with, its items and whether it has stopped. Its type keeps
//!   that the items, replayed from that state, give the node and all outputs, and that stamps rise (`journal`, clauses
//!   `replay`, `stamped`). `step` is exact: one input is given to the node, and kept with what the node did and a stamp
//!   one more than the larger of the last and the input's; what the node refuses isn't kept, nor is an input whose
//!   stamp would pass 2^64 - 1, which is answered by 255; after running out of memory it is as it was. `begun_with`
//!   gives the inputs to a node anew, and answers the same journal begun with that node; it answers nothing just where
//!   the node does otherwise by one of them.
//! - `Running` is a `Kept` that hasn't stopped. `make` tells a `Observer` of a step before it is made, makes it as `step`
//!   does, and gives what it sent, with names, or by which number it was refused: as `step` says, by the journal before it
//!   alone.
//! - `Chores` say what a node is ordered by its own threads, by what kind of input it took (`Took`) and what it completed.
//! - `Framed` is a message with its name on its way between nodes, seen as that. A message that is light crosses as the
//!   frame that `curp_wire` writes of it, and is decoded by who takes it; another crosses as it is. Its type keeps that.
#![tactic(auto)]

mod chores;
mod framed;
mod kept;
mod making;
mod naming;
mod observer;
mod opening;
mod replay;
mod running;
mod took;

pub use chores::{Chores, NoChores};
pub use framed::Framed;
pub use kept::Kept;
pub use naming::Sent;
pub use observer::{Observer, Point, Unobserved};
pub use running::{Made, Running};
pub use took::Took;

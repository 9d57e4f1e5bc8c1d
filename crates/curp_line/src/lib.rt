//! The marks of which the order that the world shows is made: an update's at its index in a log, a read's at a capture
//! or where it was answered at once, and an adoption's. And which of them come of what a master does with an input.
//!
//! `executed`, `looked`, `quick`, `completed`, `adopted`, `order`: exact over the list of marks (`Marks.antt` of
//! `curp_model`). All but `order` take no memory; `reserve` makes the room that they ask for. A completion looks at the
//! marks of its request alone, an adoption at those of its partition and of the requests that are replayed, and a read
//! that was answered at once at none: it finds the adoption that it stands before by a binary search of its partition's.
//!
//! `Former` is a serving master as it was before its input, and `Former::mark` marks what it has done since: exact
//! (`Due.antt`). `glanced`, `most_marks`, `op_requests`, `flag`: exact. They take the master as it is, and know no list of
//! nodes.
//!
//! Of the slots of marks and of the adoptions, each list has no more room than was asked for, or than there are of them.
//! Of a map, `ReservedMap` counts the room that was asked of it: std doesn't say how much a map makes at most.
#![tactic(auto)]

mod cut_epochs;
mod cuts;
mod epochs;
mod former;
mod inputs;
mod key;
mod line;
mod mark;
mod ops;
mod reserved_map;
mod slot;
mod slots;
mod term;

pub use former::Former;
pub use inputs::{flag, glanced, most_marks};
pub use line::Line;
pub use ops::op_requests;
pub use term::Term;

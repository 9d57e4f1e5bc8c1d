//! The journal of a node on a disk, as journals are gathered (`curp_gather`).
//!
//! `read_journal` is exact, both ways: where the disk has a journal of the title, its inputs are given to the node one
//! by one, and what it took is kept with what it did (`log_of`, in `specs/Items.antt`); else it says why there is none.
#![tactic(auto)]

mod reading;

pub use reading::read_journal;

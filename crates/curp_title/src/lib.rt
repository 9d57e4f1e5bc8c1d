//! The title of a node's journal: the node whose journal it is, and the header of the run that it is a node of.
//!
//! A title has 36 bytes: the letters CURPNODE, the version 1, the node, and the header's fields (`Title.antt`, this
//! project's own). `title_of` gives the title of a node and a header. `title_in` is exact both ways: it gives back the
//! node and the header (`some`), and none only where no such title is there (`none`). `laws`: a title has one node and
//! one header.
#![tactic(auto)]

pub mod laws;
mod title;

pub use title::{TITLE_LENGTH, Title, title_in, title_of};

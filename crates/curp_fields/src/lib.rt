//! The fields of each body as bytes: the table of messages below their frames.
//!
//! `Fields.antt` is the table: a tag and a list of fields for each body, over the formats of `curp_items`. `Part` is what
//! has fields: `write` and `read` are exact over the part's format, and `HasEncoding` says which parts have an encoding.
//! `has_fields` is the test of that for a body. `curp_wire` makes frames of these.
#![tactic(auto)]

mod answers;
mod asking;
mod config;
mod encoded;
mod keeping;
mod managing;
mod part;

pub use encoded::has_fields;
pub use part::{Part, read_parts, write_parts};

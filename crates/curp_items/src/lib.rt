//! Items as bytes: numbers, names, keys, values, lists, commands, requests, answers, entries and packages.
//!
//! `Format.antt` has what a format is: how values are encoded, and how the prefix of bytes is read, with the place of the
//! first fault; and what formats are made of (a tag, one behind the other, one of several, lists). What is encoded is read
//! back, whatever follows it, what is read is encoded so, and no encoding begins another: once for each of these
//! (`proofs/Formats`, `Combining`). `Items.antt` is the table, a line an item.
//!
//! - `pack_entry` encodes an entry that has an encoding. `encoded` tells how long the entry's encoding is with which bytes
//!   begin, `read_entry` reads that entry, and `read_request` the request of an Op: exact, and `read_entry` with the place
//!   of the fault. `laws`: no entry's encoding begins another's.
//! - `Reader`, `Writer`, `Item`, `read_list`, `read_package` and the others are what frames are read and written with.
#![tactic(auto)]

mod ascending;
mod bounds;
mod command;
mod entry;
mod fault;
mod item;
pub mod laws;
mod list;
mod multi;
mod names;
mod package;
mod packed;
mod reader;
mod strings;
mod writer;

pub use ascending::{Ascending, read_keys, read_pairs};
pub use bounds::Bounds;
pub use entry::{read_entry_at, write_entry};
pub use fault::Fault;
pub use item::Item;
pub use list::{read_list, write_list};
pub use names::is_node;
pub use package::{read_package, write_package};
pub use packed::{encoded, pack_entry, read_entry, read_request};
pub use reader::Reader;
pub use writer::Writer;

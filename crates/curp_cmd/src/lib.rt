//! Keys, values, commands and requests, and the store that gives one thread's answers.
//!
//! - `Key::new`, `Value::new`, `Command::multi`: clauses `ok` and one for each error: which bytes are a key or a value,
//!   which pairs make a multi-put, and why not. None takes memory.
//! - `Store::apply`, clauses `answer` and `after`; `get`; `pairs`: exact for all seven commands, over a finite map from
//!   keys to values (`specs/Store.antt`). `apply` takes no memory; `reserve` makes the room that it asks for; `pairs`
//!   sorts, and takes memory.
//! - `NodeId::client` and the other names of nodes; `==` of nodes and of ids: exact. `Hashes::of`: the hashes of a
//!   command's keys, in place.
//! - `key_hash`, `bytes_hash`: FNV-1a with 64 bits. `touches`, `conflict`: exact over the hashes of a command's keys.
//! - `{}` of keys, values, commands, answers, ids and nodes: exact (`specs/Text.antt`). `Decimal`: a number, its text
//!   alone. All have `Debug`, which no clause tells.
//! - `KeptCommand`: the command of a request, shared with all who hold the request; `Standby`: places that stand ready
//!   for it, so that keeping one takes no memory and doesn't fail. Contracts see the command.
//! - `Entry`, `Package`, `TablePart`: what logs and migrations carry; `copy` and `room` are exact.
//! - `laws::apart_commute`: two commands that don't conflict may be done in either order: the store is the same after
//!   both, and each gives the same answer. `laws::reads_change_nothing`, `laws::put_changes_one_key`;
//!   `laws::undone_changes_nothing`: a command that answers not-number, overflow, too-long or kept leaves the store as
//!   it was.
#![tactic(auto)]

mod command;
mod entry;
mod hash;
mod hashes;
mod in_place;
mod kept;
mod key;
pub mod laws;
mod migration;
mod node;
mod pairs;
mod store;
mod text;
mod value;

pub use command::{Answer, Command, Request, RequestId};
pub use entry::{Entry, pairs_put, room};
pub use hash::{bytes_hash, conflict, key_hash, touches};
pub use hashes::Hashes;
pub use kept::{KeptCommand, Standby};
pub use key::{Key, KeyError};
pub use migration::{Package, TablePart};
pub use node::{Keeper, NodeId, NodeKind};
pub use pairs::{MultiError, Pairs};
pub use store::Store;
pub use text::Decimal;
pub use value::{Value, ValueError};

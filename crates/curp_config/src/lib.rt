//! The configuration manager as a node: which nodes serve which partition, and what is being done to change it.
//!
//! `Manager` is a `Core`: its machine is in `specs/Machine.antt`, and is the manager's definition whole: recoveries,
//! replacements, migrations and expiries with their refusals, what is adopted, and what is sent again. `recover`, `replace`,
//! `migrate`, `expire` and `nudge` are its orders as calls: exact, by `Moves`, over that definition, with errors of their
//! own. An order that is refused needs no memory; after an error nothing has changed. `new`, as at opening, `copy`,
//! `config`, the next numbers, and `adoption` (the recovery that a message lets it adopt): exact.
#![tactic(auto)]

mod adopting;
mod error;
mod gone;
mod manager;
mod migrating;
mod nudging;
mod recovering;
mod replacing;

pub use error::{MigrateError, NoClient, RecoverError, ReplaceError};
pub use manager::Manager;

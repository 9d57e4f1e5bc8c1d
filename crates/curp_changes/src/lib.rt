//! What the configuration manager changes, without its state: the configuration at opening, the numbers and names that
//! are given once, recoveries, replacements and migrations in work, and what is sent for them.
//!
//! `Next::opening`, `after_recover`, `after_replace`, `after_migrate`: the numbers are those of the definition, and
//! there are none where one would rise past its end. `backup_names`, `witness_names`, `opening_config`,
//! `opening_hashes`, `move_range` and each message (`messages`): exact. What is in work is copied as it is, but for a
//! package that was taken, which copies share (`copy`, `TryCopy` of `Work`).
#![tactic(auto)]

pub mod messages;
mod migration;
mod moved;
pub mod names;
mod next;
mod opening;
mod shape;
mod work;

pub use migration::Migration;
pub use moved::move_range;
pub use next::Next;
pub use opening::{opening_config, opening_hashes, opening_work};
pub use shape::Shape;
pub use work::{Attempt, Doing, Replacement, Work};

//! A backup as a data structure: the entries of a master of its epoch, and the fence that keeps superseded masters out.
//!
//! `Backup::install`, `append`, `fence`: the state after and the answer are those of the definition. Running out of memory
//! comes only where entries would be stored or the log told, and then nothing has changed.
//! The oldest entries are kept packed, as their encodings; before it adds, `append` packs until fewer than 128 aren't packed,
//! or one of the first 64 of those has no encoding. `packed`: how many are, and the encodings.
#![tactic(auto)]

mod backup;
mod error;

pub use backup::Backup;
pub use error::{AppendError, Fenced};

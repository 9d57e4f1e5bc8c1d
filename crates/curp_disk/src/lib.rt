//! Disks as a journal sees them: what they read as, and what a crash may leave of it.
//!
//! - The trait `Disk` (`read`, `length`, `write_at`, `sync`): the clause `bytes` says what was read or written, `crash`
//!   what a crash may then leave, `time` the same of each moment in the call, `durable` that a crash after a sync leaves
//!   what the disk reads as, `cause` that a failure raises the count of faults, `told` that any other answer leaves it,
//!   and `sound` that a disk which has no failing call before it has none. `whole` is what one kind of disk adds.
//! - What of it speaks of bytes has the premise that the kind of disk tells them (`tells`).
//! - `FileDisk`: a file of the system. It tells no byte, and counts its faults. Of a sync `whole` says that it fails once one
//!   has failed.
//! - `MemoryDisk`: its listed calls fail. `StopDisk`: it fails from an armed call on; its `read` and `length` change nothing,
//!   and never fail (`same`, `goes`). Of both `whole` is exact: which
//!   writes and syncs were made, in their order; `crash`, exact, keeps the unsynced writes, or none of them.
#![tactic(auto)]

mod disk;
mod file;
mod medium;
mod memory;
mod stop;

pub use disk::{Did, Disk, Long};
pub use file::{FileDisk, FileError};
pub use medium::Call;
pub use memory::MemoryDisk;
pub use stop::StopDisk;

//! The serving master as a data structure: it answers an update at once where nothing that isn't synced touches its
//! keys, and everything else once all backups have it.
//!
//! `Master::on_message` and `Master::on_order`, clause `moves`: each call makes the move of a serving master's
//! definition, and hands out all that it sends. Out of memory, nothing has changed. `shell` takes the memory of a
//! master with its lists, and `begin` takes none, so a recovery ends only where its master's memory is there. `begin`,
//! `log`, `synced`, `captured`, `last_capture`: exact.
//!
//! - By its duties: `updates`, `reads`, `rounds`, `settling` (what backups answer), `collecting` and `suspects` (what
//!   witnesses may drop, and what they still hold), `switching` (new lists), `moving` (ranges that come and go, clients
//!   that are gone). `room` takes the memory of what comes in.
//! - A read waits with the value of its arrival, and is answered once each backup of the list has acknowledged the
//!   log's length of then and the round that was begun for it. All that a read costs is that round: what a backup answers
//!   looks at those alone that are answered by it. One that asks for an answer at once gets it where no entry that isn't
//!   synced touches its key, and costs no round; else it waits as any other.
//! - Its log is a `MasterLog`, and what waits for collection is a `Queue`. All memory of an input is taken before
//!   anything changes.
#![tactic(auto)]

mod collecting;
mod master;
mod moving;
mod reads;
mod replies;
mod room;
mod round;
mod rounds;
mod settling;
mod shell;
mod suspects;
mod switching;
mod updates;

pub use curp_rounds::Captured;
pub use master::Master;
use round::Round;
pub use shell::Shell;

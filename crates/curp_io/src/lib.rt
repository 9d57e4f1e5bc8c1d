//! The outside of curp: where bytes come from, where they go, and the lines that they make.
//!
//! - The traits `Source` (`take`) and `Sink` (`put`, `flush`): the clause `bytes` says what happens to the bytes that
//!   are left or held, `cause` that a failure raises the count of faults, `told` that any other answer leaves it, and
//!   `flushed` whether a flush was done after the last byte that a sink took.
//! - `Lines::next_line`, clause `bytes`: it gives the lines of the bytes in order, whatever the sizes of the pieces in
//!   which the source gives them, or says that a line is too long exactly where it has more than 65,536 bytes.
//!   `repeats`: after a fault or a line that is too long it answers the same for ever. `ready_line` gives the lines that
//!   were read ahead whole, exactly those (`no_feed`), and has no source to ask: so one can do something else before
//!   `next_line` waits for the source.
//! - `write_piece`, clause `bytes`: the whole piece was put, or a prefix of it after a refusal. `next_line` and
//!   `write_piece` carry `cause` and `told`.
//! - `specs/Streaming.antt`: what contracts of functions over any source and sink say of them, `Took`, `Wrote` and
//!   `TellsFault`.
//! - `MemorySource`, `MemorySink`: exact, also which calls fail, as a `Schedule` says (`turn`, exact). `SureSource`,
//!   `SureSink`: they never fail, since their count of faults is always 0. `StdSource` and `StdSink` keep the traits'
//!   clauses over any reader and writer of std; they tell bytes where these do. `verdict_of`, `put_of`: exact, which of
//!   std's errors is an interruption, running out of memory or a fault, and what a write's outcome is.
#![tactic(auto)]

mod lines;
mod memory;
mod schedule;
mod sink;
mod source;
mod standard;
mod sure;
mod window;
mod write;

pub use lines::{Lines, NextLine};
pub use memory::{MemorySink, MemorySource};
pub use schedule::{Schedule, Turn};
pub use sink::{Flushed, Put, Sink};
pub use source::{Source, Taken};
pub use standard::{StdSink, StdSource};
pub use sure::{SureSink, SureSource};
pub use write::{Written, write_piece};

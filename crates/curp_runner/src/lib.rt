//! How a run ends, and how its input is read and its text is written, whatever its lines say.
//!
//! - `Status`: how a run ended. `code` is the exit status; the text of a status, and which line is written to standard
//!   error (`Complaint`), are exact.
//! - `write` and `close`: a piece is written, and what was written is passed on, for whatever writes to a sink.
//!   `specs/Writing.antt` has what each function that writes a text promises: a run `WritesText` and `PassesOn`, and one
//!   that puts a part of it `PutsText`.
//! - `run` reads a script whose lines may say anything (`ScriptLine`), and has a `Player` do them one by one. It is exact
//!   over what the player's rules say of the bytes.
//!
//! `curp check`: reads a history and an order, and writes whether the order is one of the history.
//!
//! `check_claim`: as `docs/THEOREMS.md` has it, over `specs/Check.antt`.
#![tactic(auto)]

mod claim;
mod reading;
mod running;
mod status;
mod writing;

pub use claim::check_claim;
pub use reading::ScriptLine;
pub use running::{Player, run};
pub use status::{Complaint, Status};
pub use writing::{close, pass_on, write};

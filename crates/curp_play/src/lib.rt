//! `curp play`: reads a script, plays it, and writes what every node does and one order of the requests.
//!
//! `play_script`, and `play_history`, which writes what clients saw and the order as lines for `check`: as
//! `docs/THEOREMS.md` has them. Both are a world as a player of `curp_runner`'s `run`.
//!
//! Of a script that was made, `script_text` gives the lines of its header and steps (`text`). `write_played` writes such a
//! text, an empty line, and what `play_script` writes for just these bytes (`wrote`), or a part of that (`prefix`); so where
//! it ends well, the order that is printed is one of the requests (`order`).
#![tactic(auto)]

mod history;
mod lines;
mod play;
mod playing;

pub use history::play_history;
pub use lines::script_text;
pub use play::play_script;
pub use playing::write_played;

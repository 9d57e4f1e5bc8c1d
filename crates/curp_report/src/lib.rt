//! The text of a run: a line for each step, with the messages that it sent and what it completed behind it, and at the
//! end the order. Every line ends with a line feed.
//!
//! ```text
//! s1 done
//! m1 C1 M1 update 1.1 f1 e1 v1 put 61 31
//! m2 C1 W1 record 1.1 f1 e1 put 61 31
//! s2 refused no-message
//! order 0
//! ```
//!
//! `push_step_text`, `step_text`, `order_text`: exact, byte for byte.
//!
//! `specs/RunText.antt` has the text of a run, as a definition: the program writes it step by step, and worked examples are
//! computed on it.
#![tactic(auto)]

mod order;
mod step;

pub use order::order_text;
pub use step::{push_step_text, step_text};

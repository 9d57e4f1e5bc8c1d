//! Ranges of hashes: which hashes of 64 bits a store owns, as ranges are taken out, put in and united.
//!
//! A set of hashes is kept as spans in ascending order that neither overlap nor touch.
//!
//! - `owns`, `covers`, `take_out`, `put_in`, `unite`: exact over sets of hashes, with each error exactly where its
//!   cause holds, and then nothing changed.
//! - `laws::same_spans`: two lists of spans that own the same hashes are the same list. `laws::without_owns_the_rest`,
//!   `laws::with_range_owns_both`: what the spans without a range, and those with one, own. `take_out`, `put_in` and
//!   `unite` give just these spans.
//! - `Spans`: the spans as plain data, for messages; exact.
#![tactic(auto)]

pub mod laws;
mod listed;
mod ranges;
mod spans;

pub use listed::Spans;
pub use ranges::{PutError, Ranges, TakeError};

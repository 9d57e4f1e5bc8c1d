//! Whether an order is one of a history, and which clause fails where it isn't.
//!
//! - `check`, clauses `yes` and `no`: *yes* exactly where the order is one of the history (`IsOrder` of `curp_order`), and
//!   *no* with exactly the first clause that fails (`IsFirstBroken`). In the time of the history and the order, but for a
//!   logarithm.
//! - `laws::orders_are_short`: an order has no more requests than its history has events.
//! - `Claim`: a history, and the order that is claimed for it, line by line. `add`: what each line adds, and which is
//!   refused: exact (`with_line`); one that is refused changes nothing, and what is kept is always a history.
#![tactic(auto)]

mod claim;
mod events;
mod judge;
pub mod laws;
mod order;
mod packed;
mod places;
mod sweep;
mod verdict;

pub use claim::{CLAIM_LIMIT, Claim};
pub use judge::check;
pub use verdict::{Clause, Verdict};

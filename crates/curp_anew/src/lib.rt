//! The nodes of a run, and journals that were taken of them, given again to nodes made anew.
//!
//! - `LiveNodes` are the nodes of a header's world before any step, and behind them the fresh ones of so many recoveries.
//! - What comes out of a lock has no clause. So the inputs of journals are given again to such nodes, and these journals are
//!   handed out: `manager_anew` gives the manager's, and `others_anew` those of all others. Each gives nothing where one isn't
//!   such a node's.
//! - `did_all` says whether the clients did their work, and `all_have_few_pending` whether few requests were pending at a time.
//! - `takes_first` and `fresh_witness` serve whoever reads journals of single nodes.
#![tactic(auto)]

mod anew;
mod kinds;
mod nodes;
mod own;
mod work;

pub use anew::{OfKind, takes_first};
pub use kinds::{Others, manager_anew, others_anew};
pub use nodes::{LiveNodes, fresh_witness};
pub use work::{all_have_few_pending, did_all};

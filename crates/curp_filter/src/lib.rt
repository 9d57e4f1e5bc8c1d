//! A node as a filter: parcels come in, the node answers them, and what it says goes out as parcels.
//!
//! `run_node` gathers what came together, gives it to the node as one batch, and writes what is said of it, once the
//! node's journal has what the node took. `specs/Coming.antt` has which parcels come, `specs/Taking.antt` which of them
//! the node may take, `specs/Saying.antt` what is said of them, `specs/Keeping.antt` what the journal keeps and what a
//! crash leaves of it. None of them speaks of batches.
//!
//! - `answered`, `end`: where the input ends behind a parcel, all of it came, and the sink holds the text of all that
//!   came.
//! - `prefix`: whatever ended it, a part of the text of what came first was written, and a crash at any moment leaves
//!   the journal that was there, with the first of the inputs that the node took.
//! - `runs`: up to some input each was answered whole: the node stands where its inputs led it, and the journal has
//!   those that it took, in order (`Turned`). Of what came last a part of the text may be written, none of it before
//!   the journal has it all (`Unanswered`). Each end has its cause (`EndsBy`).
#![tactic(auto)]

mod answering;
mod came;
mod end;
mod filter;
mod gathering;
mod laws;

pub use answering::{told_of, write_text};
pub use came::{Came, PassedOver, Role};
pub use end::FilterEnd;
pub use filter::run_node;
pub use laws::only_own_is_taken;

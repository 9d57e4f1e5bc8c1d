//! What is proved of the nodes and of every script. Each law is the contract of a function with nothing in it, and a
//! caller has the law by the call; `docs/THEOREMS.md` has them all. Who uses the nodes or the definitions finds them
//! here, and doesn't see in which crate each is proved.

pub use curp_law_linear::{
    history_stands, kept_stands, late_replies_agree, order_grows, order_stands,
};
pub use curp_law_runs::{
    completed_is_completable, facts_kept, known_witnesses_differ, only_protocol_one,
    only_sent_to_nodes, pairs_good, silent_while_switching,
};
pub use curp_law_steps::trip::{
    one_round_trip, one_round_trip_read, premises_stay, read_trip_can_be_met, rejected_exactly,
    trip_can_be_met,
};
pub use curp_law_steps::{
    a_step_is_one_event, full_changes_nothing, only_the_named_node_moves, results_have_causes,
};
pub use curp_recover::laws::recovery_reports;

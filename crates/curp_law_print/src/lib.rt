//! A script that is printed is read back whole, and so are a history and an order. A law is the contract of a function with nothing in it, and a caller
//! has the law by the call. That the values of a step are in their ranges, as the law asks, its types say.
#![tactic(auto)]

mod ranges;

ghost use Rattle.std.specs.Prelude.{◌≡◌, ◌+◌, ◌≤◌, List, length, Some};
ghost use Rattle.curp_base.specs.Words.{Each};
ghost use Rattle.curp_io.specs.Text.{lines_of};
ghost use Rattle.curp_msg.specs.declared.script.Header.{Header};
ghost use Rattle.curp_msg.specs.declared.script.Step.{Step};
ghost use Rattle.curp_msg.specs.Script.{IsHeader};
ghost use Rattle.curp_script.specs.Printed.{NamesNode};
ghost use Rattle.curp_script.specs.Script.{Whole, script_of};
ghost use Rattle.curp_msg.specs.Limits.{step_limit};
ghost use Rattle.curp_check.specs.Claim.{claim_in, claim_limit};
ghost use Rattle.curp_law_print.specs.EventRanges.{AskedInRange, EventInRange};
ghost use Rattle.curp_law_print.specs.Ranges.{StepInRange};
ghost use Rattle.curp_order.specs.Order.{IsHistory, Asked};
ghost use Rattle.curp_order.specs.declared.Event.{Event};
ghost use Rattle.curp_script.specs.EventTexts.{claim_lines};
ghost use Rattle.curp_script.specs.Texts.{script_lines};

pub use ranges::{asked_is_in_range, event_is_in_range, step_is_in_range};

/// The lines that are printed for a header and steps are read as that header and those steps, to their end. Each value
/// is in its range, as the types have it.
pub fn printed_scripts_are_read()
    ensures { (h : Header) (ss : List Step) → IsHeader h
        → Each NamesNode ss → Each StepInRange ss → length ss ≤ step_limit
        → script_of (lines_of (script_lines h ss))
        ≡ record { header = Some h; body = record { steps = ss; ending = Whole } } }
{}

/// The lines that are printed for a history and for an order are read as that history and that order, to their end, where
/// they aren't too many. Each value is in its range, as the types have it.
pub fn printed_claims_are_read()
    ensures { (events : List Event) (order : List Asked) → Each EventInRange events → Each AskedInRange order
        → IsHistory events → length events + length order ≤ claim_limit
        → claim_in (claim_lines events order)
        ≡ record { claim = record { events = events; order = order }; ending = Whole } }
{}

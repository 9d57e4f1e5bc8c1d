ghost use Rattle.std.specs.Prelude.{◌≡◌, ◌≢◌, ◌↔◌, ◌+◌, ◌≤◌, ◌++◌, List, None, IfSome, IsTrue};
ghost use Rattle.curp_msg.specs.declared.machine.Local.{Local};
ghost use Rattle.curp_words.specs.Plan.{IsLivePlan};
ghost use Rattle.curp_law_weave.specs.Run.{ordered_by, ordered_in};
ghost use Rattle.curp_due.specs.Recoveries.{recoveries_from, recovery_of};

use curp_journal::{Arrived, Item};
use curp_msg::Local;
use curp_words::LivePlan;

/// What the manager is ordered for the recovery of a number, counted from 1. The partitions take turns.
pub fn recovery_of(plan: &LivePlan, number: u32) -> Local
    requires plan { IsLivePlan plan.now }
    requires number { 1 ≤ number }
    ensures { result ≡ recovery_of plan.now number }
{
    Local::Recover {
        part: (number - 1) % plan.parts + 1,
        backup: 1,
        witness: 1,
    }
}

/// Whether the manager was ordered just the recoveries of the plan, in their order.
#[tactic(auto, using(crate::proofs::Recovering::first_recovery, crate::proofs::Recovering::no_recovery, crate::proofs::Recovering::past_all))]
pub fn recovers_as_planned(plan: &LivePlan, items: &[Item]) -> bool
    requires { IsLivePlan plan.now }
    ensures { IsTrue result ↔ (ordered_in items.now ≡ recoveries_from plan.now 1) }
{
    let mut next = 1;
    for item in items {
        let Some(after) = next_after(plan, next, item) else {
            return false;
        };
        next = after;
    }
    next > plan.recoveries
}

/// The number of the recovery that is due after an item, where that of this number was due before. None where the item
/// is of another order.
fn next_after(plan: &LivePlan, due: u32, item: &Item) -> Option<u32>
    requires plan { IsLivePlan plan.now }
    requires due { (1 ≤ due) × (due ≤ plan.now.recoveries + 1) }
    ensures range { IfSome result (λ next. (1 ≤ next) × (next ≤ plan.now.recoveries + 1)) }
    ensures next { IfSome result (λ next.
        ordered_by item.now.input ++ recoveries_from plan.now next ≡ recoveries_from plan.now due) }
    ensures another { result ≡ None → (left : List Local)
        → ordered_by item.now.input ++ left ≢ recoveries_from plan.now due }
{
    let Arrived::Local(order, _) = &item.input else {
        return Some(due);
    };
    if due <= plan.recoveries && *order == recovery_of(plan, due) {
        Some(due + 1)
    } else {
        None
    }
}

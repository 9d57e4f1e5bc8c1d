ghost use Rattle.std.specs.Prelude.{◌≡◌, ◌≤◌, length, IfOk, IfErr};
ghost use Rattle.curp_merge.specs.Causes.{IsCause};
ghost use Rattle.curp_merge.specs.Held.{AllHeld};
ghost use Rattle.curp_merge.specs.Merging.{AreJournals, Merged, turn_count, weight_sent};
ghost use Rattle.curp_msg.specs.Limits.{step_limit, weight_limit};
ghost use Rattle.curp_base.specs.Failing.{IfBecause};

use crate::count::{turn_count, weight_sent};
use crate::mismatch::first_mismatch;
use crate::weave::weave;
use crate::{GatherError, Strand};
use curp_base::Failed;
use curp_msg::{STEP_LIMIT, Step, WEIGHT_LIMIT};
use std::alloc::Global;

/// The steps of journals, merged by their stamps; where these are the same, by the order of the strands.
pub fn merge(alloc: Global, strands: &[Strand<'_>]) -> Result<Vec<Step>, Failed<GatherError>>
    requires { AreJournals strands.now }
    ensures merged { IfOk result (λ steps. Merged strands.now steps.items) }
    ensures steps { IfOk result (λ steps. length steps.items ≡ turn_count strands.now) }
    ensures held { IfOk result (λ steps. AllHeld strands.now) }
    ensures few { IfOk result (λ steps. turn_count strands.now ≤ step_limit) }
    ensures light { IfOk result (λ steps. weight_sent strands.now ≤ weight_limit) }
    ensures cause { IfErr result (IfBecause (IsCause strands.now)) }
{
    if let Some(mismatch) = first_mismatch(alloc, strands)? {
        return Err(Failed::Because(GatherError::from(mismatch)));
    }
    merge_held(alloc, strands)
}

/// The same of journals that are known to hold each message that came: it isn't compared again, and there is no mismatch.
pub fn merge_held(alloc: Global, strands: &[Strand<'_>]) -> Result<Vec<Step>, Failed<GatherError>>
    requires journals { AreJournals strands.now }
    requires held { AllHeld strands.now }
    ensures merged { IfOk result (λ steps. Merged strands.now steps.items) }
    ensures steps { IfOk result (λ steps. length steps.items ≡ turn_count strands.now) }
    ensures few { IfOk result (λ steps. turn_count strands.now ≤ step_limit) }
    ensures light { IfOk result (λ steps. weight_sent strands.now ≤ weight_limit) }
    ensures cause { IfErr result (IfBecause (IsCause strands.now)) }
{
    if turn_count(strands) > STEP_LIMIT {
        return Err(Failed::Because(GatherError::TooManySteps));
    }
    let weight = weight_sent(strands);
    if weight > WEIGHT_LIMIT {
        return Err(Failed::Because(GatherError::TooLarge { weight }));
    }
    Ok(weave(alloc, strands)?)
}

ghost use Rattle.std.specs.Prelude.{◌≡◌, ◌≤◌, length, IfOk, IfErr};
ghost use Rattle.curp_gather.specs.Journals.{AreOf, IsScriptOf, journals_of};
ghost use Rattle.curp_merge.specs.Causes.{IsCause};
ghost use Rattle.curp_merge.specs.Held.{AllHeld};
ghost use Rattle.curp_merge.specs.Merging.{turn_count, weight_sent};
ghost use Rattle.curp_msg.specs.Limits.{step_limit, weight_limit};
ghost use Rattle.curp_base.specs.Failing.{IfBecause};

use crate::Journals;
use crate::strands::strands_of;
use curp_base::Failed;
use curp_merge::{GatherError, merge, merge_held};
use curp_msg::{Header, Step};
use std::alloc::Global;

/// The script that the journals of a header's nodes are. An error comes exactly by its cause, the first in the order of
/// `GatherError`; running out of memory comes before each. The header is there for the contract: how nodes begin by it is
/// what the journals show.
pub fn gather(
    alloc: Global,
    _header: &Header,
    journals: &Journals,
) -> Result<Vec<Step>, Failed<GatherError>>
    requires { AreOf _header.now journals.now }
    ensures script { IfOk result (λ steps. IsScriptOf _header.now (journals_of journals.now) steps.items) }
    ensures counted { IfOk result (λ steps. length steps.items ≡ turn_count (journals_of journals.now)) }
    ensures held { IfOk result (λ steps. AllHeld (journals_of journals.now)) }
    ensures few { IfOk result (λ steps. length steps.items ≤ step_limit) }
    ensures light { IfOk result (λ steps. weight_sent (journals_of journals.now) ≤ weight_limit) }
    ensures cause { IfErr result (IfBecause (IsCause (journals_of journals.now))) }
{
    let strands = strands_of(alloc, journals)?;
    merge(alloc, &strands)
}

/// The same of journals that are known to hold each message that came: there is no mismatch.
pub fn gather_held(
    alloc: Global,
    _header: &Header,
    journals: &Journals,
) -> Result<Vec<Step>, Failed<GatherError>>
    requires journals { AreOf _header.now journals.now }
    requires held { AllHeld (journals_of journals.now) }
    ensures script { IfOk result (λ steps. IsScriptOf _header.now (journals_of journals.now) steps.items) }
    ensures counted { IfOk result (λ steps. length steps.items ≡ turn_count (journals_of journals.now)) }
    ensures few { IfOk result (λ steps. length steps.items ≤ step_limit) }
    ensures light { IfOk result (λ steps. weight_sent (journals_of journals.now) ≤ weight_limit) }
    ensures cause { IfErr result (IfBecause (IsCause (journals_of journals.now))) }
{
    let strands = strands_of(alloc, journals)?;
    merge_held(alloc, &strands)
}

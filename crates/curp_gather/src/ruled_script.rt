ghost use Rattle.std.specs.Prelude.{◌≡◌, ◌≤◌, length, IfOk, IfErr};
ghost use Rattle.curp_gather.specs.Journals.{AreOf, IsScriptOf, journals_of};
ghost use Rattle.curp_merge.specs.Held.{AllHeld};
ghost use Rattle.curp_merge.specs.Merging.{turn_count, weight_sent};
ghost use Rattle.curp_msg.specs.Limits.{step_limit, weight_limit};
ghost use Rattle.curp_base.specs.Failing.{IfBecause};
ghost use Rattle.curp_gather.specs.Causes.{IsRuledCause};

use crate::{GatherError, Ruled, RuledError, gather_held, ruled_journals_hold, strands_of};
use curp_base::{Failed, NoMemory};
use curp_msg::{Header, Step};
use std::alloc::Global;

/// The script that the ruled journals of a header's nodes are. An error comes exactly by its cause, the first in the
/// order of `RuledError`; running out of memory comes before each. There is no mismatch, since ruled journals hold each message
/// that came.
pub fn gather_ruled(
    alloc: Global,
    header: &Header,
    ruled: &Ruled,
) -> Result<Vec<Step>, Failed<RuledError>>
    requires { AreOf header.now ruled.now }
    ensures script { IfOk result (λ steps. IsScriptOf header.now (journals_of ruled.now) steps.items) }
    ensures counted { IfOk result (λ steps. length steps.items ≡ turn_count (journals_of ruled.now)) }
    ensures few { IfOk result (λ steps. length steps.items ≤ step_limit) }
    ensures light { IfOk result (λ steps. weight_sent (journals_of ruled.now) ≤ weight_limit) }
    ensures cause { IfErr result (IfBecause (IsRuledCause (journals_of ruled.now))) }
    ensures held { IfOk result (λ steps. AllHeld (journals_of ruled.now)) }
{
    let journals = ruled.journals();
    hold(alloc, header, ruled)?;
    match gather_held(alloc, header, journals) {
        Ok(steps) => Ok(steps),
        Err(Failed::NoMemory) => Err(Failed::NoMemory),
        Err(Failed::Because(GatherError::Mismatch { .. })) => unreachable!(),
        Err(Failed::Because(GatherError::TooManySteps)) => {
            Err(Failed::Because(RuledError::TooManySteps))
        }
        Err(Failed::Because(GatherError::TooLarge { weight })) => {
            Err(Failed::Because(RuledError::TooLarge { weight }))
        }
    }
}

/// The journals hold each message that came.
fn hold(alloc: Global, _header: &Header, ruled: &Ruled) -> Result<(), NoMemory>
    requires { AreOf _header.now ruled.now }
    ensures { IfOk result (λ _. AllHeld (journals_of ruled.now)) }
{
    let strands = strands_of(alloc, ruled.journals())?;
    ruled_journals_hold(&strands);
    Ok(())
}

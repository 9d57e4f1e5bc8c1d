ghost use Rattle.std.specs.Prelude.{◌≡◌, ◌<◌, ◌≤◌, IfOk, OnOk, length};
ghost use Rattle.curp_merge.specs.Held.{AllHeld};
ghost use Rattle.curp_merge.specs.Merging.{AreJournals, Merged, weight_sent};
ghost use Rattle.curp_merge.specs.Weaving.{IsDue, Woven, turns_left};
ghost use Rattle.curp_msg.specs.Limits.{weight_limit};

use crate::Strand;
use crate::due::due;
use crate::step::next_step;
use crate::track::{Track, tracks};
use curp_base::NoMemory;
use curp_msg::Step;
use std::alloc::Global;

/// The steps of journals that hold all that was taken.
pub(crate) fn weave(alloc: Global, strands: &[Strand<'_>]) -> Result<Vec<Step>, NoMemory>
    requires are { AreJournals strands.now }
    requires held { AllHeld strands.now }
    requires light { weight_sent strands.now ≤ weight_limit }
    ensures { IfOk result (λ steps. Merged strands.now steps.items) }
{
    let mut tracks = tracks(alloc, strands.len())?;
    let mut steps = Vec::new(alloc);
    let mut next: u64 = 0;
    while let Some(at) = due(strands, &tracks) {
        next = take_one(strands, &mut tracks, &mut steps, next, at)?;
    }
    Ok(steps)
}

/// Takes the turn that is due, of the strand at that place. So far `next` messages were sent. Answers how many are sent
/// with those of this turn.
fn take_one(
    strands: &[Strand<'_>],
    tracks: &mut [Track],
    steps: &mut Vec<Step>,
    next: u64,
    at: usize,
) -> Result<u64, NoMemory>
    requires are { AreJournals strands.now }
    requires held { AllHeld strands.now }
    requires light { weight_sent strands.now ≤ weight_limit }
    requires lengths { length tracks.old ≡ length strands.now }
    requires due { IsDue strands.now tracks.old at }
    requires woven { Woven strands.now tracks.old steps.old.items next }
    ensures woven { IfOk result (λ after. Woven strands.now tracks.new steps.new.items after) }
    ensures less { OnOk result (turns_left strands.now tracks.new < turns_left strands.now tracks.old) }
{
    let strand = &strands[at];
    let taken = tracks[at].len();
    let made = next_step(strands, tracks, strand, taken)?;
    steps.push(made.step)?;
    let track = &mut tracks[at];
    track.push(next)?;
    Ok(next + made.sent)
}

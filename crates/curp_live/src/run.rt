ghost use Rattle.std.specs.Prelude.{◌≡◌, ◌≤◌, ◌<◌, ◌^◌, length, map, None, Ok, IfOk, IfSome};
ghost use Rattle.curp_base.specs.Words.{Each};
ghost use Rattle.curp_live.specs.Judging.{IsRuledRun};
ghost use Rattle.curp_live.specs.Live.{IsLiveRun};
ghost use Rattle.curp_words.specs.Plan.{IsLivePlan};

use crate::checking::checked;
use crate::once::once;
use curp_base::NoMemory;
use curp_cmd::Command;
use curp_gather::{Journals, Ruled};
use curp_ruled::ROOM;
use curp_seat::Observer;
use curp_words::LivePlan;
use std::alloc::Global;
use std::sync::Wait;
use std::thread::Threads;

/// Runs the nodes of a plan on threads until each client has done its list of `work`, and gives their journals. A thread
/// that can't be made is running out of memory.
pub fn live<R: Threads + Wait + Sync, G: Observer + Sync>(
    rt: &R,
    alloc: Global,
    plan: &LivePlan,
    work: &[Vec<Command>],
    observer: &G,
) -> Result<Ruled, NoMemory>
    requires plan { IsLivePlan plan.now }
    requires work { length work.now ≡ plan.now.clients }
    ensures { IfOk result (IsLiveRun plan.now (map (λ list. list.items) work.now)) }
{
    live_in_rooms(rt, alloc, ROOM, plan, work, observer)
}

/// The same, with room for so many envelopes in each inbox. Any room does.
pub fn live_in_rooms<R: Threads + Wait + Sync, G: Observer + Sync>(
    rt: &R,
    alloc: Global,
    room: u32,
    plan: &LivePlan,
    work: &[Vec<Command>],
    observer: &G,
) -> Result<Ruled, NoMemory>
    requires room { 1 ≤ room }
    requires plan { IsLivePlan plan.now }
    requires work { length work.now ≡ plan.now.clients }
    ensures { IfOk result (IsLiveRun plan.now (map (λ list. list.items) work.now)) }
{
    for _ in rt.forever() {
        if let Some(ruled) = tried(rt, alloc, room, plan, work, observer)? {
            return Ok(ruled);
        }
    }
    unreachable!()
}

// One run. None where the journals that were taken of its nodes aren't those of a ruled run of the plan (`judged`).
fn tried<R: Threads + Wait + Sync, G: Observer + Sync>(
    rt: &R,
    alloc: Global,
    room: u32,
    plan: &LivePlan,
    work: &[Vec<Command>],
    observer: &G,
) -> Result<Option<Ruled>, NoMemory>
    requires room { 1 ≤ room }
    requires plan { IsLivePlan plan.now }
    requires work { length work.now ≡ plan.now.clients }
    ensures { IfOk result (λ tried. IfSome tried (IsLiveRun plan.now (map (λ list. list.items) work.now))) }
{
    let taken = once(rt, alloc, room, plan, work, observer)?;
    judged(alloc, plan, work, taken)
}

/// The journals that are handed out of those that were taken. None exactly where these aren't those of a ruled run of the
/// plan.
fn judged(
    alloc: Global,
    plan: &LivePlan,
    work: &[Vec<Command>],
    taken: Journals,
) -> Result<Option<Ruled>, NoMemory>
    requires plan { IsLivePlan plan.now }
    requires work { length work.now ≡ plan.now.clients }
    ensures run { IfOk result (λ judged. IfSome judged (IsLiveRun plan.now (map (λ list. list.items) work.now))) }
    ensures cause { result ≡ Ok None → Each (λ list. length list.items < 2 ^ 32) work.now
        → IsRuledRun plan.now (map (λ list. list.items) work.now) taken → ⊥ }
{
    match checked(alloc, plan, work, taken)? {
        Some(journals) => Ruled::new(alloc, journals),
        None => Ok(None),
    }
}

// The steps of a run on threads.
ghost use Rattle.std.specs.Prelude.{◌≡◌, ◌≤◌, length, map, IfOk, IfSome, None, Ok};
ghost use Rattle.curp_gather.specs.Journals.{AreOf, IsScriptOf, journals_of};
ghost use Rattle.curp_run.specs.Live.{HasUnplayableRun, IsPlayable, IsUnplayable, Shows, work_of};
ghost use Rattle.curp_msg.specs.Limits.{step_limit};
ghost use Rattle.curp_words.specs.Plan.{IsLivePlan, live_header};

use curp_base::{Failed, NoMemory};
use curp_cmd::Command;
use curp_gather::{Ruled, RuledError, gather_ruled};
use curp_gen::workload;
use curp_live::live;
use curp_msg::{Header, Step};
use curp_seat::Observer;
use curp_words::LivePlan;
use std::alloc::{AllocError, Global};
use std::sync::Wait;
use std::thread::Threads;

/// The steps of a run on threads in which the clients of a plan do their work. A run whose script is too long
/// or too heavy is made anew.
pub(crate) fn steps_of_run<R: Threads + Wait + Sync, G: Observer + Sync>(
    rt: &R,
    alloc: Global,
    plan: &LivePlan,
    observer: &G,
) -> Result<Vec<Step>, NoMemory>
    requires { IsLivePlan plan.now }
    ensures shows { IfOk result (λ steps. Shows plan.now steps.items) }
    ensures few { IfOk result (λ steps. length steps.items ≤ step_limit) }
{
    let header = plan.header();
    let work = work_of(alloc, plan)?;
    for _ in rt.forever() {
        if let Some(steps) = steps_of_one(rt, alloc, plan, &header, &work, observer)? {
            return Ok(steps);
        }
    }
    unreachable!()
}

// The steps of one run. None where its script is too long or too heavy.
fn steps_of_one<R: Threads + Wait + Sync, G: Observer + Sync>(
    rt: &R,
    alloc: Global,
    plan: &LivePlan,
    header: &Header,
    work: &[Vec<Command>],
    observer: &G,
) -> Result<Option<Vec<Step>>, NoMemory>
    requires plan { IsLivePlan plan.now }
    requires header { header.now ≡ live_header plan.now }
    requires work { map (λ list. list.items) work.now ≡ work_of plan.now }
    requires count { length work.now ≡ plan.now.clients }
    ensures shows { IfOk result (λ found. IfSome found (λ steps. Shows plan.now steps.items)) }
    ensures few { IfOk result (λ found. IfSome found (λ steps. length steps.items ≤ step_limit)) }
    ensures cause { result ≡ Ok None → HasUnplayableRun plan.now }
{
    let ruled = live(rt, alloc, plan, work, observer)?;
    let steps = script_of(alloc, header, &ruled);
    drop(ruled);
    steps
}

// The steps of the script that ruled journals are. None exactly where it is too long or too heavy.
fn script_of(alloc: Global, header: &Header, ruled: &Ruled) -> Result<Option<Vec<Step>>, NoMemory>
    requires { AreOf header.now ruled.now }
    ensures script { IfOk result (λ found. IfSome found
        (λ steps. IsScriptOf header.now (journals_of ruled.now) steps.items)) }
    ensures playable { IfOk result (λ found. IfSome found (λ steps. IsPlayable (journals_of ruled.now))) }
    ensures unplayable { result ≡ Ok None → IsUnplayable (journals_of ruled.now) }
    ensures few { IfOk result (λ found. IfSome found (λ steps. length steps.items ≤ step_limit)) }
{
    match gather_ruled(alloc, header, ruled) {
        Ok(steps) => Ok(Some(steps)),
        Err(Failed::NoMemory) => Err(AllocError),
        Err(Failed::Because(RuledError::TooManySteps | RuledError::TooLarge { .. })) => Ok(None),
    }
}

// The work of each client, that of client 1 first.
fn work_of(alloc: Global, plan: &LivePlan) -> Result<Vec<Vec<Command>>, NoMemory>
    requires { IsLivePlan plan.now }
    ensures work { IfOk result (λ work. map (λ list. list.items) work.items ≡ work_of plan.now) }
    ensures count { IfOk result (λ work. length work.items ≡ plan.now.clients) }
{
    let mut work = Vec::new(alloc);
    for before in 0..plan.clients {
        work.reserve(1)?;
        work.push_reserved(workload(alloc, plan.number, before + 1, plan.commands)?);
    }
    Ok(work)
}

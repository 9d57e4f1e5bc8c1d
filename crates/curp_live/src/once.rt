ghost use Rattle.std.specs.Prelude.{◌≡◌, ◌≤◌, false};
ghost use Rattle.curp_words.specs.Plan.{IsLivePlan};

use curp_anew::LiveNodes;
use curp_base::NoMemory;
use curp_cmd::Command;
use curp_desk::Desk;
use curp_due::stops;
use curp_gather::Journals;
use curp_msg::Core;
use curp_seat::{Kept, Observer};
use curp_threads::{Desks, run_nodes};
use curp_words::LivePlan;
use std::alloc::Global;
use std::sync::Wait;
use std::thread::Threads;

/// Runs the nodes of a plan until the work is done, and gives their journals.
pub(crate) fn once<R: Threads + Wait + Sync, G: Observer + Sync>(
    rt: &R,
    alloc: Global,
    room: u32,
    plan: &LivePlan,
    work: &[Vec<Command>],
    observer: &G,
) -> Result<Journals, NoMemory>
    requires room { 1 ≤ room }
    requires plan { IsLivePlan plan.now }
{
    let nodes = LiveNodes::opening(alloc, &plan.header(), plan.recoveries)?;
    let desks = Desks::new(
        alloc,
        nodes.manager,
        nodes.clients,
        nodes.masters,
        nodes.backups,
        nodes.witnesses,
    )?;
    run_nodes(rt, alloc, room, plan, work, &desks, observer)?;
    journals_of(alloc, plan, desks)
}

/// The nodes with their journals. The journal of one that the driver stopped for a recovery ends in its stop.
fn journals_of(alloc: Global, plan: &LivePlan, desks: Desks) -> Result<Journals, NoMemory> {
    let clients = kept(alloc, plan, desks.clients)?;
    let masters = kept(alloc, plan, desks.masters)?;
    let backups = kept(alloc, plan, desks.backups)?;
    let witnesses = kept(alloc, plan, desks.witnesses)?;
    Ok(Journals {
        manager: desks.manager.into_kept(),
        clients,
        masters,
        backups,
        witnesses,
    })
}

fn kept<N: Core + Drop>(
    alloc: Global,
    plan: &LivePlan,
    desks: Vec<Desk<N>>,
) -> Result<Vec<Kept<N>>, NoMemory> {
    let mut journals = Vec::with_capacity(alloc, desks.len())?;
    for desk in desks {
        journals.push(stopped_as_planned(plan, desk.into_kept()))?;
    }
    Ok(journals)
}

/// A node with its journal, which ends in a stop where the driver stops the node.
fn stopped_as_planned<N: Core>(plan: &LivePlan, mut kept: Kept<N>) -> Kept<N>
    requires { kept.ended ≡ false }
{
    if stops(plan, kept.id()) {
        kept.mark_stop();
    }
    kept
}

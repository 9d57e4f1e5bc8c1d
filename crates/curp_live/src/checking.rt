ghost use Rattle.std.specs.Prelude.{◌≡◌, ◌↔◌, ◌<◌, ◌≤◌, ◌^◌, length, map, None, Ok, IfOk, IfSome, IsSomeAnd, IsTrue};
ghost use Rattle.curp_base.specs.Words.{Each};
ghost use Rattle.curp_msg.specs.Script.{IsHeader};
ghost use Rattle.curp_gather.specs.Journals.{AreOf};
ghost use Rattle.curp_live.specs.Live.{AllEndAsPlanned, EndsAsPlanned, IsLiveRun, IsTakenRun};
ghost use Rattle.curp_live.specs.Taken.{AreAllAnew, AreAllTaken, AreHandedOut};
ghost use Rattle.curp_words.specs.Plan.{IsLivePlan, live_header};

use curp_anew::{LiveNodes, all_have_few_pending, did_all, manager_anew, others_anew};
use curp_base::NoMemory;
use curp_cmd::{Command, NodeKind};
use curp_due::{recovers_as_planned, stops};
use curp_gather::Journals;
use curp_msg::{Core, Header};
use curp_seat::Kept;
use curp_words::LivePlan;
use std::alloc::Global;

/// The same journals of nodes as at opening. None exactly where they differ from a run of the plan in which the work was
/// done, with few requests pending at a time.
pub fn checked(
    alloc: Global,
    plan: &LivePlan,
    work: &[Vec<Command>],
    taken: Journals,
) -> Result<Option<Journals>, NoMemory>
    requires plan { IsLivePlan plan.now }
    requires work { length work.now ≡ plan.now.clients }
    ensures run { IfOk result (λ checked. IfSome checked (IsLiveRun plan.now (map (λ list. list.items) work.now))) }
    ensures same { Each (λ list. length list.items < 2 ^ 32) work.now
        → IsTakenRun plan.now (map (λ list. list.items) work.now) taken
        → IfOk result (λ checked. IsSomeAnd checked (AreHandedOut (live_header plan.now) taken)) }
    ensures cause { result ≡ Ok None → Each (λ list. length list.items < 2 ^ 32) work.now
        → IsTakenRun plan.now (map (λ list. list.items) work.now) taken → ⊥ }
{
    let Some(journals) = all_as_at_opening(alloc, &plan.header(), plan.recoveries, taken)? else {
        return Ok(None);
    };
    if did_all(work, &journals.clients)
        && all_have_few_pending(&journals.clients)
        && recovers_as_planned(plan, journals.manager.journal())
        && all_end_as_planned(plan, &journals)
    {
        Ok(Some(journals))
    } else {
        Ok(None)
    }
}

/// The same journals, begun with a header's nodes as they are before any step, so that they can be gathered. None where
/// one isn't such a node's.
#[tactic(auto, using(crate::proofs::Runs::are_of))]
pub fn anew_at_opening(
    alloc: Global,
    header: &Header,
    taken: Journals,
) -> Result<Option<Journals>, NoMemory>
    requires { IsHeader header.now }
    ensures are { IfOk result (λ made. IfSome made (λ journals. AreOf header.now journals)) }
    ensures same { AreAllTaken header.now 0 taken
        → IfOk result (λ made. IsSomeAnd made (AreHandedOut header.now taken)) }
{
    all_as_at_opening(alloc, header, 0, taken)
}

/// The same journals of a header's nodes as at opening, and of the fresh ones of so many recoveries that took something.
/// None where one isn't such a node's.
fn all_as_at_opening(
    alloc: Global,
    header: &Header,
    recoveries: u32,
    taken: Journals,
) -> Result<Option<Journals>, NoMemory>
    requires header { IsHeader header.now }
    requires recoveries { recoveries ≤ 8 }
    ensures anew { IfOk result (λ made. IfSome made (λ journals. AreAllAnew header.now recoveries journals)) }
    ensures same { AreAllTaken header.now recoveries taken
        → IfOk result (λ made. IsSomeAnd made (AreHandedOut header.now taken)) }
{
    let nodes = LiveNodes::opening(alloc, header, recoveries)?;
    let parts = header.parts as usize;
    let keepers = (header.parts * header.f) as usize;
    let clients = (
        NodeKind::Client,
        header.clients as usize,
        nodes.clients,
        taken.clients,
    );
    let masters = (NodeKind::Master, parts, nodes.masters, taken.masters);
    let backups = (NodeKind::Backup, keepers, nodes.backups, taken.backups);
    let witnesses = (NodeKind::Witness, keepers, nodes.witnesses, taken.witnesses);
    let Some(others) = others_anew(alloc, clients, masters, backups, witnesses)? else {
        return Ok(None);
    };
    let Some(manager) = manager_anew(nodes.manager, taken.manager)? else {
        return Ok(None);
    };
    let ((clients, masters), (backups, witnesses)) = others;
    Ok(Some(Journals {
        manager,
        clients,
        masters,
        backups,
        witnesses,
    }))
}

/// Whether just those nodes stopped that the driver is to stop.
fn all_end_as_planned(plan: &LivePlan, journals: &Journals) -> bool
    ensures { IsTrue result ↔ AllEndAsPlanned plan.now journals.now }
{
    end_as_planned(plan, &journals.clients)
        && end_as_planned(plan, &journals.masters)
        && end_as_planned(plan, &journals.backups)
        && end_as_planned(plan, &journals.witnesses)
}

fn end_as_planned<N: Core>(plan: &LivePlan, kepts: &[Kept<N>]) -> bool
    ensures { IsTrue result ↔ Each (EndsAsPlanned plan.now) kepts.now }
{
    for kept in kepts {
        if kept.ended() != stops(plan, kept.id()) {
            return false;
        }
    }
    true
}

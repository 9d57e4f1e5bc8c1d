// What the driver does in a run: a list that follows from the plan alone.
ghost use Rattle.std.specs.Prelude.{◌≡◌, ◌≤◌, ◌∷◌, ◌++◌, [], map, IfOk, OnOk};
ghost use Rattle.curp_base.specs.Words.{numbers_from};
ghost use Rattle.curp_words.specs.Plan.{IsLivePlan};
ghost use Rattle.curp_due.specs.Driving.{completed_before, deeds_of, fetch_by, recovery_deeds, requests_of};

use crate::{recovery_of, stops};
use curp_base::NoMemory;
use curp_cmd::NodeId;
use curp_msg::Local;
use curp_words::LivePlan;
use std::alloc::Global;

/// What the driver waits for.
#[derive(Clone, Copy)]
pub enum Need {
    /// So many requests are completed.
    Completed(u64),
    /// The master of that number serves.
    Serving(u32),
    /// Every client has taken a configuration that names the master of that number.
    Configured(u32),
}

/// One of the things that the driver does.
#[derive(Drop)]
pub enum Deed {
    /// It waits for what it needs to go on, and hears a stamp.
    Await(Need),
    /// It stops a node for good.
    Stop(NodeId),
    /// It gives a node an order, with the stamp that it heard last.
    Order(NodeId, Local),
}

/// All that the driver does in a run of a plan, in order.
#[tactic(auto, using(crate::proofs::Driven::recovered_next))]
pub fn deeds(alloc: Global, plan: &LivePlan) -> Result<Vec<Deed>, NoMemory>
    requires { IsLivePlan plan.now }
    ensures { IfOk result (λ deeds. deeds.items ≡ deeds_of plan.now) }
{
    let mut deeds = Vec::new(alloc);
    for before in 0..plan.recoveries {
        add_recovery(plan, before + 1, &mut deeds)?;
    }
    deeds.push(Deed::Await(Need::Completed(requests_of(plan))))?;
    Ok(deeds)
}

/// Adds those for the recovery of a number, which names a fresh master.
fn add_recovery(plan: &LivePlan, number: u32, deeds: &mut Vec<Deed>) -> Result<(), NoMemory>
    requires plan { IsLivePlan plan.now }
    requires low { 1 ≤ number }
    requires high { number ≤ plan.now.recoveries }
    ensures { OnOk result (deeds.new.items ≡ deeds.old.items ++ recovery_deeds plan.now number) }
{
    let replaced = NodeId::master(number);
    let fresh = plan.parts + number;
    deeds.push(Deed::Await(Need::Completed(completed_before(plan, number))))?;
    if stops(plan, replaced) {
        deeds.push(Deed::Stop(replaced))?;
    }
    deeds.push(Deed::Order(NodeId::manager(), recovery_of(plan, number)))?;
    // A configuration that is asked for before still names the master that is replaced.
    deeds.push(Deed::Await(Need::Serving(fresh)))?;
    add_fetches(plan.clients, deeds)?;
    deeds.push(Deed::Await(Need::Configured(fresh)))?;
    Ok(())
}

/// Adds an order to fetch for each of so many clients.
#[tactic(auto, using(crate::proofs::Driven::told_next))]
fn add_fetches(clients: u32, deeds: &mut Vec<Deed>) -> Result<(), NoMemory>
    ensures { OnOk result (deeds.new.items ≡ deeds.old.items ++ map fetch_by (numbers_from 1 clients)) }
{
    for before in 0..clients {
        deeds.push(Deed::Order(NodeId::client(before + 1), Local::Fetch))?;
    }
    Ok(())
}

/// How many requests the clients of a plan invoke.
fn requests_of(plan: &LivePlan) -> u64
    ensures { result ≡ requests_of plan.now }
{
    plan.clients as u64 * plan.commands as u64
}

/// How many requests are completed before the recovery of a number is ordered: recoveries are spread evenly over them.
fn completed_before(plan: &LivePlan, number: u32) -> u64
    requires plan { IsLivePlan plan.now }
    requires number { number ≤ plan.now.recoveries }
    ensures { result ≡ completed_before plan.now number }
{
    number as u64 * requests_of(plan) / (plan.recoveries as u64 + 1)
}

// Nodes on threads: that each run is made once, or at most once more, and ends, with small rooms too, and that its nodes don't wait for each other.
ghost use Rattle.std.specs.Prelude.{◌≡◌, length, IfOk, IsTrue};
ghost use Rattle.curp_gather.specs.Journals.{AreOf};
ghost use Rattle.curp_msg.specs.Script.{IsHeader};
ghost use Rattle.curp_words.specs.Plan.{IsLivePlan, live_header};

use crate::observer::Watching;
use curp_base::{Failed, NoMemory};
use curp_cmd::Command;
use curp_gather::{Ruled, RuledError, gather_ruled};
use curp_gen::workload;
use curp_live::{live, live_in_rooms};
use curp_msg::{Header, Protocol};
use curp_words::LivePlan;
use std::alloc::{AllocError, Global};
use std::sync::Wait;
use std::test::Fail;
use std::thread::Threads;

// The work of each client, that of client 1 first.
fn work_of(alloc: Global, plan: &LivePlan) -> Result<Vec<Vec<Command>>, NoMemory> {
    let mut work = Vec::new(alloc);
    for client in 1..=plan.clients {
        work.push(commands(alloc, plan, client)?)?;
    }
    Ok(work)
}

fn commands(alloc: Global, plan: &LivePlan, client: u32) -> Result<Vec<Command>, NoMemory> {
    workload(alloc, plan.number, client, plan.commands)
}

// How many steps the script of a run has. None where it can't be played.
fn steps<R: Threads + Wait + Sync>(
    rt: &R,
    alloc: Global,
    room: Option<u32>,
    plan: &LivePlan,
    observer: &Watching,
) -> Result<Option<usize>, NoMemory> {
    let work = work_of(alloc, plan)?;
    let steps = steps_of_work(rt, alloc, room, plan, &work, observer);
    drop(work);
    steps
}

fn steps_of_work<R: Threads + Wait + Sync>(
    rt: &R,
    alloc: Global,
    room: Option<u32>,
    plan: &LivePlan,
    work: &[Vec<Command>],
    observer: &Watching,
) -> Result<Option<usize>, NoMemory> {
    if !is_plan(plan) {
        return Ok(None);
    }
    if work.len() != plan.clients as usize {
        return Ok(None);
    }
    let ruled = ran(rt, alloc, room, plan, work, observer)?;
    let steps = gathered(alloc, &plan.header(), &ruled);
    drop(ruled);
    steps
}

// Whether the plan has the number 1, and each other number in its range.
fn is_plan(plan: &LivePlan) -> bool
    ensures { IsTrue result → IsLivePlan plan.now }
{
    plan.number == 1
        && is_shape(plan)
        && plan.clients <= 16
        && 1 <= plan.commands
        && plan.commands <= 100
        && plan.recoveries <= 8
}

fn is_shape(plan: &LivePlan) -> bool
    ensures { IsTrue result → IsHeader (live_header plan.now) }
{
    (1..=64).contains(&plan.clients)
        && (1..=5).contains(&plan.f)
        && (1..=16).contains(&plan.parts)
        && (1..=1024).contains(&plan.sets)
        && (1..=16).contains(&plan.ways)
}

// A run, whose inboxes have the room of the program's where no other is given.
fn ran<R: Threads + Wait + Sync>(
    rt: &R,
    alloc: Global,
    room: Option<u32>,
    plan: &LivePlan,
    work: &[Vec<Command>],
    observer: &Watching,
) -> Result<Ruled, NoMemory>
    requires plan { IsLivePlan plan.now }
    requires work { length work.now ≡ plan.now.clients }
    ensures { IfOk result (AreOf (live_header plan.now)) }
{
    match room {
        Some(room) if room > 0 => live_in_rooms(rt, alloc, room, plan, work, observer),
        _ => live(rt, alloc, plan, work, observer),
    }
}

fn gathered(alloc: Global, header: &Header, ruled: &Ruled) -> Result<Option<usize>, NoMemory>
    requires { AreOf header.now ruled.now }
{
    match gather_ruled(alloc, header, ruled) {
        Ok(steps) => Ok(Some(steps.len())),
        Err(Failed::NoMemory) => Err(AllocError),
        Err(Failed::Because(RuledError::TooManySteps | RuledError::TooLarge { .. })) => Ok(None),
    }
}

// Whether the run of a plan can be played and was made once.
fn is_made_once<R: Threads + Wait + Sync>(
    rt: &R,
    alloc: Global,
    plan: &LivePlan,
    observer: &Watching,
) -> Result<bool, NoMemory> {
    Ok(steps(rt, alloc, None, plan, observer)?.is_some() && observer.heard_one_run())
}

// Four clients with 50 commands each.
fn of_four(protocol: Protocol, recoveries: u32) -> LivePlan {
    LivePlan {
        f: 2,
        clients: 4,
        parts: 1,
        protocol,
        recoveries,
        ..LivePlan::default()
    }
}

// Whether four clients are done in a run that was made once, and no node steps when it has ended.
fn four_end<R: Threads + Wait + Sync>(
    rt: &R,
    alloc: Global,
    protocol: Protocol,
    recoveries: u32,
) -> Result<bool, NoMemory> {
    let observer = Watching::new(false);
    let plan = of_four(protocol, recoveries);
    Ok(is_made_once(rt, alloc, &plan, &observer)? && observer.later_steps(rt) == 0)
}

#[test]
fn a_run_is_made_once_and_then_no_node_steps(rt: HostRuntime) -> Result<(), Fail> {
    for protocol in [Protocol::One, Protocol::Two] {
        for recoveries in [0, 1, 8] {
            assert!(rt; four_end(&rt, rt.alloc(), protocol, recoveries)?);
        }
    }
    Ok(())
}

// Nodes run beside each other: the first steps of a master and of a witness are due at one time.
#[test]
fn a_master_and_a_witness_meet(rt: HostRuntime) -> Result<(), Fail> {
    let observer = Watching::new(true);
    let plan = LivePlan::default();
    assert!(rt; steps(&rt, rt.alloc(), None, &plan, &observer)?.is_some());
    assert!(rt; observer.heard_them_meet());
    Ok(())
}

// Sixteen clients, one partition and three recoveries.
fn of_sixteen(protocol: Protocol) -> LivePlan {
    LivePlan {
        clients: 16,
        parts: 1,
        commands: 10,
        protocol,
        ..LivePlan::default()
    }
}

// Each of 25 runs of sixteen clients is made once.
fn runs_end<R: Threads + Wait + Sync>(
    rt: &R,
    alloc: Global,
    protocol: Protocol,
) -> Result<(), Fail> {
    let plan = of_sixteen(protocol);
    for _ in 0..25 {
        if !is_made_once(rt, alloc, &plan, &Watching::new(false))? {
            return Err(Fail::new("a run that isn't made once"));
        }
    }
    Ok(())
}

// A hundred runs in each protocol, in eight tests.

#[test]
fn runs_1_to_25_of_sixteen_clients_are_made_once(rt: HostRuntime) -> Result<(), Fail> {
    runs_end(&rt, rt.alloc(), Protocol::One)
}

#[test]
fn runs_26_to_50_of_sixteen_clients_are_made_once(rt: HostRuntime) -> Result<(), Fail> {
    runs_end(&rt, rt.alloc(), Protocol::One)
}

#[test]
fn runs_51_to_75_of_sixteen_clients_are_made_once(rt: HostRuntime) -> Result<(), Fail> {
    runs_end(&rt, rt.alloc(), Protocol::One)
}

#[test]
fn runs_76_to_100_of_sixteen_clients_are_made_once(rt: HostRuntime) -> Result<(), Fail> {
    runs_end(&rt, rt.alloc(), Protocol::One)
}

#[test]
fn runs_1_to_25_in_protocol_2_are_made_once(rt: HostRuntime) -> Result<(), Fail> {
    runs_end(&rt, rt.alloc(), Protocol::Two)
}

#[test]
fn runs_26_to_50_in_protocol_2_are_made_once(rt: HostRuntime) -> Result<(), Fail> {
    runs_end(&rt, rt.alloc(), Protocol::Two)
}

#[test]
fn runs_51_to_75_in_protocol_2_are_made_once(rt: HostRuntime) -> Result<(), Fail> {
    runs_end(&rt, rt.alloc(), Protocol::Two)
}

#[test]
fn runs_76_to_100_in_protocol_2_are_made_once(rt: HostRuntime) -> Result<(), Fail> {
    runs_end(&rt, rt.alloc(), Protocol::Two)
}

// Each number of backups, of partitions and of recoveries, with few commands.
fn of_shape(f: u32, parts: u32, recoveries: u32) -> LivePlan {
    let protocol = if recoveries % 2 == 0 {
        Protocol::One
    } else {
        Protocol::Two
    };
    LivePlan {
        f,
        clients: 3,
        parts,
        commands: 9,
        protocol,
        recoveries,
        ..LivePlan::default()
    }
}

// Whether the runs of a shape with each number of recoveries are each made twice at most.
fn is_made_twice_at_most<R: Threads + Wait + Sync>(
    rt: &R,
    alloc: Global,
    f: u32,
    parts: u32,
) -> Result<bool, NoMemory> {
    for recoveries in [0, 1, 2, 3, 8] {
        let observer = Watching::new(false);
        let plan = of_shape(f, parts, recoveries);
        let is_script = steps(rt, alloc, None, &plan, &observer)?.is_some();
        if !is_script || !observer.heard_two_runs_at_most() {
            return Ok(false);
        }
    }
    Ok(true)
}

// A run is made anew only where its journals aren't those of a run; each shape is made twice at most.

#[test]
fn runs_of_each_number_of_partitions_are_made_twice_at_most(rt: HostRuntime) -> Result<(), Fail> {
    for parts in 1..=16 {
        assert!(rt; is_made_twice_at_most(&rt, rt.alloc(), 1, parts)?);
    }
    Ok(())
}

#[test]
fn runs_of_each_number_of_backups_are_made_twice_at_most(rt: HostRuntime) -> Result<(), Fail> {
    for f in 1..=5 {
        assert!(rt; is_made_twice_at_most(&rt, rt.alloc(), f, 3)?);
    }
    Ok(())
}

// Inboxes with room for one envelope: no run stands still.
#[test]
fn a_hundred_runs_with_rooms_of_one_envelope_end(rt: HostRuntime) -> Result<(), Fail> {
    let plan = LivePlan {
        commands: 20,
        ..of_four(Protocol::One, 3)
    };
    for _ in 0..100 {
        let observer = Watching::new(false);
        let steps = steps(&rt, rt.alloc(), Some(1), &plan, &observer)?;
        assert!(rt; steps.is_some_and(|steps| steps > 80));
    }
    Ok(())
}

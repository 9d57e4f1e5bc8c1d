// A manager whose disk stops: what it decided is sent again once its journal is opened.
use crate::build::{TITLE, add, begun_disk, must_hold, opened, order_fails, order_tells};
use curp_changes::Shape;
use curp_disk::StopDisk;
use curp_durable::{Durable, DurableError, SIZE_LIMIT};
use curp_journal::Arrived;
use curp_law_lives::{batch_happens, crash_happens, lives_are_one_run, opening_happens};
use curp_msg::Local;
use curp_nodes::ManagerNode;
use std::alloc::Global;
use std::process::Abort;

pub(crate) fn manager(rt: &impl Abort, alloc: Global) -> ManagerNode {
    let shape = Shape {
        f: 1,
        parts: 1,
        clients: 64,
    };
    ManagerNode::new(alloc, &shape).expect(rt, "no memory")
}

pub(crate) fn reopened(
    rt: &impl Abort,
    alloc: Global,
    disk: StopDisk,
) -> Durable<ManagerNode, StopDisk> {
    opened(rt, alloc, disk, manager(rt, alloc))
}

/// The manager with an empty journal, of which the disk stops at that call.
fn begun(rt: &impl Abort, alloc: Global, call: u64) -> Durable<ManagerNode, StopDisk> {
    let mut disk = begun_disk(rt, alloc);
    // The sync of the opening is a call too.
    disk.arm(call.wrapping_add(1));
    reopened(rt, alloc, disk)
}

pub(crate) fn recover() -> Local {
    Local::Recover {
        part: 1,
        backup: 1,
        witness: 1,
    }
}

/// The disk of a manager that began a recovery, once it stopped at the last of the four calls that keep an expiry.
fn stopped(rt: &impl Abort, alloc: Global) -> StopDisk {
    let mut durable = begun(rt, alloc, 8);
    let is_begun = order_tells(rt, alloc, &mut durable, recover(), (0, 3));
    must_hold(rt, "a recovery", is_begun);
    let fault = DurableError::DiskFault;
    let is_told = order_fails(rt, alloc, &mut durable, Local::Expire(1), fault);
    must_hold(rt, "the disk stops", is_told);
    durable.into_disk()
}

/// Behind a crash the manager has so many decisions, and sends so many messages on a nudge.
fn try_crash(rt: &impl Abort, alloc: Global, kept: bool, count: u64, sent: usize) {
    let mut disk = stopped(rt, alloc);
    disk.crash(kept);
    let mut durable = reopened(rt, alloc, disk);
    let tells = order_tells(rt, alloc, &mut durable, Local::Nudge, (count, sent));
    drop(durable);
    must_hold(rt, "behind a crash", tells);
}

/// The three messages of the recovery, and that of the expiry where the crash kept it.
#[test]
fn a_manager_sends_again_what_it_decided(rt: HostRuntime) {
    let alloc = rt.alloc();
    try_crash(&rt, alloc, true, 2, 4);
    try_crash(&rt, alloc, false, 1, 3);
}

#[test]
fn a_manager_whose_disk_stops_is_spent(rt: HostRuntime) {
    let alloc = rt.alloc();
    let mut durable = begun(&rt, alloc, 1);
    for why in [DurableError::DiskFault, DurableError::Spent] {
        let is_told = order_fails(&rt, alloc, &mut durable, Local::Nudge, why);
        must_hold(&rt, "it is spent", is_told);
    }
    drop(durable);
}

/// The calls by which a node's lives are spoken of do what those of its journal do.
#[test]
fn a_manager_lives_by_the_law(rt: HostRuntime) {
    let alloc = rt.alloc();
    let mut durable = by_law(&rt, alloc);
    expire_by_law(&rt, alloc, &mut durable);
    crash_happens(&durable);
    lives_are_one_run::<ManagerNode>();
    let tells = order_tells(&rt, alloc, &mut durable, Local::Nudge, (1, 3));
    drop(durable);
    must_hold(&rt, "its nudge", tells);
}

fn by_law(rt: &impl Abort, alloc: Global) -> Durable<ManagerNode, StopDisk> {
    let disk = begun_disk(rt, alloc);
    let opened = opening_happens(alloc, disk, TITLE, manager(rt, alloc), SIZE_LIMIT);
    opened.ok().expect(rt, "no journal")
}

fn expire_by_law(rt: &impl Abort, alloc: Global, durable: &mut Durable<ManagerNode, StopDisk>) {
    let mut inputs = Vec::new(alloc);
    add(rt, &mut inputs, Arrived::Local(Local::Expire(1), 0));
    must_hold(rt, "an expiry", batch_happens(durable, inputs).is_ok());
}

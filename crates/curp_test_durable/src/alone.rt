// Inputs that come alone: orders for a manager whose disk stops, and messages for a backup.
use crate::build::{begun_disk, fence, must_hold, opened};
use crate::manager::{manager, recover, reopened};
use curp_base::Failed;
use curp_disk::StopDisk;
use curp_durable::{Durable, DurableError};
use curp_journal::{Arrived, Named};
use curp_msg::{Done, Local};
use curp_nodes::{BackupNode, ManagerNode};
use std::alloc::Global;
use std::process::Abort;

/// Whether an input is refused by that number, and so many messages go out by it.
fn is_done(done: Result<Done, Failed<DurableError>>, refused: u8, sent: usize) -> bool {
    match done {
        Ok(done) => {
            let is_done = done.refused == refused && done.sent.len() == sent;
            drop(done);
            is_done
        }
        Err(_) => false,
    }
}

fn does(
    durable: &mut Durable<ManagerNode, StopDisk>,
    order: Local,
    refused: u8,
    sent: usize,
) -> bool {
    is_done(durable.on_order(order, 0), refused, sent)
}

fn takes(
    durable: &mut Durable<BackupNode, StopDisk>,
    named: Named,
    refused: u8,
    sent: usize,
) -> bool {
    is_done(durable.on(Arrived::Message(named)), refused, sent)
}

/// Whether an order isn't done, for this reason.
fn fails(durable: &mut Durable<ManagerNode, StopDisk>, order: Local, why: DurableError) -> bool {
    match durable.on_order(order, 0) {
        Ok(done) => {
            drop(done);
            false
        }
        Err(error) => error == Failed::Because(why),
    }
}

fn arm(durable: &mut Durable<ManagerNode, StopDisk>, call: u64) {
    durable.arm(call);
}

/// The manager with an empty journal.
fn begun(rt: &impl Abort, alloc: Global) -> Durable<ManagerNode, StopDisk> {
    reopened(rt, alloc, begun_disk(rt, alloc))
}

/// A manager by whose journal so many clients are gone.
fn without(rt: &impl Abort, alloc: Global, clients: u32) -> Durable<ManagerNode, StopDisk> {
    let mut durable = begun(rt, alloc);
    for client in 1..=clients {
        let is_gone = does(&mut durable, Local::Expire(client), 0, 1);
        must_hold(rt, "a client goes", is_gone);
    }
    durable
}

/// The disk of a journal that stopped at that call, while one client more went.
fn stopped(rt: &impl Abort, alloc: Global, clients: u32, call: u64) -> StopDisk {
    let mut durable = without(rt, alloc, clients);
    arm(&mut durable, call);
    let order = Local::Expire(clients.saturating_add(1));
    let is_told = fails(&mut durable, order, DurableError::DiskFault);
    must_hold(rt, "the disk stops", is_told);
    let is_spent = fails(&mut durable, Local::Nudge, DurableError::Spent);
    must_hold(rt, "the journal is spent", is_spent);
    durable.into_disk()
}

/// An order is kept where the last call was made and what was written since the last sync is kept. A nudge sends two
/// messages, and one for each client that is gone.
fn try_crash(rt: &impl Abort, alloc: Global, clients: u32, call: u64, kept: bool) {
    let mut disk = stopped(rt, alloc, clients, call);
    disk.crash(kept);
    let mut durable = reopened(rt, alloc, disk);
    let more = if call == 4 && kept { 1 } else { 0 };
    let gone = (clients as usize).saturating_add(more);
    must_hold(rt, "so many are gone", durable.count() == gone as u64);
    let is_sent = does(&mut durable, Local::Nudge, 0, gone.saturating_add(2));
    must_hold(rt, "so many messages are sent", is_sent);
    drop(durable);
}

#[test]
fn an_order_is_kept_once_its_commit_is(rt: HostRuntime) {
    for clients in 0..10 {
        for call in 1..=4 {
            try_crash(&rt, rt.alloc(), clients, call, false);
            try_crash(&rt, rt.alloc(), clients, call, true);
        }
    }
}

/// There is no client 65. The disk, which would stop at its next call, isn't called.
#[test]
fn a_refused_order_is_not_kept(rt: HostRuntime) {
    let mut durable = without(&rt, rt.alloc(), 2);
    arm(&mut durable, 1);
    let is_refused = does(&mut durable, Local::Expire(65), 1, 0);
    must_hold(&rt, "it is refused", is_refused);
    must_hold(&rt, "two were kept", durable.count() == 2);
    must_hold(&rt, "it goes on", !durable.spent());
    drop(durable);
}

/// Whether that is the next master's number, of a configuration that didn't change.
fn is_at(manager: &ManagerNode, next_master: u32) -> bool {
    manager.next_master() == next_master && manager.config().serial == 1
}

/// The manager is lent with all that it took.
#[test]
fn the_manager_is_at_hand(rt: HostRuntime) {
    let mut durable = begun(&rt, rt.alloc());
    must_hold(&rt, "a recovery", does(&mut durable, recover(), 0, 3));
    must_hold(&rt, "the manager", is_at(durable.node(), 3));
    drop(durable);
}

#[test]
fn a_fresh_manager_has_given_no_number(rt: HostRuntime) {
    let fresh = manager(&rt, rt.alloc());
    must_hold(&rt, "a fresh manager", is_at(&fresh, 2));
    drop(fresh);
}

fn backup(rt: &impl Abort, alloc: Global) -> Durable<BackupNode, StopDisk> {
    let node = BackupNode::new(alloc, 1, 1);
    opened(rt, alloc, begun_disk(rt, alloc), node)
}

/// A fence is answered by a log. No stamp is left behind the highest.
#[test]
fn messages_come_alone(rt: HostRuntime) {
    let mut durable = backup(&rt, rt.alloc());
    try_messages(&rt, &mut durable);
    drop(durable);
}

fn has_taken(durable: &Durable<BackupNode, StopDisk>, count: u64, stamp: u64) -> bool {
    durable.count() == count && durable.last_stamp() == stamp
}

fn try_messages(rt: &impl Abort, durable: &mut Durable<BackupNode, StopDisk>) {
    let done = durable.on_message(fence(2, 7));
    must_hold(rt, "the first", is_done(done, 0, 1));
    must_hold(rt, "one was taken", has_taken(durable, 1, 8));
    let is_refused = takes(durable, fence(3, u64::MAX), 255, 0);
    must_hold(rt, "the highest stamp", is_refused);
    must_hold(rt, "the second", takes(durable, fence(3, 1), 0, 1));
    must_hold(rt, "two were taken", has_taken(durable, 2, 9));
}

//! What the tests build alike, by calls of which they know nothing. A test ends where something isn't built.
use curp_base::Failed;
use curp_cmd::NodeId;
use curp_disk::{Disk, StopDisk};
use curp_durable::{Answered, Durable, DurableError, OpenError, OpenFailed, SIZE_LIMIT, format};
use curp_journal::{Arrived, Named};
use curp_msg::{Body, Core, Local, Message};
use std::alloc::Global;
use std::process::Abort;

/// The title of each journal.
pub(crate) const TITLE: &[u8] = b"node";

/// Ends a test in which that doesn't hold.
pub(crate) fn must_hold(rt: &impl Abort, what: &str, holds: bool) {
    if !holds {
        rt.panic(what)
    }
}

/// A disk with an empty journal.
pub(crate) fn begun_disk(rt: &impl Abort, alloc: Global) -> StopDisk {
    let mut disk = StopDisk::new(alloc);
    must_hold(rt, "a journal", format(alloc, &mut disk, TITLE).is_ok());
    disk
}

fn why<D: Disk + Drop>(failed: OpenFailed<D>) -> Failed<OpenError> {
    let error = failed.error;
    drop(failed);
    error
}

/// The journal of a disk, with its node.
pub(crate) fn opened<N: Core + Drop, D: Disk + Drop>(
    rt: &impl Abort,
    alloc: Global,
    disk: D,
    node: N,
) -> Durable<N, D> {
    opened_as(alloc, disk, TITLE, node, SIZE_LIMIT).expect(rt, "no journal")
}

/// The journal of this title, with a limit to its size.
pub(crate) fn opened_as<N: Core + Drop, D: Disk + Drop>(
    alloc: Global,
    disk: D,
    title: &[u8],
    node: N,
    size_limit: u64,
) -> Result<Durable<N, D>, Failed<OpenError>> {
    match Durable::open(alloc, disk, title, node, size_limit) {
        Ok(durable) => Ok(durable),
        Err(failed) => Err(why(failed)),
    }
}

pub(crate) fn add(rt: &impl Abort, inputs: &mut Vec<Arrived>, input: Arrived) {
    inputs.push(input).expect(rt, "no memory")
}

/// How many inputs the node took before an order, and how many messages go out by it.
pub(crate) type Told = (u64, usize);

/// Gives the node an order.
pub(crate) fn ordered<N: Core + Drop, D: Disk>(
    rt: &impl Abort,
    alloc: Global,
    durable: &mut Durable<N, D>,
    order: Local,
) -> Result<Told, Failed<DurableError>> {
    let mut inputs = Vec::new(alloc);
    add(rt, &mut inputs, Arrived::Local(order, 0));
    let answers = durable.on_all(inputs)?;
    let told = told_by(&answers);
    drop(answers);
    Ok(told)
}

fn told_by(answers: &[Answered]) -> Told {
    match answers {
        [Answered::Made { step, item }] => (step.saturating_sub(1), item.done.sent.len()),
        _ => (u64::MAX, 0),
    }
}

/// Whether an order tells that.
pub(crate) fn order_tells<N: Core + Drop, D: Disk>(
    rt: &impl Abort,
    alloc: Global,
    durable: &mut Durable<N, D>,
    order: Local,
    told: Told,
) -> bool {
    match ordered(rt, alloc, durable, order) {
        Ok(found) => found == told,
        Err(_) => false,
    }
}

/// Whether an order isn't done, for this reason.
pub(crate) fn order_fails<N: Core + Drop, D: Disk>(
    rt: &impl Abort,
    alloc: Global,
    durable: &mut Durable<N, D>,
    order: Local,
    why: DurableError,
) -> bool {
    match ordered(rt, alloc, durable, order) {
        Ok(_) => false,
        Err(error) => error == Failed::Because(why),
    }
}

/// A fence of that epoch for the first backup, with this stamp.
pub(crate) fn fence(epoch: u32, stamp: u64) -> Named {
    Named {
        from: NodeId::master(1),
        step: 1,
        place: 1,
        stamp,
        message: Message {
            from: NodeId::master(1),
            to: NodeId::backup(1),
            body: Body::Fence { epoch },
        },
    }
}

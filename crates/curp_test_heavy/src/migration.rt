// A migration of 25,000 pairs.
use crate::build::{COUNT, Journal, again, give, hand, must, must_hold, stands};
use curp_base::{AscendingPairs, Boxed, Shared, pairs_ascend};
use curp_changes::Shape;
use curp_cmd::{Key, NodeId, Package, TablePart, Value};
use curp_durable::Answered;
use curp_journal::Arrived;
use curp_msg::{Body, Local, Message, Parcel};
use curp_nodes::ManagerNode;
use curp_wire::is_light;
use std::alloc::Global;
use std::process::Abort;

fn manager(rt: &impl Abort, alloc: Global) -> ManagerNode {
    let shape = Shape {
        f: 1,
        parts: 2,
        clients: 1,
    };
    must(rt, ManagerNode::new(alloc, &shape))
}

fn pairs(rt: &impl Abort, alloc: Global) -> AscendingPairs<Key, Value> {
    let value = must(rt, Value::new(b"1"));
    let mut pairs = Vec::new(alloc);
    for number in 0..COUNT {
        let key = must(rt, Key::new(&number.to_be_bytes()));
        must(rt, pairs.push((key, value)));
    }
    assert!(rt; pairs_ascend(&pairs));
    AscendingPairs::new(pairs)
}

/// What the first master answers to that order of the manager.
fn taken(rt: &impl Abort, alloc: Global, order: &Message) -> Message {
    let Body::TakeOut(take) = &order.body else {
        rt.panic("no order to take out")
    };
    let package = Package {
        lo: take.lo,
        hi: take.hi,
        pairs: pairs(rt, alloc),
        table: TablePart::new(alloc),
    };
    let parcel = Parcel {
        migration: take.migration,
        package: must(rt, Shared::new(alloc, package)),
    };
    Message {
        from: NodeId::master(1),
        to: NodeId::manager(),
        body: Body::Taken(must(rt, Boxed::new(alloc, parcel))),
    }
}

fn pairs_in(message: &Message) -> usize {
    match &message.body {
        Body::GiveIn(parcel) => parcel.get().package.pairs.len(),
        _ => 0,
    }
}

/// The order to take the lower half of the hashes out.
fn take_out(rt: &impl Abort, alloc: Global, manager: &mut Journal<ManagerNode>) -> Message {
    let order = Local::Migrate {
        lo: 0,
        hi: 1000,
        to: 2,
    };
    let sent = give(
        rt,
        alloc,
        manager,
        Arrived::Local(order, 0),
        NodeId::master(1),
    );
    sent.expect(rt, "no order")
}

/// By the rules the manager sends a start and an adoption for each of the two partitions, and the package once more.
fn try_nudge(rt: &impl Abort, alloc: Global, manager: &mut Journal<ManagerNode>) {
    let mut inputs = Vec::new(alloc);
    must(rt, inputs.push(Arrived::Local(Local::Nudge, 0)));
    let answers = must(rt, manager.on_all(inputs));
    must_hold(rt, "five messages", is_nudged(&answers));
    drop(answers);
}

/// Whether that is the third input, by which five messages go out.
fn is_nudged(answers: &[Answered]) -> bool {
    match answers {
        [Answered::Made { step, item }] => *step == 3 && item.done.sent.len() == 5,
        _ => false,
    }
}

#[test]
fn a_large_migration_goes_on(rt: HostRuntime) {
    let alloc = rt.alloc();
    let mut journal = stands(&rt, alloc, manager(&rt, alloc));
    let order = take_out(&rt, alloc, &mut journal);
    let message = taken(&rt, alloc, &order);
    drop(order);
    try_given(&rt, alloc, &mut journal, message);
    try_nudge(&rt, alloc, &mut journal);
    let count = again(&rt, alloc, journal, manager(&rt, alloc));
    must_hold(&rt, "three were taken", count == 3);
}

/// The manager gives all pairs to the other master.
fn try_given(rt: &impl Abort, alloc: Global, journal: &mut Journal<ManagerNode>, taken: Message) {
    must_hold(rt, "heavy", !is_light(&taken));
    let give = hand(rt, alloc, journal, taken, NodeId::master(2));
    let give = give.expect(rt, "not given");
    must_hold(rt, "all pairs", pairs_in(&give) == COUNT as usize);
    drop(give);
}

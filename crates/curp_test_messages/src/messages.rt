//! Messages are copied whole and weigh what they carry, and any node takes inputs.

use crate::asker::{Asker, give, give_all, order};
use crate::build::{id, key, must, request, right, right_at, shared, times, value};
use crate::carried::{config, entries, nodes, op, parcel, put_two, recover};
use curp_base::Items;
use curp_cmd::{Command, Entry, NodeId, Request};
use curp_msg::{
    Append, Ask, Body, Collected, FenceAnswer, FenceReply, Gc, GcAnswer, Local, Message, Prepare,
    weight,
};
use std::alloc::Global;
use std::process::Abort;

fn says(body: Body) -> Message {
    Message {
        from: NodeId::manager(),
        to: NodeId::manager(),
        body,
    }
}

fn configuration(rt: &impl Abort, alloc: Global, serial: u32, count: u32) -> Body {
    Body::Configuration {
        config: config(rt, alloc, serial, count),
    }
}

fn tells(rt: &impl Abort, alloc: Global, serial: u32) -> Message {
    says(configuration(rt, alloc, serial, 1))
}

fn try_order(rt: &impl Abort, asker: &mut Asker, local: &Local, refused: u8, sent: usize) {
    let done = must(rt, order(asker, local));
    right(rt, done.refused == refused, "order (1)");
    right(rt, done.sent.len() == sent, "order (2)");
    drop(done);
}

fn told(rt: &impl Abort, alloc: Global) -> Vec<Message> {
    let mut messages = Vec::new(alloc);
    for serial in [1, 3, 2] {
        must(rt, messages.push(tells(rt, alloc, serial)));
    }
    messages
}

#[test]
fn any_node_takes_inputs(rt: HostRuntime) {
    let messages = told(&rt, rt.alloc());
    let mut asker = Asker::new(rt.alloc());
    must(&rt, give_all(&mut asker, &messages));
    drop(messages);
    right(&rt, asker.serial() == 3, "any node takes inputs");
    try_order(&rt, &mut asker, &Local::Fetch, 0, 1);
    try_order(&rt, &mut asker, &Local::Sync, 1, 0);
}

fn give_second(rt: &impl Abort, askers: &mut [Asker; 2], message: &Message) {
    let done = must(rt, give(askers, 1, message));
    drop(done);
}

#[test]
fn one_of_several_nodes_gets_a_message(rt: HostRuntime) {
    let mut askers = [Asker::new(rt.alloc()), Asker::new(rt.alloc())];
    let message = tells(&rt, rt.alloc(), 7);
    give_second(&rt, &mut askers, &message);
    drop(message);
    right(
        &rt,
        askers[0].serial() == 0,
        "one of several nodes gets a message (1)",
    );
    right(
        &rt,
        askers[1].serial() == 7,
        "one of several nodes gets a message (2)",
    );
}

fn update(rt: &impl Abort, alloc: Global, request: &Request) -> Body {
    Body::Update(Ask {
        request: shared(rt, alloc, request),
        epoch: 1,
        version: 1,
    })
}

fn append(entries: Items<Entry>) -> Body {
    Body::Append(Append {
        epoch: 1,
        base: 0,
        round: 1,
        entries,
    })
}

fn fence_answer(rt: &impl Abort, alloc: Global) -> Body {
    Body::FenceAnswer(FenceAnswer {
        epoch: 1,
        answer: FenceReply::Log(entries(rt, alloc)),
    })
}

fn gc(rt: &impl Abort, alloc: Global) -> Body {
    let ids = must(rt, Vec::from_slice(alloc, &[id(1, 1), id(1, 1)]));
    Body::Gc(Gc {
        epoch: 1,
        ids: Items::new(ids),
    })
}

fn collected(rt: &impl Abort, alloc: Global) -> Body {
    let suspects = times(rt, alloc, &put_two(rt), 1);
    Body::Collected(Collected {
        epoch: 1,
        answer: GcAnswer::Suspects(Items::new(suspects)),
    })
}

fn frozen_answer(rt: &impl Abort, alloc: Global, request: &Request, count: u32) -> Body {
    Body::FrozenAnswer {
        requests: Items::new(times(rt, alloc, request, count)),
    }
}

fn prepare(rt: &impl Abort, alloc: Global) -> Body {
    Body::Prepare(Prepare {
        version: 2,
        backups: nodes(rt, alloc),
        witnesses: nodes(rt, alloc),
    })
}

fn try_copy(rt: &impl Abort, alloc: Global, body: Body, want: u64) {
    let message = says(body);
    right_at(rt, weight(&message) == want, "copy (1)", want);
    let copy = must(rt, message.copy(alloc));
    drop(message);
    right_at(rt, weight(&copy) == want, "copy (2)", want);
    drop(copy);
}

#[test]
fn copies_weigh_what_they_carry(rt: HostRuntime) {
    try_requests(&rt, rt.alloc());
    try_entries(&rt, rt.alloc());
    try_orders(&rt, rt.alloc());
}

fn try_requests(rt: &impl Abort, alloc: Global) {
    let request = put_two(rt);
    try_copy(rt, alloc, update(rt, alloc, &request), 1);
    try_copy(rt, alloc, gc(rt, alloc), 3);
    try_copy(rt, alloc, collected(rt, alloc), 2);
    try_copy(rt, alloc, frozen_answer(rt, alloc, &request, 2), 3);
}

fn try_entries(rt: &impl Abort, alloc: Global) {
    try_copy(rt, alloc, append(entries(rt, alloc)), 11);
    try_copy(rt, alloc, fence_answer(rt, alloc), 11);
    try_copy(rt, alloc, Body::Taken(parcel(rt, alloc)), 6);
    try_copy(rt, alloc, Body::GiveIn(parcel(rt, alloc)), 6);
}

fn try_orders(rt: &impl Abort, alloc: Global) {
    try_copy(rt, alloc, Body::Fetch, 1);
    try_copy(rt, alloc, configuration(rt, alloc, 1, 1), 3);
    try_copy(rt, alloc, prepare(rt, alloc), 1);
    try_copy(rt, alloc, Body::Recover(recover(rt, alloc)), 1);
}

// Four pairs of the longest keys and values.
fn largest_request(rt: &impl Abort) -> Request {
    let value = value(rt, &[255; 128]);
    let pairs = [
        (key(rt, &[1; 32]), value),
        (key(rt, &[2; 32]), value),
        (key(rt, &[3; 32]), value),
        (key(rt, &[4; 32]), value),
    ];
    request(1, 1, must(rt, Command::multi(&pairs)))
}

// A log has a thousand updates.
fn largest_append(rt: &impl Abort, alloc: Global, request: &Request) -> Body {
    let mut log = Vec::new(alloc);
    for acknowledge in 1..=1000 {
        must(rt, log.push(op(rt, alloc, request, acknowledge)));
    }
    append(Items::new(log))
}

// There are as many partitions as may be, and all slots of a witness are full.
#[test]
fn the_largest_messages_are_copied(rt: HostRuntime) {
    let alloc = rt.alloc();
    let largest = largest_request(&rt);
    try_copy(&rt, alloc, update(&rt, alloc, &largest), 1);
    try_copy(&rt, alloc, configuration(&rt, alloc, u32::MAX, 16), 33);
    try_copy(&rt, alloc, largest_append(&rt, alloc, &largest), 5001);
    try_copy(
        &rt,
        alloc,
        frozen_answer(&rt, alloc, &largest, 1024 * 16),
        16385,
    );
}

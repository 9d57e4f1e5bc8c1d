// A recovery of 25,000 entries.
use crate::build::{COUNT, Journal, again, hand, must, must_hold, stands};
use curp_base::{Boxed, Items, Shared};
use curp_cmd::{Command, Entry, Key, NodeId, Request, RequestId, Value};
use curp_msg::{Append, Body, Core, FenceAnswer, FenceReply, Message, Recover};
use curp_nodes::{BackupNode, MasterNode};
use curp_wire::is_light;
use std::alloc::Global;
use std::process::Abort;

/// The node sends something to that one.
fn try_answered<N: Core + Drop>(
    rt: &impl Abort,
    alloc: Global,
    durable: &mut Journal<N>,
    message: Message,
    to: NodeId,
) {
    let sent = hand(rt, alloc, durable, message, to);
    must_hold(rt, "an answer", sent.is_some());
    drop(sent);
}

fn put(rt: &impl Abort, alloc: Global, seq: u32) -> Entry {
    let key = must(rt, Key::new(b"a"));
    let value = must(rt, Value::new(b"1"));
    let request = Request {
        id: RequestId { client: 1, seq },
        first: seq,
        command: Command::Put(key, value),
    };
    Entry::Op {
        request: must(rt, Shared::of(alloc, &request)),
        acknowledge: seq,
    }
}

fn appended(rt: &impl Abort, alloc: Global) -> Message {
    let mut entries = Vec::new(alloc);
    for seq in 1..=COUNT {
        must(rt, entries.push(put(rt, alloc, seq)));
    }
    Message {
        from: NodeId::master(1),
        to: NodeId::backup(1),
        body: Body::Append(Append {
            epoch: 1,
            base: 0,
            round: 1,
            entries: Items::new(entries),
        }),
    }
}

fn one(rt: &impl Abort, alloc: Global, node: NodeId) -> Items<NodeId> {
    Items::new(must(rt, Vec::from_slice(alloc, &[node])))
}

fn recover(rt: &impl Abort, alloc: Global) -> Message {
    let recover = Recover {
        part: 1,
        epoch: 2,
        version: 1,
        backup: NodeId::backup(1),
        witness: NodeId::witness(1),
        backups: one(rt, alloc, NodeId::backup(2)),
        witnesses: one(rt, alloc, NodeId::witness(2)),
        lo: 0,
        hi: u64::MAX,
    };
    Message {
        from: NodeId::manager(),
        to: NodeId::master(2),
        body: Body::Recover(must(rt, Boxed::new(alloc, recover))),
    }
}

fn frozen(alloc: Global) -> Message {
    Message {
        from: NodeId::witness(1),
        to: NodeId::master(2),
        body: Body::FrozenAnswer {
            requests: Items::new(Vec::new(alloc)),
        },
    }
}

/// How many entries a message tells of.
fn entries_in(message: &Message) -> usize {
    match &message.body {
        Body::Append(append) => append.entries.len(),
        Body::FenceAnswer(
            FenceAnswer {
                answer: FenceReply::Log(entries),
                ..
            },
        ) => entries.len(),
        _ => 0,
    }
}

/// The fence's answer of a backup that has all the entries.
fn whole_log(rt: &impl Abort, alloc: Global, fence: Message) -> Message {
    let mut backup = stands(rt, alloc, BackupNode::new(alloc, 1, 1));
    let append = appended(rt, alloc);
    try_answered(rt, alloc, &mut backup, append, NodeId::master(1));
    let log = hand(rt, alloc, &mut backup, fence, NodeId::master(2));
    let count = again(rt, alloc, backup, BackupNode::new(alloc, 1, 1));
    must_hold(rt, "two were taken", count == 2);
    log.expect(rt, "no log")
}

#[test]
fn a_large_partition_is_recovered(rt: HostRuntime) {
    let alloc = rt.alloc();
    let mut master = stands(&rt, alloc, MasterNode::fresh(alloc, 2));
    let fence = hand(
        &rt,
        alloc,
        &mut master,
        recover(&rt, alloc),
        NodeId::backup(1),
    );
    let log = whole_log(&rt, alloc, fence.expect(&rt, "no fence"));
    let append = append_of(&rt, alloc, &mut master, log);
    let stored = stored_by(&rt, alloc, append);
    try_answered(&rt, alloc, &mut master, stored, NodeId::manager());
    let count = again(&rt, alloc, master, MasterNode::fresh(alloc, 2));
    must_hold(&rt, "four were taken", count == 4);
}

fn try_all(rt: &impl Abort, message: &Message) {
    must_hold(rt, "all entries", entries_in(message) == COUNT as usize);
}

/// What the master appends at its new backup once it heard the log and of the witness.
fn append_of(
    rt: &impl Abort,
    alloc: Global,
    master: &mut Journal<MasterNode>,
    log: Message,
) -> Message {
    try_all(rt, &log);
    must_hold(rt, "heavy", !is_light(&log));
    let early = hand(rt, alloc, master, log, NodeId::backup(2));
    must_hold(rt, "nothing yet", early.is_none());
    drop(early);
    let late = hand(rt, alloc, master, frozen(alloc), NodeId::backup(2));
    late.expect(rt, "no append")
}

fn stored_by(rt: &impl Abort, alloc: Global, append: Message) -> Message {
    try_all(rt, &append);
    let mut backup = stands(rt, alloc, BackupNode::new(alloc, 2, 2));
    let stored = hand(rt, alloc, &mut backup, append, NodeId::master(2));
    drop(backup);
    stored.expect(rt, "no answer")
}

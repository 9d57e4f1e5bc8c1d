//! Nodes on journals, whose messages cross as frames. A test ends where something isn't built.
use curp_cmd::NodeId;
use curp_disk::MemoryDisk;
use curp_durable::{Answered, Durable, SIZE_LIMIT, format};
use curp_journal::{Arrived, Named};
use curp_msg::{Core, Message};
use curp_wire::{decode, encode};
use std::alloc::Global;
use std::process::Abort;

/// How many entries, or pairs, cross in one message.
pub(crate) const COUNT: u32 = 25_000;

/// The title of each journal.
const TITLE: &[u8] = b"node";

pub(crate) type Journal<N> = Durable<N, MemoryDisk>;

/// Ends a test in which that doesn't hold.
pub(crate) fn must_hold(rt: &impl Abort, what: &str, holds: bool) {
    if !holds {
        rt.panic(what)
    }
}

pub(crate) fn must<T, E: Drop>(rt: &impl Abort, answer: Result<T, E>) -> T {
    match answer {
        Ok(value) => value,
        Err(_) => rt.panic("an error"),
    }
}

/// The journal of a disk, with its node.
fn opened<N: Core + Drop>(rt: &impl Abort, alloc: Global, disk: MemoryDisk, node: N) -> Journal<N> {
    must(rt, Durable::open(alloc, disk, TITLE, node, SIZE_LIMIT))
}

/// A fresh node on an empty journal.
pub(crate) fn stands<N: Core + Drop>(rt: &impl Abort, alloc: Global, node: N) -> Journal<N> {
    let mut disk = must(rt, MemoryDisk::new(alloc, &[]));
    must(rt, format(alloc, &mut disk, TITLE));
    opened(rt, alloc, disk, node)
}

/// How many inputs a fresh node took once its journal is opened again.
pub(crate) fn again<N: Core + Drop>(
    rt: &impl Abort,
    alloc: Global,
    durable: Journal<N>,
    node: N,
) -> u64 {
    let durable = opened(rt, alloc, durable.into_disk(), node);
    let count = durable.count();
    drop(durable);
    count
}

/// A message behind its frame.
fn crossed(rt: &impl Abort, alloc: Global, message: &Message) -> Message {
    let frame = must(rt, encode(alloc, message));
    read(rt, alloc, &frame)
}

fn read(rt: &impl Abort, alloc: Global, frame: &[u8]) -> Message {
    let (message, _) = must(rt, decode(alloc, frame));
    message
}

fn sent_by(rt: &impl Abort, alloc: Global, answered: &Answered, to: NodeId) -> Option<Message> {
    let Answered::Made { item, .. } = answered else {
        return None;
    };
    for message in item.done.sent.as_slice() {
        if message.to == to {
            return Some(crossed(rt, alloc, message));
        }
    }
    None
}

/// What a node sends to that one by its only input.
fn only_sent(rt: &impl Abort, alloc: Global, answers: &[Answered], to: NodeId) -> Option<Message> {
    match answers {
        [answered] => sent_by(rt, alloc, answered, to),
        _ => None,
    }
}

/// Gives an input to a node, and what it then sends to that other one.
pub(crate) fn give<N: Core + Drop>(
    rt: &impl Abort,
    alloc: Global,
    durable: &mut Journal<N>,
    input: Arrived,
    to: NodeId,
) -> Option<Message> {
    let mut inputs = Vec::new(alloc);
    must(rt, inputs.push(input));
    let answers = must(rt, durable.on_all(inputs));
    let sent = only_sent(rt, alloc, &answers, to);
    drop(answers);
    sent
}

/// The same of a message.
pub(crate) fn hand<N: Core + Drop>(
    rt: &impl Abort,
    alloc: Global,
    durable: &mut Journal<N>,
    message: Message,
    to: NodeId,
) -> Option<Message> {
    let named = Named {
        from: message.from,
        step: 1,
        place: 1,
        stamp: 1,
        message,
    };
    give(rt, alloc, durable, Arrived::Message(named), to)
}

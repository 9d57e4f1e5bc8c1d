//! Frames of messages that aren't light, written by hand, and messages that have none.

use crate::calls::{frame_of, read_frame};
use crate::hex::bytes_of;
use crate::holds::must_hold;
use curp_base::Failed;
use curp_cmd::NodeId;
use curp_msg::{Body, Message};
use curp_wire::{NoFrame, encode, is_light};
use std::alloc::Global;
use std::process::Abort;

/// Whether the bytes are the frame of a message that isn't light, which is written as they stand.
fn is_heavy_frame(alloc: Global, bytes: &[u8]) -> bool {
    let Ok((message, _)) = read_frame(alloc, bytes) else {
        return false;
    };
    let is_written = match frame_of(alloc, &message) {
        Some(frame) => frame.as_slice() == bytes,
        None => false,
    };
    let light = is_light(&message);
    drop(message);
    is_written && !light
}

fn try_heavy(rt: &impl Abort, alloc: Global, text: &str) {
    let bytes = bytes_of(rt, alloc, text);
    must_hold(rt, text, "heavy", is_heavy_frame(alloc, &bytes));
}

static HEAVY: [&str; 3] = [
    // a record of client 65, and one of the last client that a number names
    "0000001e 04 0100000041 0400000001 00000041 00000001 00000001 01 0161 00000001",
    "0000001e 04 01ffffffff 0400000001 ffffffff 00000001 00000001 01 0161 00000001",
    // six backups
    "00000035 19 0000000000 0200000001 00000008 00000006 0300000001 0300000002 0300000003 0300000004 \
    0300000005 0300000006 00000000",
];

#[test]
fn clients_and_nodes(rt: HostRuntime) {
    for text in HEAVY {
        try_heavy(&rt, rt.alloc(), text);
    }
}

/// A configuration of 17 partitions.
#[test]
fn partitions(rt: HostRuntime) {
    let alloc = rt.alloc();
    let part = "00000001 00000001 00000001 0200000001 00000000 00000000 00000000 ";
    let parts = part.repeat(alloc, 17).expect(&rt, "no memory");
    let text = "00000200 06 0000000000 0100000001 00000001 00000011 X";
    let text = text.replace(alloc, "X", &parts).expect(&rt, "no memory");
    try_heavy(&rt, alloc, &text);
}

fn has_no_frame(alloc: Global, from: NodeId) -> bool {
    let message = Message {
        from,
        to: NodeId::manager(),
        body: Body::Fetch,
    };
    let refusal = encode(alloc, &message).err();
    drop(message);
    refusal == Some(Failed::Because(NoFrame))
}

/// Only the manager has the number 0.
#[test]
fn messages_without_a_frame(rt: HostRuntime) {
    let alloc = rt.alloc();
    assert!(rt; has_no_frame(alloc, NodeId::client(0)));
    assert!(rt; has_no_frame(alloc, NodeId::witness(0)));
    assert!(rt; !has_no_frame(alloc, NodeId::client(1)));
    assert!(rt; !has_no_frame(alloc, NodeId::manager()));
}

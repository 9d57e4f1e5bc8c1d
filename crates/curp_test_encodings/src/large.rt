//! The largest frames of light messages, and larger ones of others, with memory for them.

use crate::build::{
    add, ascending, boxed, held, key, largest, message, op_of, request, share, value,
};
use crate::calls::{frame_of, reads};
use curp_base::Items;
use curp_cmd::{Command, Entry, Key, Package, Request, RequestId, TablePart, Value};
use curp_msg::{Append, Body, Message, Parcel};
use curp_wire::is_light;
use std::alloc::Global;
use std::process::Abort;

/// Whether the message has a frame of this length, which is read back.
fn is_framed(alloc: Global, message: &Message, length: usize) -> bool {
    match frame_of(alloc, message) {
        Some(frame) => frame.len() == length && reads(alloc, &frame, message, length),
        None => false,
    }
}

fn has_frame_of(alloc: Global, body: Body, length: usize) -> bool {
    let message = message(body);
    let is_framed = is_framed(alloc, &message, length);
    drop(message);
    is_framed
}

fn is_heavy(body: Body) -> bool {
    let message = message(body);
    let light = is_light(&message);
    drop(message);
    !light
}

/// So many times the largest request.
fn frozen(rt: &impl Abort, alloc: Global, count: usize) -> Body {
    let each = held(rt, alloc, request(largest(rt, value(rt, &[255; 128]))));
    let mut requests = Vec::new(alloc);
    for _ in 0..count {
        add(rt, &mut requests, share(rt, &each));
    }
    drop(each);
    Body::FrozenAnswer {
        requests: Items::new(requests),
    }
}

#[test]
fn requests_of_a_witness(rt: HostRuntime) {
    let alloc = rt.alloc();
    let length = 4 + 11 + 4 + 19_999 * (12 + 2 + 4 * 162);
    assert!(rt; has_frame_of(alloc, frozen(&rt, alloc, 19_999), length));
    assert!(rt; is_heavy(frozen(&rt, alloc, 20_000)));
}

/// More than 2^24 bytes stand behind the length.
#[test]
fn more_requests_of_a_witness(rt: HostRuntime) {
    let alloc = rt.alloc();
    let length = 4 + 11 + 4 + 25_344 * (12 + 2 + 4 * 162);
    assert!(rt; has_frame_of(alloc, frozen(&rt, alloc, 25_344), length));
}

/// A key of 32 bytes that begins with the number.
fn numbered(rt: &impl Abort, number: u32) -> Key {
    let [a, b, c, d] = number.to_be_bytes();
    let bytes = [
        a, b, c, d, 255, 255, 255, 255, 255, 255, 255, 255, 255, 255, 255, 255, 255, 255, 255, 255,
        255, 255, 255, 255, 255, 255, 255, 255, 255, 255, 255, 255,
    ];
    key(rt, &bytes)
}

/// Pairs of a key of 32 bytes and a value of 128 each.
fn pairs(rt: &impl Abort, alloc: Global, count: u32) -> Vec<(Key, Value)> {
    let value = value(rt, &[255; 128]);
    let mut pairs = Vec::new(alloc);
    for number in 0..count {
        add(rt, &mut pairs, (numbered(rt, number), value));
    }
    pairs
}

/// A package of so many pairs.
fn taken(rt: &impl Abort, alloc: Global, count: u32) -> Body {
    let package = Package {
        lo: 0,
        hi: u64::MAX,
        pairs: ascending(rt, pairs(rt, alloc, count)),
        table: TablePart::new(alloc),
    };
    let parcel = Parcel {
        migration: 1,
        package: held(rt, alloc, package),
    };
    Body::Taken(boxed(rt, alloc, parcel))
}

#[test]
fn a_package(rt: HostRuntime) {
    let alloc = rt.alloc();
    let length = 4 + 11 + 4 + 16 + 4 + 19_999 * 162 + 12;
    assert!(rt; has_frame_of(alloc, taken(&rt, alloc, 19_999), length));
    assert!(rt; is_heavy(taken(&rt, alloc, 20_000)));
    let length = 4 + 11 + 4 + 16 + 4 + 20_000 * 162 + 12;
    assert!(rt; has_frame_of(alloc, taken(&rt, alloc, 20_000), length));
}

/// An operation of that client.
fn operation(rt: &impl Abort, alloc: Global, client: u32) -> Entry {
    let put = Command::Put(key(rt, b"a"), value(rt, b"1"));
    let request = Request {
        id: RequestId { client, seq: 1 },
        ..request(put)
    };
    op_of(rt, alloc, request, 1)
}

/// An append of an operation of that client.
fn append_of(rt: &impl Abort, alloc: Global, client: u32) -> Body {
    let mut entries = Vec::new(alloc);
    add(rt, &mut entries, operation(rt, alloc, client));
    Body::Append(Append {
        epoch: 1,
        base: 0,
        round: 1,
        entries: Items::new(entries),
    })
}

/// Clients above 64 stand in no light message.
#[test]
fn clients_have_a_limit(rt: HostRuntime) {
    let alloc = rt.alloc();
    assert!(rt; !is_heavy(append_of(&rt, alloc, 0)));
    assert!(rt; !is_heavy(append_of(&rt, alloc, 64)));
    assert!(rt; is_heavy(append_of(&rt, alloc, 65)));
    assert!(rt; is_heavy(append_of(&rt, alloc, u32::MAX)));
}

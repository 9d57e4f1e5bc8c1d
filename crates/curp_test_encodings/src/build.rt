//! What the tables build alike, by calls of which they know nothing. A test ends where something isn't built.

use curp_base::{AscendingKeys, AscendingPairs, Boxed, Shared, keys_ascend, pairs_ascend};
use curp_cmd::{
    Answer, Command, Entry, Key, NodeId, Package, Request, RequestId, TablePart, Value,
};
use curp_msg::{Body, Message};
use std::alloc::Global;
use std::process::Abort;

const ID: RequestId = RequestId { client: 1, seq: 2 };

const OTHER: RequestId = RequestId { client: 3, seq: 14 };

// ---- what is called

pub(crate) fn key(rt: &impl Abort, bytes: &[u8]) -> Key {
    Key::new(bytes).expect(rt, "no key")
}

pub(crate) fn value(rt: &impl Abort, bytes: &[u8]) -> Value {
    Value::new(bytes).expect(rt, "no value")
}

pub(crate) fn multi(rt: &impl Abort, pairs: &[(Key, Value)]) -> Command {
    Command::multi(pairs).expect(rt, "no multi-put")
}

pub(crate) fn add<T: Drop>(rt: &impl Abort, list: &mut Vec<T>, item: T) {
    assert!(rt; list.push(item).is_ok());
}

fn list<T: Copy>(rt: &impl Abort, alloc: Global, items: &[T]) -> Vec<T> {
    Vec::from_slice(alloc, items).expect(rt, "no memory")
}

pub(crate) fn boxed<T: Drop>(rt: &impl Abort, alloc: Global, value: T) -> Boxed<T> {
    Boxed::new(alloc, value).ok().expect(rt, "no memory")
}

/// A value that others may hold too.
pub(crate) fn held<T: Drop>(rt: &impl Abort, alloc: Global, value: T) -> Shared<T> {
    Shared::new(alloc, value).ok().expect(rt, "no memory")
}

pub(crate) fn share<T: Drop>(rt: &impl Abort, held: &Shared<T>) -> Shared<T> {
    held.share().expect(rt, "no memory")
}

pub(crate) fn ascending<K: Ord + Drop, V: Drop>(
    rt: &impl Abort,
    pairs: Vec<(K, V)>,
) -> AscendingPairs<K, V> {
    assert!(rt; pairs_ascend(&pairs));
    AscendingPairs::new(pairs)
}

// ---- requests and entries

/// From client 1 to master 2.
pub(crate) fn message(body: Body) -> Message {
    Message {
        from: NodeId::client(1),
        to: NodeId::master(2),
        body,
    }
}

pub(crate) fn request(command: Command) -> Request {
    Request {
        id: ID,
        first: 2,
        command,
    }
}

/// Four keys of 32 bytes, each with that value. With 128 bytes of it this is the largest command.
pub(crate) fn largest(rt: &impl Abort, value: Value) -> Command {
    multi(
        rt,
        &[
            (key(rt, &[1; 32]), value),
            (key(rt, &[2; 32]), value),
            (key(rt, &[3; 32]), value),
            (key(rt, &[4; 32]), value),
        ],
    )
}

/// Two records, a first number, and two expired clients.
fn table(rt: &impl Abort, alloc: Global) -> TablePart {
    let records = list(rt, alloc, &[(ID, Answer::Done), (OTHER, Answer::Overflow)]);
    let gone = list(rt, alloc, &[4, 6]);
    assert!(rt; keys_ascend(&gone));
    TablePart {
        records: ascending(rt, records),
        firsts: ascending(rt, list(rt, alloc, &[(1, 2)])),
        gone: AscendingKeys::new(gone),
    }
}

/// Two pairs and that table.
fn package(rt: &impl Abort, alloc: Global) -> Shared<Package> {
    let first = (key(rt, b"a"), value(rt, b"1"));
    let second = (key(rt, b"b"), value(rt, b""));
    let package = Package {
        lo: 0,
        hi: 0x0fff_ffff_ffff_ffff,
        pairs: ascending(rt, list(rt, alloc, &[first, second])),
        table: table(rt, alloc),
    };
    held(rt, alloc, package)
}

/// The operation of that request.
pub(crate) fn op_of(rt: &impl Abort, alloc: Global, request: Request, acknowledge: u32) -> Entry {
    Entry::Op {
        request: held(rt, alloc, request),
        acknowledge,
    }
}

pub(crate) fn op(rt: &impl Abort, alloc: Global) -> Entry {
    let put = Command::Put(key(rt, b"a"), value(rt, b"1"));
    op_of(rt, alloc, request(put), 1)
}

pub(crate) fn take(rt: &impl Abort, alloc: Global) -> Entry {
    Entry::Take {
        migration: 3,
        package: package(rt, alloc),
    }
}

pub(crate) fn give(rt: &impl Abort, alloc: Global) -> Entry {
    let package = Package {
        lo: 7,
        hi: 7,
        pairs: ascending(rt, Vec::new(alloc)),
        table: TablePart::new(alloc),
    };
    Entry::Give {
        migration: 3,
        package: held(rt, alloc, package),
    }
}

/// Entries of all four kinds, so many times.
pub(crate) fn all_kinds(rt: &impl Abort, alloc: Global, times: usize) -> Vec<Entry> {
    let mut entries = Vec::new(alloc);
    for _ in 0..times {
        add(rt, &mut entries, op(rt, alloc));
        add(rt, &mut entries, take(rt, alloc));
        add(rt, &mut entries, give(rt, alloc));
        add(rt, &mut entries, Entry::Expire { client: 7 });
    }
    entries
}

//! What the tables build alike, by calls of which they know nothing. A test ends where something isn't built.
ghost use Rattle.std.specs.Prelude.{◌≤◌};

use curp_base::{AscendingKeys, AscendingPairs, Boxed, Items, Shared, keys_ascend, pairs_ascend};
use curp_cmd::{
    Answer, Command, Entry, Key, NodeId, Package, Request, RequestId, TablePart, Value,
};
use curp_msg::{Body, Message, PartConfig};
use curp_range::{Ranges, Spans};
use std::alloc::Global;
use std::process::Abort;

pub(crate) const ID: RequestId = RequestId { client: 1, seq: 2 };

pub(crate) const OTHER: RequestId = RequestId { client: 3, seq: 14 };

// ---- what is called

pub(crate) fn key(rt: &impl Abort, bytes: &[u8]) -> Key {
    Key::new(bytes).expect(rt, "no key")
}

pub(crate) fn value(rt: &impl Abort, bytes: &[u8]) -> Value {
    Value::new(bytes).expect(rt, "no value")
}

pub(crate) fn multi(rt: &impl Abort, pairs: &[(Key, Value)]) -> Command {
    Command::multi(pairs).expect(rt, "no multi-put")
}

pub(crate) fn add<T: Drop>(rt: &impl Abort, list: &mut Vec<T>, item: T) {
    assert!(rt; list.push(item).is_ok());
}

fn list<T: Copy>(rt: &impl Abort, alloc: Global, items: &[T]) -> Vec<T> {
    Vec::from_slice(alloc, items).expect(rt, "no memory")
}

pub(crate) fn items<T: Copy>(rt: &impl Abort, alloc: Global, of: &[T]) -> Items<T> {
    Items::new(list(rt, alloc, of))
}

pub(crate) fn boxed<T: Drop>(rt: &impl Abort, alloc: Global, value: T) -> Boxed<T> {
    Boxed::new(alloc, value).ok().expect(rt, "no memory")
}

/// A value that others may hold too.
pub(crate) fn held<T: Drop>(rt: &impl Abort, alloc: Global, value: T) -> Shared<T> {
    Shared::new(alloc, value).ok().expect(rt, "no memory")
}

fn ascending<K: Ord + Drop, V: Drop>(rt: &impl Abort, pairs: Vec<(K, V)>) -> AscendingPairs<K, V> {
    assert!(rt; pairs_ascend(&pairs));
    AscendingPairs::new(pairs)
}

fn ascending_keys(rt: &impl Abort, keys: Vec<u32>) -> AscendingKeys<u32> {
    assert!(rt; keys_ascend(&keys));
    AscendingKeys::new(keys)
}

/// The hashes from 0 to `end` other than those from `lo` to `hi`.
fn spans_without(rt: &impl Abort, alloc: Global, end: u64, lo: u64, hi: u64) -> Spans
    requires { lo ≤ hi }
{
    let mut ranges = Ranges::new(alloc, 0, end).expect(rt, "no memory");
    assert!(rt; ranges.reserve(1).is_ok());
    let _ = ranges.take_out(lo, hi);
    Spans::new(ranges)
}

// ---- requests and entries

/// From client 1 to master 2.
pub(crate) fn message(body: Body) -> Message {
    Message {
        from: NodeId::client(1),
        to: NodeId::master(2),
        body,
    }
}

fn request(command: Command) -> Request {
    Request {
        id: ID,
        first: 2,
        command,
    }
}

pub(crate) fn shared(rt: &impl Abort, alloc: Global, command: Command) -> Shared<Request> {
    held(rt, alloc, request(command))
}

/// Two records, a first number, and two expired clients.
fn table(rt: &impl Abort, alloc: Global) -> TablePart {
    let records = list(rt, alloc, &[(ID, Answer::Done), (OTHER, Answer::Overflow)]);
    TablePart {
        records: ascending(rt, records),
        firsts: ascending(rt, list(rt, alloc, &[(1, 2)])),
        gone: ascending_keys(rt, list(rt, alloc, &[4, 6])),
    }
}

fn two_pairs(rt: &impl Abort, alloc: Global) -> AscendingPairs<Key, Value> {
    let first = (key(rt, b"a"), value(rt, b"1"));
    let second = (key(rt, b"b"), value(rt, b""));
    ascending(rt, list(rt, alloc, &[first, second]))
}

/// Two pairs and that table.
pub(crate) fn package(rt: &impl Abort, alloc: Global) -> Shared<Package> {
    let package = Package {
        lo: 0,
        hi: 0x0fff_ffff_ffff_ffff,
        pairs: two_pairs(rt, alloc),
        table: table(rt, alloc),
    };
    held(rt, alloc, package)
}

pub(crate) fn no_package(rt: &impl Abort, alloc: Global) -> Shared<Package> {
    let package = Package {
        lo: 7,
        hi: 7,
        pairs: ascending(rt, Vec::new(alloc)),
        table: TablePart::new(alloc),
    };
    held(rt, alloc, package)
}

/// The operation of that request.
fn op_of(rt: &impl Abort, alloc: Global, request: Request, acknowledge: u32) -> Entry {
    Entry::Op {
        request: held(rt, alloc, request),
        acknowledge,
    }
}

fn op(rt: &impl Abort, alloc: Global) -> Entry {
    let put = Command::Put(key(rt, b"a"), value(rt, b"1"));
    op_of(rt, alloc, request(put), 1)
}

fn take(rt: &impl Abort, alloc: Global) -> Entry {
    Entry::Take {
        migration: 3,
        package: package(rt, alloc),
    }
}

fn give(rt: &impl Abort, alloc: Global) -> Entry {
    Entry::Give {
        migration: 3,
        package: no_package(rt, alloc),
    }
}

/// Entries of all four kinds.
pub(crate) fn all_kinds(rt: &impl Abort, alloc: Global) -> Vec<Entry> {
    let mut entries = Vec::new(alloc);
    add(rt, &mut entries, op(rt, alloc));
    add(rt, &mut entries, take(rt, alloc));
    add(rt, &mut entries, give(rt, alloc));
    add(rt, &mut entries, Entry::Expire { client: 7 });
    entries
}

// ---- configurations

/// Part 2, which owns two ranges.
fn part_with_a_gap(rt: &impl Abort, alloc: Global) -> PartConfig {
    PartConfig {
        part: 2,
        epoch: 1,
        version: 3,
        master: NodeId::master(2),
        backups: items(rt, alloc, &[NodeId::backup(3), NodeId::backup(4)]),
        witnesses: items(rt, alloc, &[NodeId::witness(4)]),
        ranges: spans_without(rt, alloc, u64::MAX, 1 << 60, u64::MAX / 2),
    }
}

/// Part 10, which owns nothing.
fn empty_part(rt: &impl Abort, alloc: Global) -> PartConfig {
    PartConfig {
        part: 10,
        epoch: 5,
        version: 7,
        master: NodeId::master(12),
        backups: items(rt, alloc, &[]),
        witnesses: items(rt, alloc, &[]),
        ranges: spans_without(rt, alloc, 9, 0, 9),
    }
}

pub(crate) fn two_parts(rt: &impl Abort, alloc: Global) -> Items<PartConfig> {
    let mut parts = Vec::new(alloc);
    add(rt, &mut parts, part_with_a_gap(rt, alloc));
    add(rt, &mut parts, empty_part(rt, alloc));
    Items::new(parts)
}

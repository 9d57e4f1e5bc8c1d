//! What messages carry: entries, packages, configurations.

use crate::build::{key, must, request, shared, value};
use curp_base::{AscendingKeys, AscendingPairs, Boxed, Items, Shared, keys_ascend, pairs_ascend};
use curp_cmd::{
    Answer, Command, Entry, Key, NodeId, Package, Request, RequestId, TablePart, Value,
};
use curp_msg::{Config, Parcel, PartConfig, Recover};
use curp_range::{Ranges, Spans};
use std::alloc::Global;
use std::process::Abort;

// As many nodes as a list of a partition has at most.
pub(crate) fn nodes(rt: &impl Abort, alloc: Global) -> Items<NodeId> {
    Items::new(must(rt, Vec::from_slice(alloc, &[NodeId::manager(); 5])))
}

fn spans(rt: &impl Abort, alloc: Global) -> Spans {
    Spans::new(must(rt, Ranges::new(alloc, 0, 9)))
}

fn part(rt: &impl Abort, alloc: Global, part: u32) -> PartConfig {
    PartConfig {
        part,
        epoch: 1,
        version: 1,
        master: NodeId::manager(),
        backups: nodes(rt, alloc),
        witnesses: nodes(rt, alloc),
        ranges: spans(rt, alloc),
    }
}

pub(crate) fn config(rt: &impl Abort, alloc: Global, serial: u32, count: u32) -> Config {
    let mut parts = Vec::new(alloc);
    for number in 0..count {
        must(rt, parts.push(part(rt, alloc, number)));
    }
    Config {
        serial,
        parts: Items::new(parts),
    }
}

// A multi-put of two pairs.
pub(crate) fn put_two(rt: &impl Abort) -> Request {
    let one = value(rt, b"1");
    let pairs = [(key(rt, b"a"), one), (key(rt, b"b"), one)];
    request(1, 1, must(rt, Command::multi(&pairs)))
}

fn records(rt: &impl Abort, alloc: Global) -> AscendingPairs<RequestId, Answer> {
    let mut records = Vec::new(alloc);
    for (client, seq) in [(1, 1), (1, 2), (2, 1)] {
        must(rt, records.push((RequestId { client, seq }, Answer::Done)));
    }
    assert!(rt; pairs_ascend(&records));
    AscendingPairs::new(records)
}

fn firsts(rt: &impl Abort, alloc: Global) -> AscendingPairs<u32, u32> {
    let firsts = must(rt, Vec::from_slice(alloc, &[(1, 1)]));
    assert!(rt; pairs_ascend(&firsts));
    AscendingPairs::new(firsts)
}

fn gone(rt: &impl Abort, alloc: Global) -> AscendingKeys<u32> {
    let gone = must(rt, Vec::from_slice(alloc, &[3, 4]));
    assert!(rt; keys_ascend(&gone));
    AscendingKeys::new(gone)
}

// Three records, a first number and two expired clients.
fn table_part(rt: &impl Abort, alloc: Global) -> TablePart {
    TablePart {
        records: records(rt, alloc),
        firsts: firsts(rt, alloc),
        gone: gone(rt, alloc),
    }
}

fn pairs(rt: &impl Abort, alloc: Global) -> AscendingPairs<Key, Value> {
    let mut pairs = Vec::new(alloc);
    for name in [b"a", b"b"] {
        must(rt, pairs.push((key(rt, name), value(rt, b"1"))));
    }
    assert!(rt; pairs_ascend(&pairs));
    AscendingPairs::new(pairs)
}

// Two pairs and that table.
fn package(rt: &impl Abort, alloc: Global) -> Shared<Package> {
    let package = Package {
        lo: 0,
        hi: 9,
        pairs: pairs(rt, alloc),
        table: table_part(rt, alloc),
    };
    match Shared::new(alloc, package) {
        Ok(shared) => shared,
        Err(_) => rt.panic("no memory"),
    }
}

fn boxed<T: Drop>(rt: &impl Abort, alloc: Global, value: T) -> Boxed<T> {
    match Boxed::new(alloc, value) {
        Ok(boxed) => boxed,
        Err(_) => rt.panic("no memory"),
    }
}

pub(crate) fn parcel(rt: &impl Abort, alloc: Global) -> Boxed<Parcel> {
    let parcel = Parcel {
        migration: 1,
        package: package(rt, alloc),
    };
    boxed(rt, alloc, parcel)
}

pub(crate) fn recover(rt: &impl Abort, alloc: Global) -> Boxed<Recover> {
    let recover = Recover {
        part: 1,
        epoch: 2,
        version: 2,
        backup: NodeId::manager(),
        witness: NodeId::manager(),
        backups: nodes(rt, alloc),
        witnesses: nodes(rt, alloc),
        lo: 0,
        hi: 9,
    };
    boxed(rt, alloc, recover)
}

pub(crate) fn op(rt: &impl Abort, alloc: Global, request: &Request, acknowledge: u32) -> Entry {
    Entry::Op {
        request: shared(rt, alloc, request),
        acknowledge,
    }
}

fn take(rt: &impl Abort, alloc: Global) -> Entry {
    Entry::Take {
        migration: 1,
        package: package(rt, alloc),
    }
}

pub(crate) fn entries(rt: &impl Abort, alloc: Global) -> Items<Entry> {
    let mut entries = Vec::new(alloc);
    must(rt, entries.push(op(rt, alloc, &put_two(rt), 1)));
    must(rt, entries.push(take(rt, alloc)));
    must(rt, entries.push(Entry::Expire { client: 1 }));
    Items::new(entries)
}

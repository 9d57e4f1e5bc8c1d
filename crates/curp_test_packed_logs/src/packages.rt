//! What leaves with a range and comes with it.

use crate::build::{key, must, value};
use curp_base::{AscendingKeys, AscendingPairs, Shared, keys_ascend, pairs_ascend};
use curp_cmd::{Answer, Key, Package, RequestId, TablePart, Value};
use std::alloc::Global;
use std::process::Abort;

// The list, in which the keys ascend.
fn ascending<K: Ord + Drop, V: Drop>(rt: &impl Abort, pairs: Vec<(K, V)>) -> AscendingPairs<K, V> {
    assert!(rt; pairs_ascend(&pairs));
    AscendingPairs::new(pairs)
}

fn gone(rt: &impl Abort, clients: Vec<u32>) -> AscendingKeys<u32> {
    assert!(rt; keys_ascend(&clients));
    AscendingKeys::new(clients)
}

// The package, which others may hold too.
fn held(rt: &impl Abort, alloc: Global, package: Package) -> Shared<Package> {
    match Shared::new(alloc, package) {
        Ok(held) => held,
        Err(_) => rt.panic("no memory"),
    }
}

const RECORDS: [(RequestId, Answer); 3] = [
    (RequestId { client: 1, seq: 9 }, Answer::Done),
    (RequestId { client: 2, seq: 3 }, Answer::Done),
    (RequestId { client: 2, seq: 4 }, Answer::Done),
];

fn table_part(rt: &impl Abort, alloc: Global) -> TablePart {
    let records = must(rt, Vec::from_slice(alloc, &RECORDS));
    let firsts = must(rt, Vec::from_slice(alloc, &[(1, 9), (2, 3)]));
    TablePart {
        records: ascending(rt, records),
        firsts: ascending(rt, firsts),
        gone: gone(rt, must(rt, Vec::from_slice(alloc, &[4]))),
    }
}

fn pairs(rt: &impl Abort, alloc: Global) -> Vec<(Key, Value)> {
    let one = value(rt, b"1");
    let pairs = [(key(rt, b"a"), one), (key(rt, b"b"), one)];
    must(rt, Vec::from_slice(alloc, &pairs))
}

// Two pairs, three records, two firsts and an expired client.
pub(crate) fn package(rt: &impl Abort, alloc: Global) -> Shared<Package> {
    let package = Package {
        lo: 0,
        hi: 99,
        pairs: ascending(rt, pairs(rt, alloc)),
        table: table_part(rt, alloc),
    };
    held(rt, alloc, package)
}

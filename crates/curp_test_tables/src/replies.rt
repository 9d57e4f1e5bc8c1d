//! The reply table: what it knows of requests, and what a package brings to it.

use crate::build::{id, made, must, right, right_at};
use curp_cmd::{Answer, RequestId, TablePart};
use curp_model::Check;
use curp_rifl::{Table, room};
use std::alloc::Global;
use std::process::Abort;

fn note(rt: &impl Abort, table: &mut Table, id: RequestId, index: u64) {
    assert!(rt; table.check(&id) == Check::New);
    made(rt, table.reserve(1));
    table.note(id, Answer::Number(index), index);
}

fn finish(rt: &impl Abort, table: &mut Table, id: RequestId, index: u64) {
    assert!(rt; table.check(&id) == Check::New);
    made(rt, table.reserve(1));
    table.finish(id, Answer::Done, index, 0);
}

fn acknowledge(rt: &impl Abort, table: &mut Table, client: u32, first: u32) {
    made(rt, table.reserve(1));
    table.acknowledge(client, first);
}

fn expire(rt: &impl Abort, table: &mut Table, client: u32) {
    made(rt, table.reserve(1));
    table.expire(client);
}

fn merge(rt: &impl Abort, table: &mut Table, part: &TablePart, index: u64) {
    made(rt, table.reserve(room(part)));
    table.merge(part, index);
}

// What the table has, packed, in place of it.
fn pack(rt: &impl Abort, table: Table) -> TablePart {
    let part = must(rt, table.pack());
    drop(table);
    part
}

// A client, the number of its request, and what is known of it.
type Row = (u32, u32, Check);

fn try_check(rt: &impl Abort, table: &Table, id: RequestId, known: Check) {
    right_at(rt, table.check(&id) == known, "check", u64::from(id.seq));
}

fn try_checks(rt: &impl Abort, table: &Table, rows: &[Row]) {
    for (client, seq, known) in rows {
        try_check(rt, table, id(*client, *seq), *known);
    }
}

const NOTED: [(u32, u32); 6] = [(1, 1), (2, 1), (1, 3), (3, 1), (1, 2), (2, 7)];

// Clients 1, 2 and 3 have done requests; clients 1 and 3 have acknowledged those below 3, and client 3 is expired.
fn three_clients(rt: &impl Abort, alloc: Global) -> Table {
    let mut table = Table::new(alloc);
    for (index, (client, seq)) in NOTED.iter().enumerate() {
        note(rt, &mut table, id(*client, *seq), index as u64);
    }
    acknowledge(rt, &mut table, 1, 3);
    acknowledge(rt, &mut table, 3, 3);
    expire(rt, &mut table, 3);
    table
}

const OF_THREE: [Row; 10] = [
    (1, 1, Check::Stale { first: 3 }),
    (1, 2, Check::Stale { first: 3 }),
    (
        1,
        3,
        Check::Known {
            answer: Answer::Number(2),
            index: 2,
        },
    ),
    (1, 4, Check::New),
    (
        2,
        1,
        Check::Known {
            answer: Answer::Number(1),
            index: 1,
        },
    ),
    (
        2,
        7,
        Check::Known {
            answer: Answer::Number(5),
            index: 5,
        },
    ),
    (2, 8, Check::New),
    (3, 1, Check::Expired),
    (3, 2, Check::Expired),
    (4, 1, Check::New),
];

#[test]
fn tells_what_is_done(rt: HostRuntime) {
    let table = three_clients(&rt, rt.alloc());
    try_checks(&rt, &table, &OF_THREE);
    drop(table);
}

#[test]
fn packs_what_is_done(rt: HostRuntime) {
    let part = pack(&rt, three_clients(&rt, rt.alloc()));
    try_packed(&rt, &part);
    drop(part);
}

fn are_records(found: &[(RequestId, Answer)], expected: &[(RequestId, Answer)]) -> bool {
    found == expected
}

fn are_firsts(found: &[(u32, u32)], expected: &[(u32, u32)]) -> bool {
    found == expected
}

fn are_gone(found: &[u32], expected: &[u32]) -> bool {
    found == expected
}

fn try_packed(rt: &impl Abort, part: &TablePart) {
    let records = [
        (id(1, 3), Answer::Number(2)),
        (id(2, 1), Answer::Number(1)),
        (id(2, 7), Answer::Number(5)),
    ];
    right(
        rt,
        are_records(part.records.as_slice(), &records),
        "packed (1)",
    );
    right(
        rt,
        are_firsts(part.firsts.as_slice(), &[(1, 3), (3, 3)]),
        "packed (2)",
    );
    right(rt, are_gone(part.gone.as_slice(), &[3]), "packed (3)");
}

// Clients 1, 3 and 4 have done requests, client 2 has acknowledged the first of its two, and client 9 is expired.
fn four_clients(rt: &impl Abort, alloc: Global) -> Table {
    let mut table = Table::new(alloc);
    for (client, seq) in [(1, 2), (2, 1), (3, 5), (4, 4)] {
        note(rt, &mut table, id(client, seq), 90);
    }
    acknowledge(rt, &mut table, 2, 2);
    expire(rt, &mut table, 9);
    note(rt, &mut table, id(2, 7), 91);
    table
}

// What was there before a package came stays, and what is of no use in the whole is dropped.
const OF_BOTH: [Row; 7] = [
    (1, 2, Check::Stale { first: 3 }),
    (
        1,
        3,
        Check::Known {
            answer: Answer::Number(2),
            index: 95,
        },
    ),
    (2, 1, Check::Stale { first: 2 }),
    (
        2,
        7,
        Check::Known {
            answer: Answer::Number(91),
            index: 91,
        },
    ),
    (3, 5, Check::Expired),
    (
        4,
        4,
        Check::Known {
            answer: Answer::Number(90),
            index: 90,
        },
    ),
    (9, 1, Check::Expired),
];

#[test]
fn takes_in_a_package(rt: HostRuntime) {
    let part = pack(&rt, three_clients(&rt, rt.alloc()));
    let mut table = four_clients(&rt, rt.alloc());
    merge(&rt, &mut table, &part, 95);
    drop(part);
    try_checks(&rt, &table, &OF_BOTH);
    try_records(&rt, table, 3);
}

fn try_records(rt: &impl Abort, table: Table, count: usize) {
    let part = pack(rt, table);
    right(rt, part.records.len() == count, "records");
    drop(part);
}

// Each of 64 clients has acknowledged the first hundred of its 500 requests.
fn thirty_two_thousand(rt: &impl Abort, alloc: Global) -> Table {
    let mut table = Table::new(alloc);
    for number in 0..32_000_u32 {
        let id = id(number / 500, (number % 500).wrapping_add(1));
        finish(rt, &mut table, id, u64::from(number));
    }
    for client in 0..64 {
        acknowledge(rt, &mut table, client, 101);
    }
    table
}

fn merged(rt: &impl Abort, alloc: Global, part: &TablePart) -> Table {
    let mut table = Table::new(alloc);
    merge(rt, &mut table, part, 7);
    table
}

#[test]
fn holds_thirty_two_thousand_records(rt: HostRuntime) {
    let part = pack(&rt, thirty_two_thousand(&rt, rt.alloc()));
    try_sizes(&rt, &part);
    let table = merged(&rt, rt.alloc(), &part);
    drop(part);
    try_clients(&rt, &table);
    drop(table);
}

fn try_sizes(rt: &impl Abort, part: &TablePart) {
    right(rt, part.records.len() == 25_600, "sizes (1)");
    right(rt, part.firsts.len() == 64, "sizes (2)");
}

fn try_clients(rt: &impl Abort, table: &Table) {
    for client in 0..64 {
        let rows = [
            (client, 100, Check::Stale { first: 101 }),
            (
                client,
                101,
                Check::Known {
                    answer: Answer::Done,
                    index: 7,
                },
            ),
            (client, 501, Check::New),
        ];
        try_checks(rt, table, &rows);
    }
}

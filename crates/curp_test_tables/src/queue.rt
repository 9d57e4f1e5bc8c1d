//! The queue of ids that witnesses may drop.

use crate::build::{id, made, must, right, right_at};
use curp_cmd::RequestId;
use curp_tail::Queue;
use std::alloc::Global;
use std::process::Abort;

fn add(rt: &impl Abort, queue: &mut Queue, id: RequestId, length: u64) {
    made(rt, queue.reserve(1));
    queue.add(id, length);
}

fn leave(queue: &mut Queue, synced: u64) {
    queue.leave(synced);
}

// A call, and which ids are due then, by clients.
#[derive(Clone, Copy)]
enum Row {
    Adds(u32, u64),
    Due(u64, &'static [u32]),
    Leaves(u64),
}

// An id that is added again keeps its place, at the larger length.
const ROWS: [Row; 11] = [
    Row::Adds(2, 1),
    Row::Adds(1, 4),
    Row::Adds(3, 2),
    Row::Adds(2, 3),
    Row::Adds(1, 2),
    Row::Due(1, &[]),
    Row::Due(3, &[2, 3]),
    Row::Leaves(2),
    Row::Due(4, &[2, 1]),
    Row::Adds(3, 0),
    Row::Due(u64::MAX, &[2, 1, 3]),
];

fn are_due(rt: &impl Abort, queue: &Queue, synced: u64, clients: &[u32]) -> bool {
    let due = must(rt, queue.due(synced));
    let are = are_first(&due, clients);
    drop(due);
    are
}

// Whether these are the first requests of the clients.
fn are_first(ids: &[RequestId], clients: &[u32]) -> bool {
    for (at, id) in ids.iter().enumerate() {
        match clients.get(at) {
            Some(client) if id.client == *client && id.seq == 1 => {}
            _ => return false,
        }
    }
    ids.len() == clients.len()
}

fn try_row(rt: &impl Abort, queue: &mut Queue, at: usize, row: Row) {
    match row {
        Row::Adds(client, length) => add(rt, queue, id(client, 1), length),
        Row::Due(synced, clients) => right_at(
            rt,
            are_due(rt, queue, synced, clients),
            "row",
            at as u64,
        ),
        Row::Leaves(synced) => leave(queue, synced),
    }
}

#[test]
fn gives_due_ids_in_the_order_of_adding(rt: HostRuntime) {
    let mut queue = Queue::new(rt.alloc());
    for (at, row) in ROWS.iter().enumerate() {
        try_row(&rt, &mut queue, at, *row);
    }
    drop(queue);
}

fn forty_thousand(rt: &impl Abort, alloc: Global) -> Queue {
    let mut queue = Queue::new(alloc);
    for number in 0..40000 {
        let id = id(number % 64, 40000_u32.wrapping_sub(number));
        add(rt, &mut queue, id, u64::from(number));
    }
    queue
}

#[test]
fn takes_many_ids(rt: HostRuntime) {
    let mut queue = forty_thousand(&rt, rt.alloc());
    queue.leave(9999);
    try_many(&rt, &queue);
    drop(queue);
}

// 10,000 ids are left, and the first of the others comes first.
fn are_many(due: &[RequestId]) -> bool {
    match due.first() {
        Some(first) => due.len() == 29999 && *first == id(10000 % 64, 30000),
        None => false,
    }
}

fn try_many(rt: &impl Abort, queue: &Queue) {
    let due = must(rt, queue.due(39998));
    right(rt, are_many(&due), "many");
    drop(due);
}

// Orders as bytes, which were written by hand: the checksum by another program.
use crate::build::{must, must_hold};
use curp_base::Shared;
use curp_batches::{batch_in, write_arrival};
use curp_cmd::{Command, Keeper, Key, Value};
use curp_items::Writer;
use curp_journal::Arrived;
use curp_msg::Local;
use std::alloc::Global;
use std::process::Abort;

/// An order of each kind, with the stamps from 1 on.
static ORDERS: [u8; 181] = [
    1, 1, 0, 0, 0, 1, 0, 0, 0, 2, 0, 0, 0, 3, 0, 0, 0, 0, 0, 0, 0, 1, //
    1, 2, 0, 0, 0, 4, 1, 0, 0, 0, 5, 0, 0, 0, 0, 0, 0, 0, 2, //
    1, 2, 0, 0, 0, 4, 0, 0, 0, 0, 5, 0, 0, 0, 0, 0, 0, 0, 3, //
    1, 3, 0, 0, 0, 0, 0, 0, 0, 6, 0, 0, 0, 0, 0, 0, 0, 7, 0, 0, 0, 8, 0, 0, 0, 0, 0, 0, 0, 4, //
    1, 4, 0, 0, 0, 0, 0, 0, 0, 5, //
    1, 5, 0, 0, 0, 9, 0, 0, 0, 0, 0, 0, 0, 6, //
    1, 6, 2, 1, 97, 1, 49, 0, 0, 0, 0, 0, 0, 0, 7, //
    1, 7, 0, 0, 0, 10, 0, 0, 0, 0, 0, 0, 0, 8, //
    1, 8, 0, 0, 0, 0, 0, 0, 0, 9, //
    1, 9, 0, 0, 0, 0, 0, 0, 0, 10, //
    1, 10, 0, 0, 0, 0, 0, 0, 0, 11, //
    107, 61, 193, 220, 209, 67, 135, 128, //
];

fn recover() -> Local {
    Local::Recover {
        part: 1,
        backup: 2,
        witness: 3,
    }
}

fn replace(keeper: Keeper) -> Local {
    Local::Replace {
        keeper,
        part: 4,
        place: 5,
    }
}

fn migrate() -> Local {
    Local::Migrate {
        lo: 6,
        hi: 7,
        to: 8,
    }
}

fn put(rt: &impl Abort, alloc: Global) -> Local {
    let key = Key::new(b"a").expect(rt, "no key");
    let value = Value::new(b"1").expect(rt, "no value");
    let command = Shared::new(alloc, Command::Put(key, value));
    Local::Invoke(command.ok().expect(rt, "no memory"))
}

fn add(rt: &impl Abort, orders: &mut Vec<Arrived>, order: Local, stamp: u64) {
    must(rt, orders.push(Arrived::Local(order, stamp)));
}

fn all_orders(rt: &impl Abort, alloc: Global) -> Vec<Arrived> {
    let mut orders = Vec::new(alloc);
    add(rt, &mut orders, recover(), 1);
    add(rt, &mut orders, replace(Keeper::Backup), 2);
    add(rt, &mut orders, replace(Keeper::Witness), 3);
    add(rt, &mut orders, migrate(), 4);
    add(rt, &mut orders, Local::Nudge, 5);
    add(rt, &mut orders, Local::Expire(9), 6);
    add(rt, &mut orders, put(rt, alloc), 7);
    add(rt, &mut orders, Local::Retry(10), 8);
    add(rt, &mut orders, Local::Fetch, 9);
    add(rt, &mut orders, Local::Sync, 10);
    add(rt, &mut orders, Local::Collect, 11);
    orders
}

fn read(rt: &impl Abort, alloc: Global, bytes: &[u8]) -> Option<Vec<Arrived>> {
    batch_in(alloc, bytes).expect(rt, "no memory")
}

fn is_same(one: &Arrived, other: &Arrived) -> bool {
    match (one, other) {
        (Arrived::Local(order, stamp), Arrived::Local(wanted, at)) => {
            order == wanted && stamp == at
        }
        _ => false,
    }
}

fn write(rt: &impl Abort, alloc: Global, order: &Arrived, out: &mut Writer) {
    match order {
        Arrived::Local(_, _) => write_arrival(alloc, order, out).expect(rt, "no memory"),
        Arrived::Message(_) => {}
    }
}

/// All but the checksum.
#[test]
fn orders_are_written_so(rt: HostRuntime) {
    let alloc = rt.alloc();
    let mut out = Writer::new(Vec::new(alloc));
    for order in all_orders(&rt, alloc).iter() {
        write(&rt, alloc, order, &mut out);
    }
    must_hold(&rt, "written", is_written(out.into_vec().as_slice()));
}

fn is_written(bytes: &[u8]) -> bool {
    match ORDERS.strip_prefix(bytes) {
        Some(checksum) => checksum.len() == 8,
        None => false,
    }
}

#[test]
fn orders_are_read_back(rt: HostRuntime) {
    let wanted = all_orders(&rt, rt.alloc());
    let orders = read(&rt, rt.alloc(), &ORDERS).expect(&rt, "no batch");
    must_hold(&rt, "as many", orders.len() == wanted.len());
    for (one, other) in orders.iter().zip(&wanted) {
        must_hold(&rt, "an order", is_same(one, other));
    }
}

/// Bytes that are cut; and the checksum of no bytes, which is that of an empty batch.
#[test]
fn what_is_no_batch_is_told(rt: HostRuntime) {
    let alloc = rt.alloc();
    for end in 0..ORDERS.len() {
        let cut = ORDERS.get(..end).unwrap_or(&ORDERS);
        must_hold(&rt, "cut", read(&rt, alloc, cut).is_none());
    }
    let none = [203, 242, 156, 228, 132, 34, 35, 37];
    let empty = read(&rt, alloc, &none).expect(&rt, "no batch");
    must_hold(&rt, "empty", empty.is_empty());
}

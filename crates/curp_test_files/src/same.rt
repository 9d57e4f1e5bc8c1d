// Messages that differ in one place.
use curp_base::{AscendingPairs, Items, Shared, pairs_ascend};
use curp_cmd::{Command, Entry, Key, NodeId, Package, Request, RequestId, TablePart, Value};
use curp_msg::{Append, Body, Message};
use curp_same::Same;
use std::alloc::Global;
use std::process::Abort;

fn value(rt: &impl Abort, bytes: &[u8]) -> Value {
    Value::new(bytes).expect(rt, "no value")
}

// A range with one pair.
fn take(rt: &impl Abort, alloc: Global, key: Key, value: Value) -> Entry {
    let pairs = Vec::from_slice(alloc, &[(key, value)]).expect(rt, "no memory");
    assert!(rt; pairs_ascend(&pairs));
    let package = Package {
        lo: 0,
        hi: 9,
        pairs: AscendingPairs::new(pairs),
        table: TablePart::new(alloc),
    };
    Entry::Take {
        migration: 1,
        package: Shared::new(alloc, package).ok().expect(rt, "no memory"),
    }
}

// An update.
fn put(rt: &impl Abort, alloc: Global, key: Key, value: Value) -> Entry {
    let request = Request {
        id: RequestId { client: 1, seq: 1 },
        first: 1,
        command: Command::Put(key, value),
    };
    Entry::Op {
        request: Shared::of(alloc, &request).expect(rt, "no memory"),
        acknowledge: 1,
    }
}

// An update, and a range with one pair, that a master sends a backup: the value of a key in each.
fn message(rt: &impl Abort, alloc: Global, updated: Value, taken: Value) -> Message {
    let key = Key::new(b"a").expect(rt, "no key");
    let mut entries = Vec::new(alloc);
    assert!(rt; entries.push(put(rt, alloc, key, updated)).is_ok());
    assert!(rt; entries.push(take(rt, alloc, key, taken)).is_ok());
    Message {
        from: NodeId::master(1),
        to: NodeId::backup(1),
        body: Body::Append(Append {
            epoch: 1,
            base: 0,
            round: 1,
            entries: Items::new(entries),
        }),
    }
}

fn is_as(message: &Message, other: Message) -> bool {
    let is_same = message.same(&other);
    drop(other);
    is_same
}

// A message is told to be its copy, and not those in which one value is another one.
#[test]
fn messages_are_told_apart(rt: HostRuntime) {
    let alloc = rt.alloc();
    let (one, two) = (value(&rt, b"1"), value(&rt, b"2"));
    let sent = message(&rt, alloc, one, one);
    let copy = sent.copy(alloc).expect(&rt, "no memory");
    assert!(rt; is_as(&sent, copy));
    assert!(rt; !is_as(&sent, message(&rt, alloc, two, one)));
    assert!(rt; !is_as(&sent, message(&rt, alloc, one, two)));
    drop(sent);
}

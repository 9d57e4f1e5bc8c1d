//! The texts of keys, values, commands, answers, requests' numbers, nodes and errors.

use crate::build::{get, key, must, put, right, value};
use curp_cmd::{Answer, Command, KeyError, MultiError, NodeId, NodeKind, RequestId, ValueError};
use std::alloc::Global;
use std::fmt::{Debug, Display};
use std::process::Abort;

fn shows(rt: &impl Abort, alloc: Global, shown: &impl Display, text: &str) {
    let written = must(rt, format!(in alloc; "{shown}"));
    right(rt, written.as_str() == text, text);
    drop(written);
}

fn debugs(rt: &impl Abort, alloc: Global, shown: &impl Debug, text: &str) {
    let written = must(rt, format!(in alloc; "{shown:?}"));
    right(rt, written.as_str() == text, text);
    drop(written);
}

// "a" is put only where it is absent, or has "1".
fn cond_put(rt: &impl Abort, expected: &[u8]) -> Command {
    let expected = match expected {
        [] => None,
        bytes => Some(value(rt, bytes)),
    };
    Command::CondPut(key(rt, b"a"), expected, value(rt, b"2"))
}

fn two_puts(rt: &impl Abort) -> Command {
    let pairs = [
        (key(rt, b"a"), value(rt, b"1")),
        (key(rt, b"b"), value(rt, b"")),
    ];
    must(rt, Command::multi(&pairs))
}

#[test]
fn commands_have_texts(rt: HostRuntime) {
    let alloc = rt.alloc();
    shows(&rt, alloc, &get(&rt, b"a"), "get 61");
    shows(&rt, alloc, &put(&rt, b"a", b"1"), "put 61 31");
    shows(&rt, alloc, &put(&rt, b"a", b""), "put 61 .");
    shows(&rt, alloc, &Command::Delete(key(&rt, b"\x00")), "delete 00");
    shows(&rt, alloc, &Command::Incr(key(&rt, b"n")), "incr 6e");
    let append = Command::Append(key(&rt, b"a"), value(&rt, b"\xff\x0a"));
    shows(&rt, alloc, &append, "append 61 ff0a");
    shows(&rt, alloc, &cond_put(&rt, b""), "condput 61 - 32");
    shows(&rt, alloc, &cond_put(&rt, b"1"), "condput 61 31 32");
    shows(&rt, alloc, &two_puts(&rt), "multi 61 31 62 .");
}

#[test]
fn answers_have_texts(rt: HostRuntime) {
    let alloc = rt.alloc();
    shows(&rt, alloc, &Answer::Done, "done");
    shows(&rt, alloc, &Answer::Removed(true), "removed");
    shows(&rt, alloc, &Answer::Removed(false), "absent");
    shows(
        &rt,
        alloc,
        &Answer::Number(u64::MAX),
        "number 18446744073709551615",
    );
    shows(&rt, alloc, &Answer::Length(128), "length 128");
    shows(&rt, alloc, &Answer::Swapped(true), "swapped");
    shows(&rt, alloc, &Answer::Swapped(false), "kept");
    shows(&rt, alloc, &Answer::NotNumber, "not-number");
    shows(&rt, alloc, &Answer::Overflow, "overflow");
    shows(&rt, alloc, &Answer::TooLong, "too-long");
    shows(&rt, alloc, &Answer::Found(None), "none");
    shows(
        &rt,
        alloc,
        &Answer::Found(Some(value(&rt, b"1"))),
        "found 31",
    );
}

#[test]
fn names_have_texts(rt: HostRuntime) {
    let alloc = rt.alloc();
    shows(&rt, alloc, &RequestId { client: 9, seq: 10 }, "9.10");
    shows(
        &rt,
        alloc,
        &RequestId {
            client: 999,
            seq: 1000,
        },
        "999.1000",
    );
    shows(&rt, alloc, &NodeId::manager(), "G");
    shows(&rt, alloc, &NodeId::client(1), "C1");
    shows(&rt, alloc, &NodeId::master(99), "M99");
    shows(&rt, alloc, &NodeId::backup(100), "B100");
    shows(&rt, alloc, &NodeId::witness(u32::MAX), "W4294967295");
    shows(&rt, alloc, &NodeKind::Witness, "witness");
    debugs(&rt, alloc, &key(&rt, b"a"), "Key(61)");
    debugs(&rt, alloc, &get(&rt, b"a"), "Get(Key(61))");
}

#[test]
fn errors_have_texts(rt: HostRuntime) {
    let alloc = rt.alloc();
    shows(&rt, alloc, &KeyError::Empty, "a key has at least one byte");
    shows(
        &rt,
        alloc,
        &ValueError::TooLong,
        "a value has at most 128 bytes",
    );
    shows(
        &rt,
        alloc,
        &MultiError::KeyTwice,
        "a multi-put has no key twice",
    );
}

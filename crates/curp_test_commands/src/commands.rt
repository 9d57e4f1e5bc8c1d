//! Commands, and the store that does them.

use crate::build::{key, made, must, put, right, right_at, value};
use curp_base::{keys_ascend, pairs_ascend};
use curp_cmd::{Answer, Command, Key, KeyError, Store, TablePart, Value, ValueError, bytes_hash};
use std::alloc::Global;
use std::process::Abort;

fn applied(rt: &impl Abort, store: &mut Store, command: &Command) -> Answer {
    made(rt, store.reserve(command.key_count()));
    store.apply(command)
}

fn try_apply(rt: &impl Abort, store: &mut Store, command: &Command, answer: Answer) {
    right(rt, applied(rt, store, command) == answer, "apply");
}

fn try_get(rt: &impl Abort, store: &Store, key: &Key, value: &Value) {
    right(rt, store.get(key) == Some(*value), "get");
}

// "b" is put twice, and "a" between.
#[test]
fn keeps_the_last_value_of_a_key(rt: HostRuntime) {
    let mut store = Store::new(rt.alloc());
    try_apply(&rt, &mut store, &put(&rt, b"b", b"1"), Answer::Done);
    try_apply(&rt, &mut store, &put(&rt, b"a", b"1"), Answer::Done);
    try_apply(&rt, &mut store, &put(&rt, b"b", b"2"), Answer::Done);
    try_get(&rt, &store, &key(&rt, b"b"), &value(&rt, b"2"));
    try_pairs(&rt, rt.alloc(), &store);
    drop(store);
}

fn try_pairs(rt: &impl Abort, alloc: Global, store: &Store) {
    let pairs = must(rt, store.pairs(alloc));
    let expected = [
        (key(rt, b"a"), value(rt, b"1")),
        (key(rt, b"b"), value(rt, b"2")),
    ];
    right(rt, pairs.as_slice() == expected.as_slice(), "pairs");
    drop(pairs);
}

// The number's key, in no order of the numbers: the multiplier is odd, so no two numbers have one key.
fn scattered(rt: &impl Abort, number: u32) -> Key {
    key(rt, &number.wrapping_mul(0x9e3779b1).to_be_bytes())
}

// Each number's key is made one more.
fn increment_all(rt: &impl Abort, store: &mut Store) {
    for number in 0..100_000_u32 {
        let command = Command::Incr(scattered(rt, number));
        try_apply(rt, store, &command, Answer::Number(1));
    }
}

fn get_all(rt: &impl Abort, store: &Store) {
    let one = Value::from_number(1);
    for number in 0..100_000_u32 {
        try_get(rt, store, &scattered(rt, number), &one);
    }
}

fn delete_all(rt: &impl Abort, store: &mut Store) {
    for number in 0..100_000_u32 {
        let command = Command::Delete(scattered(rt, number));
        try_apply(rt, store, &command, Answer::Removed(true));
    }
}

fn try_count(rt: &impl Abort, alloc: Global, store: &Store, count: usize) {
    let pairs = must(rt, store.pairs(alloc));
    right(rt, pairs.len() == count, "count");
    drop(pairs);
}

#[test]
fn holds_a_hundred_thousand_keys(rt: HostRuntime) {
    let alloc = rt.alloc();
    let mut store = Store::new(alloc);
    increment_all(&rt, &mut store);
    try_count(&rt, alloc, &store, 100_000);
    get_all(&rt, &store);
    delete_all(&rt, &mut store);
    try_count(&rt, alloc, &store, 0);
    right(&rt, store.reserve(u64::MAX).is_err(), "no room");
    drop(store);
}

fn try_key(rt: &impl Abort, bytes: &[u8], error: Option<KeyError>) {
    right_at(
        rt,
        Key::new(bytes).err() == error,
        "key",
        bytes.len() as u64,
    );
}

fn try_value(rt: &impl Abort, bytes: &[u8], error: Option<ValueError>) {
    right_at(
        rt,
        Value::new(bytes).err() == error,
        "value",
        bytes.len() as u64,
    );
}

#[test]
fn takes_keys_and_values_up_to_their_sizes(rt: HostRuntime) {
    try_key(&rt, &[7; 32], None);
    try_key(&rt, &[7; 33], Some(KeyError::TooLong));
    try_value(&rt, &[7; 128], None);
    try_value(&rt, &[7; 129], Some(ValueError::TooLong));
}

#[test]
fn keys_that_fall_or_stand_twice_are_told(rt: HostRuntime) {
    right(&rt, !keys_ascend(&[1, 3, 2]), "keys that fall");
    let twice = pairs_ascend(&[(1, 1), (1, 2)]);
    right(&rt, !twice, "keys that stand twice");
    let part = TablePart::new(rt.alloc());
    right(&rt, part.gone.len() == 0, "an empty part of a table");
    drop(part);
}

// The vectors that the authors of FNV published.
const HASHES: [(&[u8], u64); 6] = [
    (b"", 0xcbf29ce484222325),
    (b"a", 0xaf63dc4c8601ec8c),
    (b"b", 0xaf63df4c8601f1a5),
    (b"c", 0xaf63de4c8601eff2),
    (b"fo", 0x08985907b541d342),
    (b"foobar", 0x85944171f73967e8),
];

#[test]
fn hashes_as_published(rt: HostRuntime) {
    for (bytes, hash) in HASHES {
        right_at(&rt, bytes_hash(bytes) == hash, "hash", hash);
    }
}

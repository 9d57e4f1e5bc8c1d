//! Packed entries, alone and in a backup: how many are packed, as which bytes, and what is read back.
ghost use Rattle.std.specs.Prelude.{◌≡◌, ◌≤◌, ◌^◌, ℕ, false, length};
ghost use Rattle.curp_cmd.specs.declared.entry.Entry.TheVariants.{Give, Take};
ghost use Rattle.curp_cmd.specs.declared.migration.Package.{Package};

use crate::build::{key, made, must, op, put, request, right, right_at, value};
use crate::packages::{ascending, gone, held, package};
use curp_backup::Backup;
use curp_base::past;
use curp_cmd::{Answer, Command, Entry, Key, Package, Request, RequestId, TablePart, Value};
use curp_entries::{PackedEntries, has_encoding};
use curp_same::{Same, all_same};
use std::alloc::Global;
use std::process::Abort;

// ---- Entries of all four kinds in turn, which have the numbers of their places, and how they are encoded

fn entry_at(rt: &impl Abort, alloc: Global, number: u32) -> Entry {
    match number % 4 {
        0 => op(rt, alloc, &put_at(rt, number), number),
        1 => Entry::Take {
            migration: number,
            package: package(rt, alloc),
        },
        2 => Entry::Give {
            migration: number,
            package: package(rt, alloc),
        },
        _ => Entry::Expire { client: number },
    }
}

fn put_at(rt: &impl Abort, number: u32) -> Request {
    request(1, number, put(rt, &number.to_be_bytes(), b"v"))
}

fn entries(rt: &impl Abort, alloc: Global, count: u32) -> Vec<Entry> {
    let mut entries = Vec::new(alloc);
    for number in 0..count {
        must(rt, entries.push(entry_at(rt, alloc, number)));
    }
    entries
}

const TAKE: &[u8] = b"\x02";

const GIVE: &[u8] = b"\x03";

const EXPIRE: &[u8] = b"\x04";

// An Op of client 1.
const OP: &[u8] = b"\x01\x00\x00\x00\x01";

// The first request that isn't acknowledged, a put, and the length of its key.
const PUT: &[u8] = b"\x00\x00\x00\x01\x02\x04";

const VALUE: &[u8] = b"\x01v";

const PACKAGE: &[u8] = b"\x00\x00\x00\x00\x00\x00\x00\x00\x00\x00\x00\x00\x00\x00\x00\x63\
    \x00\x00\x00\x02\x01a\x011\x01b\x011\
    \x00\x00\x00\x03\
    \x00\x00\x00\x01\x00\x00\x00\x09\x01\
    \x00\x00\x00\x02\x00\x00\x00\x03\x01\
    \x00\x00\x00\x02\x00\x00\x00\x04\x01\
    \x00\x00\x00\x02\x00\x00\x00\x01\x00\x00\x00\x09\x00\x00\x00\x02\x00\x00\x00\x03\
    \x00\x00\x00\x01\x00\x00\x00\x04";

fn encode(rt: &impl Abort, number: u32, bytes: &mut Vec<u8>) {
    let own = number.to_be_bytes();
    match number % 4 {
        0 => add_all(rt, bytes, &[OP, &own, PUT, &own, VALUE, &own]),
        1 => add_all(rt, bytes, &[TAKE, &own, PACKAGE]),
        2 => add_all(rt, bytes, &[GIVE, &own, PACKAGE]),
        _ => add_all(rt, bytes, &[EXPIRE, &own]),
    }
}

fn add_all(rt: &impl Abort, bytes: &mut Vec<u8>, parts: &[&[u8]]) {
    for part in parts {
        must(rt, bytes.extend_from_slice(part));
    }
}

fn encoded(rt: &impl Abort, alloc: Global, count: u32) -> Vec<u8> {
    let mut bytes = Vec::new(alloc);
    for number in 0..count {
        encode(rt, number, &mut bytes);
    }
    bytes
}

// ---- Alone

fn kept(rt: &impl Abort, alloc: Global, entries: &[Entry]) -> PackedEntries {
    let mut kept = PackedEntries::new(alloc);
    must(rt, kept.extend(entries));
    kept
}

fn packed(rt: &impl Abort, alloc: Global, entries: &[Entry]) -> PackedEntries {
    let mut kept = kept(rt, alloc, entries);
    must(rt, kept.pack());
    kept
}

// How many entries there are, and how many of them are packed then.
const SIZES: [(u32, u32); 11] = [
    (0, 0),
    (1, 0),
    (63, 0),
    (64, 0),
    (65, 0),
    (127, 0),
    (128, 64),
    (191, 64),
    (192, 128),
    (200, 128),
    (10_000, 9_920),
];

#[test]
fn packs_all_but_a_short_tail(rt: HostRuntime) {
    for (size, packed) in SIZES {
        try_size(&rt, rt.alloc(), size, packed);
    }
}

fn try_size(rt: &impl Abort, alloc: Global, size: u32, packed: u32) {
    let plain = entries(rt, alloc, size);
    let mut kept = kept(rt, alloc, &plain);
    drop(plain);
    try_packing(rt, alloc, &mut kept, packed);
    drop(kept);
}

fn try_packing(rt: &impl Abort, alloc: Global, kept: &mut PackedEntries, packed: u32) {
    try_packed(rt, alloc, kept, 0);
    must(rt, kept.pack());
    try_packed(rt, alloc, kept, packed);
    must(rt, kept.reserve(10_000));
    try_packed(rt, alloc, kept, packed);
}

// So many are packed, as the bytes that are encoded here.
fn try_packed(rt: &impl Abort, alloc: Global, kept: &PackedEntries, packed: u32) {
    let bytes = encoded(rt, alloc, packed);
    let (count, found) = kept.packed();
    right_at(rt, count == u64::from(packed), "packed", count);
    right_at(rt, are(found, &bytes), "packed bytes", count);
    drop(bytes);
}

fn are(found: &[u8], bytes: &[u8]) -> bool {
    found == bytes
}

#[test]
fn packs_before_each_push(rt: HostRuntime) {
    let mut kept = PackedEntries::new(rt.alloc());
    for number in 0..10_000 {
        push_next(&rt, rt.alloc(), &mut kept, number);
    }
    try_kept(&rt, rt.alloc(), &kept);
    drop(kept);
}

fn push_next(rt: &impl Abort, alloc: Global, kept: &mut PackedEntries, number: u32) {
    made(rt, kept.reserve(1));
    let (packed, _) = kept.packed();
    right(
        rt,
        packed % 64 == 0 && u64::from(number) < packed.saturating_add(128),
        "push next",
    );
    kept.push(entry_at(rt, alloc, number));
}

fn try_kept(rt: &impl Abort, alloc: Global, kept: &PackedEntries) {
    let plain = entries(rt, alloc, 10_000);
    try_rest(rt, kept, &plain, 0);
    right(rt, kept.packed().0 == 9_920, "kept");
    drop(plain);
}

const PLACES: [u64; 9] = [0, 63, 64, 65, 9_919, 9_920, 9_921, 10_000, 10_001];

const ENDS: [u64; 3] = [65, 9_920, 9_921];

// The plain entries from an index on, as far as another.
fn part(entries: &[Entry], start: u64, end: u64) -> &[Entry] {
    let rest = past(entries, start);
    let count = end.saturating_sub(start) as usize;
    rest.get(..count).unwrap_or(rest)
}

fn try_rest(rt: &impl Abort, kept: &PackedEntries, plain: &[Entry], start: u64) {
    let rest = must(rt, kept.suffix(start));
    right_at(rt, all_same(&rest, past(plain, start)), "rest", start);
    drop(rest);
}

fn try_part(rt: &impl Abort, kept: &PackedEntries, plain: &[Entry], start: u64, end: u64) {
    let found = must(rt, kept.between(start, end));
    right_at(rt, all_same(&found, part(plain, start, end)), "part", start);
    drop(found);
}

fn try_parts(rt: &impl Abort, kept: &PackedEntries, plain: &[Entry]) {
    for start in PLACES {
        try_rest(rt, kept, plain, start);
        for end in ENDS {
            try_part(rt, kept, plain, start, end);
        }
    }
}

#[test]
fn reads_each_part(rt: HostRuntime) {
    let plain = entries(&rt, rt.alloc(), 10_000);
    let kept = packed(&rt, rt.alloc(), &plain);
    try_parts(&rt, &kept, &plain);
    drop(kept);
    drop(plain);
}

fn request_of(entry: &Entry) -> Option<Request> {
    match entry {
        Entry::Op { request, .. } => Some(**request),
        _ => None,
    }
}

// By itself the entry is told only where it isn't packed.
fn is_newest(kept: &PackedEntries, index: u64, entry: &Entry) -> bool {
    match kept.newest(index) {
        Some(newest) => index >= 9_920 && newest.same(entry),
        None => index < 9_920,
    }
}

fn is_copied(rt: &impl Abort, kept: &PackedEntries, index: u64, entry: &Entry) -> bool {
    match must(rt, kept.entry(index)) {
        Some(copy) => copy.same(entry),
        None => false,
    }
}

fn try_told(rt: &impl Abort, kept: &PackedEntries, index: u64, entry: &Entry) {
    right_at(rt, is_newest(kept, index, entry), "told (1)", index);
    right_at(rt, is_copied(rt, kept, index, entry), "told (2)", index);
    right_at(
        rt,
        kept.request(index) == request_of(entry),
        "told (3)",
        index,
    );
}

fn try_all_told(rt: &impl Abort, kept: &PackedEntries, plain: &[Entry]) {
    for (index, entry) in plain.iter().enumerate() {
        if index < 200 || index >= 9_850 {
            try_told(rt, kept, index as u64, entry);
        }
    }
}

// Nothing is told past the end.
fn try_end(rt: &impl Abort, kept: &PackedEntries) {
    right(rt, kept.len() == 10_000, "end (1)");
    right(rt, must(rt, kept.entry(10_000)).is_none(), "end (2)");
    right(rt, kept.newest(10_000).is_none(), "end (3)");
    right(rt, kept.request(10_000).is_none(), "end (4)");
}

#[test]
fn tells_the_oldest_and_the_newest_entries(rt: HostRuntime) {
    let plain = entries(&rt, rt.alloc(), 10_000);
    let kept = packed(&rt, rt.alloc(), &plain);
    try_all_told(&rt, &kept, &plain);
    try_end(&rt, &kept);
    drop(kept);
    drop(plain);
}

// ---- In a backup

// The base of an append, up to where its entries reach, and how many are packed then.
const APPENDS: [(u64, u64, u64); 8] = [
    (0, 5_000, 0),
    (63, 5_010, 4_928),
    (64, 5_100, 4_928),
    (65, 5_200, 4_992),
    (4_990, 6_000, 5_120),
    (5_128, 9_000, 5_888),
    (9_000, 10_000, 8_896),
    (10_000, 10_000, 9_920),
];

#[test]
fn a_backup_appends_from_what_is_packed_on(rt: HostRuntime) {
    let plain = entries(&rt, rt.alloc(), 10_000);
    let mut backup = Backup::new(rt.alloc());
    try_install(&rt, &mut backup);
    try_appends(&rt, &mut backup, &plain);
    try_whole(&rt, rt.alloc(), &mut backup, &plain);
    drop(backup);
    drop(plain);
}

fn try_append(rt: &impl Abort, backup: &mut Backup, base: u64, sent: &[Entry], end: u64) {
    right_at(
        rt,
        backup.append(1, base, sent, 1) == Ok(end),
        "append",
        base,
    );
}

fn try_count(rt: &impl Abort, backup: &Backup, packed: u64) {
    right_at(rt, backup.packed().0 == packed, "count", packed);
}

fn try_install(rt: &impl Abort, backup: &mut Backup) {
    right(rt, backup.install(1) == Ok(()), "install");
}

fn try_appends(rt: &impl Abort, backup: &mut Backup, plain: &[Entry]) {
    for (base, end, packed) in APPENDS {
        let sent = part(plain, base, end);
        try_append(rt, backup, base, sent, end);
        try_count(rt, backup, packed);
        try_backup(rt, backup, part(plain, 0, end));
    }
}

fn try_backup(rt: &impl Abort, backup: &Backup, plain: &[Entry]) {
    let log = must(rt, backup.log());
    right_at(rt, all_same(&log, plain), "backup", plain.len() as u64);
    drop(log);
}

fn try_whole(rt: &impl Abort, alloc: Global, backup: &mut Backup, plain: &[Entry]) {
    let bytes = encoded(rt, alloc, 9_920);
    right(rt, are(backup.packed().1, &bytes), "whole");
    drop(bytes);
    try_fenced(rt, backup, plain);
}

fn try_fenced(rt: &impl Abort, backup: &mut Backup, plain: &[Entry]) {
    let log = must(rt, backup.fence(2));
    right(rt, all_same(&log, plain), "fenced");
    drop(log);
}

// ---- The largest

// Four keys and values, each of the most bytes.
fn largest(rt: &impl Abort) -> Command {
    let value = value(rt, &[255; 128]);
    let pairs = [
        (key(rt, &[1; 32]), value),
        (key(rt, &[2; 32]), value),
        (key(rt, &[3; 32]), value),
        (key(rt, &[4; 32]), value),
    ];
    must(rt, Command::multi(&pairs))
}

fn largest_op(rt: &impl Abort, alloc: Global, seq: u32) -> Entry {
    let request = request(u32::MAX, seq, largest(rt));
    op(rt, alloc, &request, u32::MAX)
}

fn largest_ops(rt: &impl Abort, alloc: Global, count: u32) -> Vec<Entry> {
    let mut entries = Vec::new(alloc);
    for seq in 0..count {
        must(rt, entries.push(largest_op(rt, alloc, seq)));
    }
    entries
}

#[test]
fn packs_the_largest_operations(rt: HostRuntime) {
    let plain = largest_ops(&rt, rt.alloc(), 128);
    let kept = packed(&rt, rt.alloc(), &plain);
    try_largest(&rt, &kept);
    try_rest(&rt, &kept, &plain, 0);
    drop(kept);
    drop(plain);
}

const LARGEST: usize = 64 * (1 + 12 + 2 + 4 * (33 + 129) + 4);

fn try_largest(rt: &impl Abort, kept: &PackedEntries) {
    let (packed, bytes) = kept.packed();
    right(rt, packed == 64, "largest (1)");
    right(rt, bytes.len() == LARGEST, "largest (2)");
}

fn many_pairs(rt: &impl Abort, alloc: Global, count: u32) -> Vec<(Key, Value)> {
    let value = value(rt, &[7; 128]);
    let mut pairs = Vec::new(alloc);
    for number in 0..count {
        must(rt, pairs.push((key(rt, &number.to_be_bytes()), value)));
    }
    pairs
}

fn many_records(rt: &impl Abort, alloc: Global, count: u32) -> Vec<(RequestId, Answer)> {
    let mut records = Vec::new(alloc);
    for seq in 0..count {
        must(
            rt,
            records.push((RequestId { client: 1, seq }, Answer::Done)),
        );
    }
    records
}

fn many_firsts(rt: &impl Abort, alloc: Global, count: u32) -> Vec<(u32, u32)> {
    let mut firsts = Vec::new(alloc);
    for client in 0..count {
        must(rt, firsts.push((client, 1)));
    }
    firsts
}

fn many_clients(rt: &impl Abort, alloc: Global, count: u32) -> Vec<u32> {
    let mut clients = Vec::new(alloc);
    for client in 0..count {
        must(rt, clients.push(client));
    }
    clients
}

// So many pairs, records, firsts and expired clients.
fn large_package(rt: &impl Abort, alloc: Global, count: u32) -> Package {
    Package {
        lo: 0,
        hi: u64::MAX,
        pairs: ascending(rt, many_pairs(rt, alloc, count)),
        table: TablePart {
            records: ascending(rt, many_records(rt, alloc, count)),
            firsts: ascending(rt, many_firsts(rt, alloc, count)),
            gone: gone(rt, many_clients(rt, alloc, count)),
        },
    }
}

// The package of ten thousand pairs, and 127 entries.
fn one_large(rt: &impl Abort, alloc: Global) -> Vec<Entry> {
    let mut plain = Vec::new(alloc);
    let give = Entry::Give {
        migration: 1,
        package: held(rt, alloc, large_package(rt, alloc, 10_000)),
    };
    must(rt, plain.push(give));
    let mut rest = entries(rt, alloc, 127);
    must(rt, plain.append(&mut rest));
    drop(rest);
    plain
}

#[test]
fn packs_a_package_of_ten_thousand_pairs(rt: HostRuntime) {
    let plain = one_large(&rt, rt.alloc());
    let kept = packed(&rt, rt.alloc(), &plain);
    try_large(&rt, rt.alloc(), &kept);
    try_rest(&rt, &kept, &plain, 0);
    drop(kept);
    drop(plain);
}

// A tag, a migration, two hashes, and four counts with their items.
const LARGE: usize = 1 + 4 + 16 + 4 * 4 + 10_000 * (5 + 129 + 9 + 8 + 4);

fn try_large(rt: &impl Abort, alloc: Global, kept: &PackedEntries) {
    let (packed, bytes) = kept.packed();
    right(rt, packed == 64, "large");
    let rest = bytes.get(LARGE..).unwrap_or(b"");
    try_encoded_rest(rt, alloc, rest);
}

fn try_encoded_rest(rt: &impl Abort, alloc: Global, found: &[u8]) {
    let rest = encoded(rt, alloc, 63);
    right(rt, are(found, &rest), "bytes behind the large");
    drop(rest);
}

// ---- What has no encoding

/// Whether the entry has an encoding. No memory holds a list that is too long for its count, so what is told of such an entry
/// is proved of the rule.
fn is_encoded(entry: &Entry) -> bool
    ensures pairs { (migration : ℕ) (taken : Package) → entry.now ≡ Take migration taken
        → 2 ^ 32 ≤ length taken.pairs → result ≡ false }
    ensures records { (migration : ℕ) (given : Package) → entry.now ≡ Give migration given
        → 2 ^ 32 ≤ length given.table.records → result ≡ false }
{
    has_encoding(entry)
}

#[test]
fn small_entries_have_an_encoding(rt: HostRuntime) {
    let small = entries(&rt, rt.alloc(), 8);
    try_encoded(&rt, &small);
    drop(small);
}

fn try_encoded(rt: &impl Abort, entries: &[Entry]) {
    for entry in entries {
        right(rt, is_encoded(entry), "encoded");
    }
}

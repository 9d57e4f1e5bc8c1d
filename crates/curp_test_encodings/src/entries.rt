//! Entries are packed as their encodings, and read of them; what is cut or changed is told.
ghost use Rattle.std.specs.Prelude.{IsTrue};
ghost use Rattle.curp_items.specs.Encoding.{HasEncoding};

use crate::build::{all_kinds, give, largest, op, op_of, request, take, value};
use crate::hex::{Encoded, bytes_of, encoding_of};
use crate::holds::must_hold;
use curp_base::Failed;
use curp_cmd::Entry;
use curp_items::{Fault, encoded, pack_entry, read_entry, read_request};
use curp_same::Same;
use std::alloc::Global;
use std::process::Abort;

const MOST_ITEMS: u64 = 1 << 32;

/// Whether each list of the entry's package is short enough for its count.
fn has_encoding(entry: &Entry) -> bool
    ensures { IsTrue result → HasEncoding entry.now }
{
    match entry {
        Entry::Take { package, .. } | Entry::Give { package, .. } => package.len() < MOST_ITEMS,
        _ => true,
    }
}

// ---- what is called, of which the tests know nothing

/// Appends the entry's encoding.
fn pack(rt: &impl Abort, entry: &Entry, bytes: &mut Vec<u8>) {
    assert!(rt; has_encoding(entry));
    assert!(rt; pack_entry(entry, bytes).is_ok());
}

fn entry_of(alloc: Global, bytes: &[u8]) -> Result<(Entry, usize), Failed<Fault>> {
    read_entry(alloc, bytes)
}

// ---- an entry and its encoding

fn is_packed(rt: &impl Abort, alloc: Global, entry: &Entry, bytes: &[u8]) -> bool {
    let mut packed = Vec::from_slice(alloc, b"before").expect(rt, "no memory");
    pack(rt, entry, &mut packed);
    packed.strip_prefix(b"before".as_slice()) == Some(bytes)
}

/// How long the encoding is that the bytes begin with, if it is that of the entry.
fn length_of(alloc: Global, bytes: &[u8], entry: &Entry) -> Option<usize> {
    match entry_of(alloc, bytes) {
        Ok((found, end)) => {
            let is_same = found.same(entry);
            drop(found);
            is_same.then_some(end)
        }
        Err(_) => None,
    }
}

/// Why the bytes begin with no entry.
fn fault_of(alloc: Global, bytes: &[u8]) -> Option<Failed<Fault>> {
    match entry_of(alloc, bytes) {
        Ok((found, _)) => {
            drop(found);
            None
        }
        Err(why) => Some(why),
    }
}

/// Whether the bytes are the entry's encoding.
fn is_read(alloc: Global, entry: &Entry, bytes: &[u8]) -> bool {
    let length = bytes.len();
    length_of(alloc, bytes, entry) == Some(length) && encoded(bytes) == Some(length as u64)
}

/// Whether the entry's request is read, where it has one, and nothing else.
fn has_its_request(entry: &Entry, bytes: &[u8]) -> bool {
    let found = read_request(bytes);
    match entry {
        Entry::Op { request, .. } => found == Some(**request),
        _ => found.is_none(),
    }
}

/// Whether these bytes are no entry, for that place, and no request.
fn is_none(alloc: Global, bytes: &[u8], place: u64) -> bool {
    fault_of(alloc, bytes) == Some(Failed::Because(Fault { place })) && encoded(bytes).is_none()
}

fn cuts_are_told(alloc: Global, encoding: &Encoded) -> bool {
    for (end, item) in encoding.items.iter().enumerate() {
        let Some(cut) = encoding.bytes.get(..end) else {
            return false;
        };
        if !is_none(alloc, cut, *item) {
            return false;
        }
    }
    true
}

// ---- changes of an encoding

/// Whether another entry was read, which has these bytes.
fn is_another(
    rt: &impl Abort,
    alloc: Global,
    entry: &Entry,
    found: &Entry,
    bytes: Option<&[u8]>,
) -> bool {
    match bytes {
        Some(prefix) => !found.same(entry) && is_packed(rt, alloc, found, prefix),
        None => false,
    }
}

/// Whether a fault is told behind the last whole item, or another entry is read.
fn change_is_told(rt: &impl Abort, alloc: Global, entry: &Entry, bytes: &[u8], item: u64) -> bool {
    match entry_of(alloc, bytes) {
        Ok((found, end)) => {
            let is_right = is_another(rt, alloc, entry, &found, bytes.get(..end));
            drop(found);
            is_right
        }
        Err(Failed::Because(Fault { place })) => item <= place && place <= bytes.len() as u64,
        Err(Failed::NoMemory) => false,
    }
}

fn flip(bytes: &mut Vec<u8>, place: usize, bit: u8) {
    if let Some(byte) = bytes.get_mut(place) {
        *byte ^= bit;
    }
}

/// Whether it is told when any bit of the byte is changed. The bytes are then as before.
fn bits_are_told(
    rt: &impl Abort,
    alloc: Global,
    entry: &Entry,
    bytes: &mut Vec<u8>,
    (place, item): (usize, u64),
) -> bool {
    for bit in [1, 2, 4, 8, 16, 32, 64, 128] {
        flip(bytes, place, bit);
        if !change_is_told(rt, alloc, entry, bytes, item) {
            return false;
        }
        flip(bytes, place, bit);
    }
    true
}

fn changes_are_told(rt: &impl Abort, alloc: Global, entry: &Entry, encoding: &mut Encoded) -> bool {
    for (place, item) in encoding.items.iter().enumerate() {
        if !bits_are_told(rt, alloc, entry, &mut encoding.bytes, (place, *item)) {
            return false;
        }
    }
    true
}

fn row(rt: &impl Abort, alloc: Global, entry: Entry, text: &str) {
    let mut encoding = encoding_of(rt, alloc, text);
    let is_packed = is_packed(rt, alloc, &entry, &encoding.bytes);
    must_hold(rt, text, "packed", is_packed);
    must_hold(rt, text, "read", is_read(alloc, &entry, &encoding.bytes));
    let is_asked = has_its_request(&entry, &encoding.bytes);
    must_hold(rt, text, "request", is_asked);
    must_hold(rt, text, "cut", cuts_are_told(alloc, &encoding));
    let are_told = changes_are_told(rt, alloc, &entry, &mut encoding);
    must_hold(rt, text, "changed", are_told);
    drop(entry);
}

/// An entry of each kind, with its encoding written by hand.
#[test]
fn entries_of_each_kind(rt: HostRuntime) {
    let alloc = rt.alloc();
    row(
        &rt,
        alloc,
        op(&rt, alloc),
        "01 00000001 00000002 00000002 02 0161 0131 00000001",
    );
    row(
        &rt,
        alloc,
        take(&rt, alloc),
        "02 00000003 0000000000000000 0fffffffffffffff 00000002 0161 0131 0162 00 \
        00000002 00000001 00000002 01 00000003 0000000e 07 00000001 00000001 00000002 00000002 00000004 00000006",
    );
    row(
        &rt,
        alloc,
        give(&rt, alloc),
        "03 00000003 0000000000000007 0000000000000007 00000000 00000000 00000000 00000000",
    );
    row(&rt, alloc, Entry::Expire { client: 7 }, "04 00000007");
}

// ---- bytes that are no entry

static NONE: [(&str, u64); 9] = [
    ("", 0),
    ("00", 0),
    ("05", 0),
    ("04 00", 1),
    ("04 000000", 1),
    // no command, and a key that stands twice
    ("01 00000001 00000002 00000002 00 0161 00000001", 13),
    (
        "01 00000001 00000002 00000002 07 02 0161 00 0161 00 00000001",
        18,
    ),
    // a range whose ends aren't in order, and clients that aren't
    (
        "02 00000003 0000000000000002 0000000000000001 00000000 00000000 00000000 00000000",
        13,
    ),
    (
        "03 00000003 0000000000000002 0000000000000002 00000000 00000000 00000000 00000002 00000006 00000004",
        41,
    ),
];

fn try_none(rt: &impl Abort, alloc: Global, text: &str, place: u64) {
    let bytes = bytes_of(rt, alloc, text);
    must_hold(rt, text, "entry", is_none(alloc, &bytes, place));
    must_hold(rt, text, "request", read_request(&bytes).is_none());
}

#[test]
fn entries_that_are_none(rt: HostRuntime) {
    for (text, place) in &NONE {
        try_none(&rt, rt.alloc(), text, *place);
    }
}

// ---- many entries, and the largest

/// Whether the entries are read of the bytes in turn, and nothing is left.
fn are_read(alloc: Global, entries: &[Entry], bytes: &[u8]) -> bool {
    let mut rest = bytes;
    for entry in entries {
        let Some(end) = length_of(alloc, rest, entry) else {
            return false;
        };
        rest = rest.get(end..).unwrap_or(rest);
    }
    rest.is_empty()
}

fn packed(rt: &impl Abort, alloc: Global, entries: &[Entry]) -> Vec<u8> {
    let mut bytes = Vec::new(alloc);
    for entry in entries {
        pack(rt, entry, &mut bytes);
    }
    bytes
}

/// 22, 78, 37 and 5 bytes, so many times.
const MANY: usize = 2_500 * 142;

fn try_many(rt: &impl Abort, alloc: Global, entries: &[Entry]) {
    let bytes = packed(rt, alloc, entries);
    must_hold(rt, "many", "length", bytes.len() == MANY);
    must_hold(rt, "many", "read", are_read(alloc, entries, &bytes));
}

#[test]
fn ten_thousand_entries_are_read_back(rt: HostRuntime) {
    let entries = all_kinds(&rt, rt.alloc(), 2_500);
    try_many(&rt, rt.alloc(), &entries);
    drop(entries);
}

const LARGEST: usize = 1 + 12 + 2 + 4 * 162 + 4;

fn try_largest(rt: &impl Abort, alloc: Global, entry: &Entry) {
    let mut bytes = Vec::new(alloc);
    pack(rt, entry, &mut bytes);
    must_hold(rt, "largest", "length", bytes.len() == LARGEST);
    must_hold(rt, "largest", "read", is_read(alloc, entry, &bytes));
    must_hold(rt, "largest", "request", has_its_request(entry, &bytes));
}

#[test]
fn the_largest_operation(rt: HostRuntime) {
    let multi = largest(&rt, value(&rt, &[255; 128]));
    let entry = op_of(&rt, rt.alloc(), request(multi), u32::MAX);
    try_largest(&rt, rt.alloc(), &entry);
    drop(entry);
}

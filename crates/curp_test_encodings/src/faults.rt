//! Frames that are none, each with the first thing that is wrong with it and its place, told by hand.

use crate::calls::fault_of;
use crate::hex::bytes_of;
use crate::holds::must_hold;
use curp_base::Failed;
use curp_wire::FrameError;
use std::alloc::Global;
use std::process::Abort;

fn try_fault(rt: &impl Abort, alloc: Global, text: &str, why: FrameError) {
    let bytes = bytes_of(rt, alloc, text);
    let found = fault_of(alloc, &bytes);
    must_hold(rt, text, "fault", found == Some(Failed::Because(why)));
}

/// Each row has a frame and its fault.
fn try_faults(rt: &impl Abort, alloc: Global, rows: &[(&str, FrameError)]) {
    for (text, why) in rows {
        try_fault(rt, alloc, text, *why);
    }
}

/// Each row has a frame and the place of its bad field.
fn try_places(rt: &impl Abort, alloc: Global, rows: &[(&str, u64)]) {
    for (text, place) in rows {
        try_fault(rt, alloc, text, FrameError::BadField { place: *place });
    }
}

static NO_FRAMES: [(&str, FrameError); 6] = [
    // above 2^24 and at the limit, what is behind the length, and no tag
    ("01000001", FrameError::Short { need: 16_777_221 }),
    (
        "ffffffff",
        FrameError::Short {
            need: 4_294_967_299,
        },
    ),
    (
        "0000000b 05 0100000001 02000000",
        FrameError::Short { need: 15 },
    ),
    ("0000000b 00 0100000001 0000000000", FrameError::BadTag),
    ("0000000b 24 0100000001 0000000000", FrameError::BadTag),
    ("0000000b ff 0500000001 0000000000", FrameError::BadTag),
];

static LENGTHS: [(&str, u64); 7] = [
    // a length of 10
    ("0000000a 05 0100000001 02000000", 0),
    // no kind of node, a client without a number, a manager with one
    ("0000000b 05 0500000001 0000000000", 5),
    ("0000000b 05 0100000000 0000000000", 5),
    ("0000000b 05 0100000001 0000000001", 10),
    // a byte too many, and a number that doesn't end
    ("0000000c 05 0100000001 0000000000 00", 15),
    ("0000000e 13 0100000001 0300000001 000000", 15),
    ("0000000b 13 0100000001 0300000001", 15),
];

#[test]
fn lengths_tags_and_nodes(rt: HostRuntime) {
    try_faults(&rt, rt.alloc(), &NO_FRAMES);
    try_places(&rt, rt.alloc(), &LENGTHS);
}

static COMMANDS: [(&str, u64); 10] = [
    // no command, an empty key, a key of 33 bytes, one that doesn't end
    (
        "0000001e 04 0100000001 0400000001 00000001 00000001 00000001 00 0161 00000001",
        27,
    ),
    (
        "0000001e 04 0100000001 0400000001 00000001 00000001 00000001 08 0161 00000001",
        27,
    ),
    (
        "0000001d 04 0100000001 0400000001 00000001 00000001 00000001 01 00 00000001",
        28,
    ),
    (
        "0000003e 04 0100000001 0400000001 00000001 00000001 00000001 01 \
        21000000000000000000000000000000000000000000000000000000000000000000 00000001",
        28,
    ),
    (
        "0000001e 04 0100000001 0400000001 00000001 00000001 00000001 01 0661 00000001",
        28,
    ),
    // an option that is neither
    (
        "00000021 04 0100000001 0400000001 00000001 00000001 00000001 06 0161 02 0131 00000001",
        30,
    ),
    // no pair, five pairs, a key that stands twice
    (
        "0000001d 04 0100000001 0400000001 00000001 00000001 00000001 07 00 00000001",
        28,
    ),
    (
        "00000020 04 0100000001 0400000001 00000001 00000001 00000001 07 05 0161 00 00000001",
        28,
    ),
    (
        "00000023 04 0100000001 0400000001 00000001 00000001 00000001 07 02 0161 00 0161 00 00000001",
        32,
    ),
    (
        "00000026 04 0100000001 0400000001 00000001 00000001 00000001 07 03 0161 00 0162 00 0161 00 \
        00000001",
        35,
    ),
];

#[test]
fn commands(rt: HostRuntime) {
    try_places(&rt, rt.alloc(), &COMMANDS);
}

/// The fault of a frame with so many letters in place of `X`.
fn fault_with(
    rt: &impl Abort,
    alloc: Global,
    text: &str,
    count: usize,
) -> Option<Failed<FrameError>> {
    let letters = "78".repeat(alloc, count).expect(rt, "no memory");
    let text = text.replace(alloc, "X", &letters).expect(rt, "no memory");
    let bytes = bytes_of(rt, alloc, &text);
    fault_of(alloc, &bytes)
}

/// A value of 128 bytes is one, and one of 129 bytes isn't.
#[test]
fn a_value_has_its_limit(rt: HostRuntime) {
    let whole = "0000009f 04 0100000001 0400000001 00000001 00000001 00000001 02 0161 80X 00000001";
    must_hold(
        &rt,
        whole,
        "frame",
        fault_with(&rt, rt.alloc(), whole, 128) == None,
    );
    let longer =
        "000000a0 04 0100000001 0400000001 00000001 00000001 00000001 02 0161 81X 00000001";
    let why = Failed::Because(FrameError::BadField { place: 30 });
    must_hold(
        &rt,
        longer,
        "fault",
        fault_with(&rt, rt.alloc(), longer, 129) == Some(why),
    );
}

static ANSWERS: [(&str, u64); 14] = [
    // a truth value that is neither, no answer, no part of one
    (
        "0000001d 07 0200000001 0100000001 00000001 00000001 02 00000001 00000001 01",
        23,
    ),
    (
        "0000001d 07 0200000001 0100000001 00000001 00000001 01 00000001 00000001 00",
        32,
    ),
    (
        "0000001d 07 0200000001 0100000001 00000001 00000001 01 00000001 00000001 0a",
        32,
    ),
    (
        "0000001e 07 0200000001 0100000001 00000001 00000001 01 00000001 00000001 02 02",
        33,
    ),
    (
        "00000021 07 0200000001 0100000001 00000001 00000001 01 00000001 00000001 03 00000001",
        33,
    ),
    (
        "0000001e 07 0200000001 0100000001 00000001 00000001 01 00000001 00000001 09 02",
        33,
    ),
    // no refusal and no reason
    ("00000014 09 0200000001 0100000001 00000001 00000001 00", 23),
    ("00000014 09 0200000001 0100000001 00000001 00000001 08", 23),
    ("00000014 0b 0400000001 0100000001 00000001 00000001 00", 23),
    ("00000014 0b 0400000001 0100000001 00000001 00000001 06", 23),
    // no answer to an append, a collection, a fence
    (
        "00000018 0d 0300000001 0200000001 00000001 0000000000000001 04",
        27,
    ),
    ("00000010 0f 0400000001 0200000001 00000001 02", 19),
    ("00000011 0f 0400000001 0200000001 00000001 01 02", 20),
    ("00000010 14 0300000001 0200000001 00000001 02", 19),
];

#[test]
fn answers(rt: HostRuntime) {
    try_places(&rt, rt.alloc(), &ANSWERS);
}

static LISTS: [(&str, u64); 10] = [
    // more items than there are, and fewer
    (
        "0000001b 0e 0200000001 0400000001 00000001 00000002 00000001 00000001",
        31,
    ),
    ("00000013 0e 0200000001 0400000001 00000001 ffffffff", 23),
    (
        "0000001b 0e 0200000001 0400000001 00000001 00000000 00000001 00000001",
        23,
    ),
    // no entry
    (
        "00000015 14 0300000001 0200000001 00000001 00 00000001 00",
        24,
    ),
    (
        "0000001a 14 0300000001 0200000001 00000001 00 00000002 04 00000001 05",
        29,
    ),
    // a range whose ends aren't in order
    (
        "0000001f 1b 0000000000 0200000001 00000001 0000000000000002 0000000000000001",
        27,
    ),
    // pairs, records, firsts and clients out of order, or twice
    (
        "00000035 1d 0000000000 0200000001 00000001 0000000000000001 0000000000000002 00000002 0162 \
        00 0161 00 00000000 00000000 00000000",
        42,
    ),
    (
        "00000041 1d 0000000000 0200000001 00000001 0000000000000001 0000000000000002 00000000 \
        00000002 00000001 00000002 01 00000001 00000002 01 00000000 00000000",
        56,
    ),
    (
        "0000003f 1d 0000000000 0200000001 00000001 0000000000000001 0000000000000002 00000000 \
        00000000 00000002 00000002 00000001 00000001 00000001 00000000",
        55,
    ),
    (
        "00000037 1d 0000000000 0200000001 00000001 0000000000000001 0000000000000002 00000000 \
        00000000 00000000 00000002 00000002 00000002",
        55,
    ),
];

#[test]
fn lists(rt: HostRuntime) {
    try_places(&rt, rt.alloc(), &LISTS);
}

/// Ranges of a configuration that touch, that stand in another order, and whose ends do.
static RANGES: [(&str, u64); 4] = [
    (
        "00000050 06 0000000000 0100000001 00000001 00000001 00000001 00000001 00000001 0200000001 \
        00000000 00000000 00000002 0000000000000000 0000000000000004 0000000000000005 \
        0000000000000006",
        68,
    ),
    (
        "00000050 06 0000000000 0100000001 00000001 00000001 00000001 00000001 00000001 0200000001 \
        00000000 00000000 00000002 0000000000000005 0000000000000006 0000000000000000 \
        0000000000000003",
        68,
    ),
    (
        "00000040 06 0000000000 0100000001 00000001 00000001 00000001 00000001 00000001 0200000001 \
        00000000 00000000 00000001 0000000000000005 0000000000000004",
        60,
    ),
    (
        "00000050 06 0000000000 0100000001 00000001 00000001 00000001 00000001 00000001 0200000001 \
        00000000 00000000 00000002 0000000000000005 ffffffffffffffff 0000000000000000 \
        0000000000000003",
        68,
    ),
];

#[test]
fn ranges(rt: HostRuntime) {
    try_places(&rt, rt.alloc(), &RANGES);
}

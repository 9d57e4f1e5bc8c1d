//! Sets of hashes: ranges taken out, put in and united.

use crate::build::{made, must, right, right_at};
use curp_range::{PutError, Ranges, Spans, TakeError};
use std::alloc::Global;
use std::process::Abort;

// A call with what it answers.
#[derive(Clone, Copy)]
enum Row {
    TakesOut(u64, u64, Result<(), TakeError>),
    PutsIn(u64, u64, Result<(), PutError>),
    Unites(u64, u64),
    Has(&'static [(u64, u64)]),
    Covers(u64, u64),
    Lacks(u64),
}

const TAKEN_AND_PUT: [Row; 8] = [
    Row::TakesOut(3, 5, Ok(())),
    Row::Has(&[(0, 2), (6, 9)]),
    Row::TakesOut(5, 6, Err(TakeError::NotOwned)),
    Row::PutsIn(2, 4, Err(PutError::Overlap)),
    Row::PutsIn(3, 5, Ok(())),
    Row::Has(&[(0, 9)]),
    Row::Covers(0, 9),
    Row::Lacks(10),
];

const UNITED: [Row; 5] = [
    Row::TakesOut(3, 5, Ok(())),
    Row::Unites(12, 20),
    Row::Has(&[(0, 2), (6, 9), (12, 20)]),
    Row::Unites(2, 11),
    Row::Has(&[(0, 20)]),
];

const ENDS_TAKEN: [Row; 4] = [
    Row::TakesOut(0, 0, Ok(())),
    Row::TakesOut(u64::MAX, u64::MAX, Ok(())),
    Row::Has(&[(1, u64::MAX - 1)]),
    Row::Lacks(u64::MAX),
];

const ENDS_UNITED: [Row; 4] = [
    Row::Unites(u64::MAX, u64::MAX),
    Row::Unites(0, 1),
    Row::Covers(0, u64::MAX),
    Row::Has(&[(0, u64::MAX)]),
];

fn to(rt: &impl Abort, alloc: Global, hi: u64) -> Ranges {
    must(rt, Ranges::new(alloc, 0, hi))
}

fn taken_out(
    rt: &impl Abort,
    ranges: &mut Ranges,
    (lo, hi): (u64, u64),
    answer: Result<(), TakeError>,
) -> bool {
    assert!(rt; lo <= hi);
    made(rt, ranges.reserve(1));
    ranges.take_out(lo, hi) == answer
}

fn put_in(
    rt: &impl Abort,
    ranges: &mut Ranges,
    (lo, hi): (u64, u64),
    answer: Result<(), PutError>,
) -> bool {
    assert!(rt; lo <= hi);
    made(rt, ranges.reserve(1));
    ranges.put_in(lo, hi) == answer
}

fn united(rt: &impl Abort, ranges: &mut Ranges, lo: u64, hi: u64) -> bool {
    assert!(rt; lo <= hi);
    made(rt, ranges.reserve(1));
    ranges.unite(lo, hi);
    true
}

fn are(found: &[(u64, u64)], expected: &[(u64, u64)]) -> bool {
    found == expected
}

fn has(ranges: &Ranges, spans: &[(u64, u64)]) -> bool {
    are(ranges.spans(), spans)
}

fn covers(ranges: &Ranges, lo: u64, hi: u64) -> bool {
    ranges.covers(lo, hi)
}

fn lacks(ranges: &Ranges, hash: u64) -> bool {
    !ranges.owns(hash)
}

// Whether the call answers that.
fn answers(rt: &impl Abort, ranges: &mut Ranges, row: Row) -> bool {
    match row {
        Row::TakesOut(lo, hi, answer) => taken_out(rt, ranges, (lo, hi), answer),
        Row::PutsIn(lo, hi, answer) => put_in(rt, ranges, (lo, hi), answer),
        Row::Unites(lo, hi) => united(rt, ranges, lo, hi),
        Row::Has(spans) => has(ranges, spans),
        Row::Covers(lo, hi) => covers(ranges, lo, hi),
        Row::Lacks(hash) => lacks(ranges, hash),
    }
}

fn try_rows(rt: &impl Abort, ranges: &mut Ranges, rows: &[Row]) {
    for (at, row) in rows.iter().enumerate() {
        right_at(rt, answers(rt, ranges, *row), "rows", at as u64);
    }
}

#[test]
fn takes_out_and_puts_in_whole_ranges_and_unites_over_a_gap(rt: HostRuntime) {
    let mut ranges = to(&rt, rt.alloc(), 9);
    try_rows(&rt, &mut ranges, &TAKEN_AND_PUT);
    drop(ranges);
    let mut ranges = to(&rt, rt.alloc(), 9);
    try_rows(&rt, &mut ranges, &UNITED);
    drop(ranges);
}

#[test]
fn has_the_first_and_the_last_hash_of_all(rt: HostRuntime) {
    let mut ranges = to(&rt, rt.alloc(), u64::MAX);
    try_rows(&rt, &mut ranges, &ENDS_TAKEN);
    try_copy(&rt, rt.alloc(), &ranges);
    drop(ranges);
}

fn try_copy(rt: &impl Abort, alloc: Global, ranges: &Ranges) {
    let mut copy = must(rt, ranges.copy(alloc));
    try_rows(rt, &mut copy, &ENDS_UNITED);
    drop(copy);
}

#[test]
fn spans_of_ranges_are_copied(rt: HostRuntime) {
    let mut ranges = to(&rt, rt.alloc(), 9);
    united(&rt, &mut ranges, 20, 29);
    let spans = Spans::new(ranges);
    let copy = must(&rt, spans.copy(rt.alloc()));
    drop(spans);
    try_spans(&rt, &copy);
    drop(copy);
}

fn try_spans(rt: &impl Abort, spans: &Spans) {
    right(rt, are(spans.as_slice(), &[(0, 9), (20, 29)]), "spans (1)");
    right(rt, spans.len() == 2, "spans (2)");
}

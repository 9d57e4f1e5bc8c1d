// The table of replies, written by hand.
use crate::texts::{filled, found, must_hold, repeated};
use curp_cmd::{Answer, Value};
use curp_resp::{Other, Wrong, other_text, protocol_text, reply_text, wrong_text};
use std::alloc::Global;
use std::process::Abort;

fn echo(rt: &impl Abort, text: &str) -> Other {
    Other::Echo(Value::new(text.as_bytes()).expect(rt, "no value"))
}

fn try_reply(rt: &impl Abort, alloc: Global, answer: Answer, text: &[u8], row: &str) {
    let reply = reply_text(alloc, &answer).expect(rt, "no memory");
    must_hold(rt, row, reply.as_slice() == text);
}

/// A row of the table.
fn row(rt: &impl Abort, alloc: Global, answer: Answer, text: &str) {
    try_reply(rt, alloc, answer, text.as_bytes(), text);
}

const ANSWERS: [(Answer, &str); 11] = [
    (Answer::Done, "+OK\r\n"),
    (Answer::Removed(true), ":1\r\n"),
    (Answer::Removed(false), ":0\r\n"),
    (Answer::Swapped(true), ":1\r\n"),
    (Answer::Swapped(false), ":0\r\n"),
    (Answer::Length(0), ":0\r\n"),
    (Answer::Length(128), ":128\r\n"),
    (Answer::NotNumber, "-ERR not a number\r\n"),
    (Answer::Overflow, "-ERR overflow\r\n"),
    (Answer::TooLong, "-ERR too long\r\n"),
    (Answer::Found(None), "$-1\r\n"),
];

#[test]
fn each_answer_has_its_reply(rt: HostRuntime) {
    for (answer, text) in ANSWERS {
        row(&rt, rt.alloc(), answer, text);
    }
}

static NUMBERS: [(u64, &str); 5] = [
    (0, ":0\r\n"),
    (1, ":1\r\n"),
    (9_223_372_036_854_775_807, ":9223372036854775807\r\n"),
    (9_223_372_036_854_775_808, "$19\r\n9223372036854775808\r\n"),
    (
        18_446_744_073_709_551_615,
        "$20\r\n18446744073709551615\r\n",
    ),
];

#[test]
fn each_number_has_its_reply(rt: HostRuntime) {
    for (number, text) in &NUMBERS {
        row(&rt, rt.alloc(), Answer::Number(*number), text);
    }
}

#[test]
fn a_value_may_have_any_bytes(rt: HostRuntime) {
    let alloc = rt.alloc();
    row(&rt, alloc, found(b""), "$0\r\n\r\n");
    row(&rt, alloc, found(b"1"), "$1\r\n1\r\n");
    row(&rt, alloc, found(b"a\r\nb"), "$4\r\na\r\nb\r\n");
    let text = b"$3\r\n\x00\xff\x80\r\n";
    try_reply(&rt, alloc, found(b"\x00\xff\x80"), text, "no text");
}

#[test]
fn the_longest_value_has_its_reply(rt: HostRuntime) {
    let alloc = rt.alloc();
    let longest = repeated(&rt, alloc, "x", 128);
    let text = filled(&rt, alloc, "$128\r\nX\r\n", "X", &longest);
    row(&rt, alloc, found(longest.as_bytes()), &text);
}

/// A row of the table of wrong requests.
fn wrong_row(rt: &impl Abort, alloc: Global, wrong: Wrong, text: &str) {
    let reply = wrong_text(alloc, wrong).expect(rt, "no memory");
    must_hold(rt, text, reply.as_slice() == text.as_bytes());
}

static WRONG: [(Wrong, &str); 6] = [
    (Wrong::Unknown, "-ERR unknown command\r\n"),
    (Wrong::Arguments, "-ERR arguments\r\n"),
    (Wrong::Size, "-ERR size\r\n"),
    (Wrong::KeyTwice, "-ERR key twice\r\n"),
    (
        Wrong::NotInteger,
        "-ERR value is not an integer or out of range\r\n",
    ),
    (Wrong::NotOne, "-ERR increment by 1 only\r\n"),
];

#[test]
fn each_wrong_request_has_its_reply(rt: HostRuntime) {
    for (wrong, text) in &WRONG {
        wrong_row(&rt, rt.alloc(), *wrong, text);
    }
    let text = b"-ERR protocol\r\n".as_slice();
    must_hold(&rt, "protocol", protocol_text() == text);
}

/// A row of the table of requests that mean no command.
fn other_row(rt: &impl Abort, alloc: Global, other: &Other, text: &str) {
    let reply = other_text(alloc, other).expect(rt, "no memory");
    must_hold(rt, text, reply.as_slice() == text.as_bytes());
}

#[test]
fn each_other_request_has_its_reply(rt: HostRuntime) {
    let alloc = rt.alloc();
    other_row(&rt, alloc, &Other::Nothing, "");
    other_row(&rt, alloc, &echo(&rt, ""), "$0\r\n\r\n");
    other_row(&rt, alloc, &echo(&rt, "a\r\nb"), "$4\r\na\r\nb\r\n");
    let unknown = Other::Wrong(Wrong::Unknown);
    other_row(&rt, alloc, &unknown, "-ERR unknown command\r\n");
}

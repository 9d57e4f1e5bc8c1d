// What connections are told, by texts that were written by hand.
use crate::texts::{found, must_hold, must_hold_at, repeated};
use curp_base::NoMemory;
use curp_cmd::{Answer, RequestId};
use curp_front::{
    Admitted, FrontInput, FrontOutput, Fronts, InvokeRefusal, front_input_in, is_short,
    write_front_output,
};
use std::alloc::Global;
use std::process::Abort;

const SET: &[u8] = b"*3\r\n$3\r\nSET\r\n$1\r\na\r\n$1\r\n1\r\n";

const GET: &[u8] = b"*2\r\n$3\r\nGET\r\n$1\r\na\r\n";

const PING: &[u8] = b"*1\r\n$4\r\nPING\r\n";

// ---- what is called, of which the tests know nothing

fn comes(fronts: &mut Fronts, connection: u64, bytes: &[u8]) -> bool {
    match fronts.on_bytes(connection, bytes) {
        Ok(admitted) => admitted == Admitted::Taken,
        Err(_) => false,
    }
}

/// So many bytes `0` come.
fn many_come(rt: &impl Abort, alloc: Global, fronts: &mut Fronts, count: usize) -> bool {
    let many = repeated(rt, alloc, "0", count);
    comes(fronts, 1, many.as_bytes())
}

fn closes(fronts: &mut Fronts, connection: u64) -> bool {
    fronts.on_closed(connection);
    true
}

/// Whether that connection's command is next, and is invoked under that number. The connection is 0 where there is none.
fn invokes(fronts: &mut Fronts, pending: usize, seq: u32, wanted: u64) -> bool {
    match fronts.next_command(pending) {
        Ok(Some((connection, _))) => {
            fronts.on_invoked(connection, RequestId { client: 1, seq });
            connection == wanted
        }
        Ok(None) => wanted == 0,
        Err(_) => false,
    }
}

/// Whether that connection's command is next. It is refused.
fn refuses(fronts: &mut Fronts, wanted: u64) -> bool {
    match fronts.next_command(0) {
        Ok(Some((connection, _))) => {
            fronts.on_refused(connection, InvokeRefusal::Split);
            connection == wanted
        }
        _ => false,
    }
}

fn completes(fronts: &mut Fronts, seq: u32, answer: Answer) -> bool {
    fronts.on_completed(RequestId { client: 1, seq }, &answer);
    true
}

fn output(rt: &impl Abort, fronts: &mut Fronts) -> Option<FrontOutput> {
    fronts.next_output().expect(rt, "no memory")
}

/// A connection has one digit.
fn push(rt: &impl Abort, text: &mut Vec<u8>, connection: u64, bytes: &[u8]) {
    text.push(b'0' + (connection % 10) as u8)
        .expect(rt, "no memory");
    text.extend_from_slice(bytes).expect(rt, "no memory");
}

/// Whether all that is told until nothing is, is that.
fn tells(rt: &impl Abort, alloc: Global, fronts: &mut Fronts, wanted: &str) -> bool {
    let mut text = Vec::new(alloc);
    for _ in 0..100 {
        match output(rt, fronts) {
            Some(FrontOutput::Reply { connection, bytes }) => {
                push(rt, &mut text, connection, bytes.as_slice())
            }
            Some(FrontOutput::Close { connection }) => {
                push(rt, &mut text, connection, b"close\r\n")
            }
            Some(FrontOutput::More { connection }) => {
                push(rt, &mut text, connection, b"more\r\n")
            }
            None => break,
        }
    }
    text.as_slice() == wanted.as_bytes()
}

// ---- what comes to the connections, or is asked of them, in tables

enum Row {
    /// Bytes of that connection come.
    Comes(u64, &'static [u8]),
    /// So many bytes of connection 1 come.
    Many(usize),
    /// No more bytes of that connection come.
    Closes(u64),
    /// With so many requests pending, the command that is next is invoked under that number: of which connection it is.
    Invokes(usize, u32, u64),
    /// The command that is next, of that connection, is refused.
    Refuses(u64),
    /// The request of that number is done.
    Done(u32),
    /// The request of that number found that.
    Finds(u32, &'static [u8]),
    FindsNone(u32),
    /// All that is told now.
    Tells(&'static str),
    /// How many connections there are.
    Has(usize),
}

fn holds(rt: &impl Abort, alloc: Global, fronts: &mut Fronts, row: &Row) -> bool {
    match row {
        Row::Comes(connection, bytes) => comes(fronts, *connection, bytes),
        Row::Many(count) => many_come(rt, alloc, fronts, *count),
        Row::Closes(connection) => closes(fronts, *connection),
        Row::Invokes(pending, seq, connection) => invokes(fronts, *pending, *seq, *connection),
        Row::Refuses(connection) => refuses(fronts, *connection),
        Row::Done(seq) => completes(fronts, *seq, Answer::Done),
        Row::Finds(seq, value) => completes(fronts, *seq, found(value)),
        Row::FindsNone(seq) => completes(fronts, *seq, Answer::Found(None)),
        Row::Tells(wanted) => tells(rt, alloc, fronts, wanted),
        Row::Has(count) => fronts.len() == *count,
    }
}

fn try_rows(rt: &impl Abort, alloc: Global, rows: &[Row]) {
    let mut fronts = Fronts::new(alloc);
    for (place, row) in rows.iter().enumerate() {
        must_hold_at(rt, place, holds(rt, alloc, &mut fronts, row));
    }
    drop(fronts);
}

static IN_ORDER: [Row; 15] = [
    Row::Comes(1, SET),
    Row::Comes(1, PING),
    Row::Comes(1, GET),
    Row::Comes(1, GET),
    Row::Invokes(0, 1, 1),
    // no command stands behind it
    Row::Invokes(1, 2, 0),
    Row::Tells(""),
    Row::Done(1),
    Row::Tells("1+OK\r\n1-ERR unknown command\r\n"),
    Row::Invokes(0, 2, 1),
    Row::Invokes(1, 3, 1),
    Row::Finds(3, b"2"),
    Row::Tells("1more\r\n"),
    Row::Finds(2, b"1"),
    Row::Tells("1$1\r\n1\r\n1$1\r\n2\r\n"),
];

#[test]
fn replies_stand_in_the_order_of_requests(rt: HostRuntime) {
    try_rows(&rt, rt.alloc(), &IN_ORDER);
}

static EMPTY_LINES: [Row; 11] = [
    Row::Comes(1, b"\r\n\r"),
    Row::Comes(1, b"\n"),
    Row::Comes(1, SET),
    Row::Comes(1, b"\r\n*2\r\n$4\r\nECHO\r\n$2\r\nab\r\n"),
    Row::Tells("11"),
    Row::Invokes(0, 1, 1),
    Row::Tells(""),
    Row::Done(1),
    Row::Tells("1+OK\r\n11$2\r\nab\r\n1more\r\n"),
    Row::Closes(1),
    Row::Tells("1close\r\n"),
];

#[test]
fn empty_line_is_passed_over(rt: HostRuntime) {
    try_rows(&rt, rt.alloc(), &EMPTY_LINES);
}

static BAD_REQUEST: [Row; 11] = [
    Row::Comes(1, PING),
    Row::Comes(1, b"hello"),
    Row::Comes(2, GET),
    Row::Tells("1-ERR unknown command\r\n1-ERR protocol\r\n1close\r\n"),
    Row::Comes(1, PING),
    Row::Tells(""),
    Row::Invokes(0, 1, 2),
    Row::Finds(1, b"1"),
    Row::Tells("2more\r\n2$1\r\n1\r\n"),
    Row::Closes(1),
    // it is forgotten
    Row::Has(1),
];

#[test]
fn bad_request_ends_its_connection_alone(rt: HostRuntime) {
    try_rows(&rt, rt.alloc(), &BAD_REQUEST);
}

static ENDS: [Row; 12] = [
    Row::Comes(1, GET),
    Row::Closes(1),
    Row::Invokes(0, 1, 1),
    Row::Tells(""),
    Row::FindsNone(1),
    Row::Tells("1$-1\r\n1close\r\n"),
    Row::Has(0),
    Row::Comes(2, b"*2\r\n"),
    Row::Tells("2more\r\n"),
    Row::Closes(2),
    Row::Tells("2-ERR protocol\r\n2close\r\n"),
    Row::Has(0),
];

#[test]
fn what_came_before_an_end_is_answered(rt: HostRuntime) {
    try_rows(&rt, rt.alloc(), &ENDS);
}

static TURNS: [Row; 8] = [
    Row::Comes(1, GET),
    Row::Comes(1, GET),
    Row::Comes(1, GET),
    Row::Comes(2, GET),
    Row::Invokes(0, 1, 1),
    Row::Invokes(1, 2, 2),
    // none is given at 8
    Row::Invokes(8, 3, 0),
    Row::Invokes(7, 3, 1),
];

#[test]
fn connections_take_turns(rt: HostRuntime) {
    try_rows(&rt, rt.alloc(), &TURNS);
}

static REFUSED: [Row; 3] = [
    Row::Comes(1, SET),
    Row::Refuses(1),
    Row::Tells("1more\r\n1-ERR keys of several partitions\r\n"),
];

#[test]
fn refused_command_has_its_reply(rt: HostRuntime) {
    try_rows(&rt, rt.alloc(), &REFUSED);
}

static TOO_MANY: [Row; 3] = [
    Row::Comes(1, PING),
    Row::Many(131_060),
    Row::Tells("1-ERR unknown command\r\n1-ERR too many bytes\r\n1close\r\n"),
];

#[test]
fn more_bytes_than_may_wait_end_a_connection(rt: HostRuntime) {
    try_rows(&rt, rt.alloc(), &TOO_MANY);
}

// ---- parcels

fn try_parcel(rt: &impl Abort, alloc: Global, output: FrontOutput, bytes: &[u8]) {
    let mut text = Vec::new(alloc);
    assert!(rt; is_short(&output), "short");
    write_front_output(&output, &mut text).expect(rt, "no memory");
    drop(output);
    must_hold(rt, "a parcel", text.as_slice() == bytes);
}

#[test]
fn parcels_are_those_of_the_page(rt: HostRuntime) {
    let alloc = rt.alloc();
    let close = FrontOutput::Close { connection: 7 };
    try_parcel(&rt, alloc, close, b"\0\0\0\x09\x08\0\0\0\0\0\0\0\x07");
    let more = FrontOutput::More { connection: 7 };
    try_parcel(&rt, alloc, more, b"\0\0\0\x09\x09\0\0\0\0\0\0\0\x07");
    try_inputs(&rt, alloc);
}

/// Whether the content tells the end of the one connection, or bytes of the other; 0 stands for none.
fn is_input(alloc: Global, content: &[u8], closed: u64, with_bytes: u64) -> bool {
    match &front_input_in(alloc, content) {
        Ok(Some(FrontInput::Closed { connection })) => *connection == closed,
        Ok(Some(FrontInput::Bytes { connection, .. })) => *connection == with_bytes,
        Ok(None) => closed == 0 && with_bytes == 0,
        Err(_) => false,
    }
}

static INPUTS: [(&[u8], u64, u64); 3] = [
    (&[3, 0, 0, 0, 0, 0, 0, 0, 7], 7, 0),
    (&[2, 0, 0, 0, 0, 0, 0, 0, 7, 42], 0, 7),
    (&[3, 0, 0, 0, 0, 0, 0, 0, 7, 42], 0, 0),
];

fn try_inputs(rt: &impl Abort, alloc: Global) {
    for (content, closed, with_bytes) in &INPUTS {
        let is_input = is_input(alloc, content, *closed, *with_bytes);
        must_hold(rt, "an input", is_input);
    }
}

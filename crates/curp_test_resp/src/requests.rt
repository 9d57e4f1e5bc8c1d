// Requests from bytes, and where bytes are none, by values that were found by hand.
ghost use Rattle.std.specs.Prelude.{◌<◌};

use crate::texts::{filled, must_hold, repeated};
use curp_base::NoMemory;
use curp_cmd::{Command, Key, Value};
use curp_io::{MemorySource, Source, SureSource};
use curp_resp::{Asked, NextRequest, Other, Requests, Wrong};
use std::alloc::Global;
use std::process::Abort;

const END: NextRequest = NextRequest::End;

const FAULT: NextRequest = NextRequest::ReadFault;

const NOTHING: NextRequest = NextRequest::Asked(Asked::Other(Other::Nothing));

const UNKNOWN: NextRequest = NextRequest::Asked(Asked::Other(Other::Wrong(Wrong::Unknown)));

const ARGUMENTS: NextRequest = NextRequest::Asked(Asked::Other(Other::Wrong(Wrong::Arguments)));

const SIZE: NextRequest = NextRequest::Asked(Asked::Other(Other::Wrong(Wrong::Size)));

// ---- what is called, of which the tests know nothing

fn next<S: Source>(requests: &mut Requests, source: &mut S) -> NextRequest {
    requests.next_request(source)
}

fn requests(rt: &impl Abort, alloc: Global) -> Requests {
    Requests::new(alloc).expect(rt, "no memory")
}

fn sure(rt: &impl Abort, alloc: Global, bytes: &[u8]) -> SureSource {
    SureSource::new(alloc, bytes).expect(rt, "no memory")
}

/// A source that gives pieces, where the call of this number fails.
fn in_pieces(rt: &impl Abort, alloc: Global, bytes: &[u8], fault: u64, piece: usize) -> MemorySource
    requires { 0 < piece }
{
    MemorySource::in_pieces(alloc, bytes, &[fault], piece).expect(rt, "no memory")
}

fn key(rt: &impl Abort, text: &str) -> Key {
    Key::new(text.as_bytes()).expect(rt, "no key")
}

fn value(rt: &impl Abort, text: &str) -> Value {
    Value::new(text.as_bytes()).expect(rt, "no value")
}

fn multi(rt: &impl Abort, pairs: &[(Key, Value)]) -> Command {
    Command::multi(pairs).expect(rt, "no multi-put")
}

fn asked(command: Command) -> NextRequest {
    NextRequest::Asked(Asked::Command(command))
}

fn refused(wrong: Wrong) -> NextRequest {
    NextRequest::Asked(Asked::Other(Other::Wrong(wrong)))
}

fn echo(rt: &impl Abort, text: &str) -> NextRequest {
    NextRequest::Asked(Asked::Other(Other::Echo(value(rt, text))))
}

fn get(rt: &impl Abort) -> NextRequest {
    asked(Command::Get(key(rt, "a")))
}

fn put(rt: &impl Abort) -> NextRequest {
    asked(Command::Put(key(rt, "a"), value(rt, "1")))
}

// ---- what a source gives

/// Whether the next answers are these.
fn are_next<S: Source>(requests: &mut Requests, source: &mut S, wanted: &[NextRequest]) -> bool {
    for answer in wanted {
        if next(requests, source) != *answer {
            return false;
        }
    }
    true
}

/// Whether the source has these answers, and then always the last.
fn gives<S: Source>(
    rt: &impl Abort,
    alloc: Global,
    source: &mut S,
    wanted: &[NextRequest],
    last: &NextRequest,
) -> bool {
    let mut requests = requests(rt, alloc);
    let first = are_next(&mut requests, source, wanted);
    let gives = first && are_next(&mut requests, source, &[*last; 4]);
    drop(requests);
    gives
}

fn sure_gives(
    rt: &impl Abort,
    alloc: Global,
    bytes: &[u8],
    wanted: &[NextRequest],
    last: &NextRequest,
) -> bool {
    let mut source = sure(rt, alloc, bytes);
    let gives = gives(rt, alloc, &mut source, wanted, last);
    drop(source);
    gives
}

/// The same of a source that gives pieces of this size, and fails at that call.
fn pieces_give(
    rt: &impl Abort,
    alloc: Global,
    bytes: &[u8],
    (fault, piece): (u64, usize),
    wanted: &[NextRequest],
    last: &NextRequest,
) -> bool {
    assert!(rt; 0 < piece);
    let mut source = in_pieces(rt, alloc, bytes, fault, piece);
    let gives = gives(rt, alloc, &mut source, wanted, last);
    drop(source);
    gives
}

/// The text gives that, all at once and a byte at a time.
fn try_both(
    rt: &impl Abort,
    alloc: Global,
    text: &str,
    wanted: &[NextRequest],
    last: &NextRequest,
) {
    let bytes = text.as_bytes();
    must_hold(rt, text, sure_gives(rt, alloc, bytes, wanted, last));
    let bytewise = pieces_give(rt, alloc, bytes, (0, 1), wanted, last);
    must_hold(rt, text, bytewise);
}

/// Writes how many arguments there are.
fn spell_count(text: &mut String, count: usize) -> Result<(), NoMemory> {
    write!(text, "*{count}\r\n")
}

/// Writes an argument.
fn spell(text: &mut String, word: &str) -> Result<(), NoMemory> {
    write!(text, "${}\r\n{word}\r\n", word.len())
}

/// Writes a request of these arguments, which are words without spaces.
fn spell_all(text: &mut String, words: &str) -> Result<(), NoMemory> {
    spell_count(text, words.split(' ').count())?;
    for word in words.split(' ') {
        spell(text, word)?;
    }
    Ok(())
}

/// A request of these words is asked for so.
fn try_words(rt: &impl Abort, alloc: Global, words: &str, wanted: NextRequest) {
    let mut text = String::new(alloc);
    assert!(rt; spell_all(&mut text, words).is_ok());
    let asks = sure_gives(rt, alloc, text.as_bytes(), &[wanted], &END);
    must_hold(rt, words, asks);
}

// ---- the tables

static BREAKS: [(&str, u64); 35] = [
    ("+OK", 0),
    ("\r", 1),
    ("\r\r\n", 1),
    (" \r\n", 0),
    ("PING\r\n", 0),
    ("$1\r\na\r\n", 0),
    ("*", 1),
    ("*\r\n", 1),
    ("*-2\r\n", 2),
    ("*-1\n", 3),
    ("*-1\r*", 4),
    ("*0-1\r\n", 2),
    ("*0\r", 3),
    ("*65", 2),
    ("*1\n", 2),
    ("*99999", 2),
    ("*00000", 6),
    ("*00065", 5),
    ("*000001", 6),
    ("*000641", 6),
    ("*064\r\n", 6),
    ("*2\r\nX", 4),
    ("*1\r\n$\r", 5),
    ("*1\r\n$-1\r\n", 5),
    ("*1\r\n$7", 6),
    ("*1\r\n$65537", 9),
    ("*1\r\n$70000", 9),
    ("*1\r\n$99999", 9),
    ("*1\r\n$000001", 10),
    ("*1\r\n$1\r\na\n", 9),
    ("*1\r\n$1\r\nab\r\n", 9),
    ("*1\r\n$0\r\n\r\r", 9),
    ("*1\r\n$2\r\na\r\n", 10),
    ("*2\r\n$1\r\na\r\n", 11),
    ("*2\r\n$1\r\na\r\n*", 11),
];

/// Behind those requests each text breaks off at its place.
fn try_breaks(rt: &impl Abort, alloc: Global, rows: &[(&str, u64)], before: &[NextRequest]) {
    for (text, at) in rows {
        let bad = NextRequest::BadRequest { at: *at };
        try_both(rt, alloc, text, before, &bad);
    }
}

#[test]
fn bytes_break_off_where_no_request_goes_on(rt: HostRuntime) {
    try_breaks(&rt, rt.alloc(), &BREAKS, &[]);
}

/// Places behind the request of no known word that such inputs begin with.
static LATER_BREAKS: [(&str, u64); 3] = [
    ("*1\r\n$4\r\nPING\r\n+", 14),
    ("*1\r\n$4\r\nPING\r\n*0\r", 17),
    ("*1\r\n$4\r\nPING\r\n*1", 16),
];

#[test]
fn a_place_is_counted_from_the_whole_input(rt: HostRuntime) {
    try_breaks(&rt, rt.alloc(), &LATER_BREAKS, &[UNKNOWN]);
}

/// Requests of no arguments, as clients write them.
static EMPTY: [&str; 5] = ["\r\n", "\n", "*0\r\n", "*00000\r\n", "*-1\r\n"];

#[test]
fn an_empty_line_asks_nothing(rt: HostRuntime) {
    for text in &EMPTY {
        try_both(&rt, rt.alloc(), text, &[NOTHING], &END);
    }
}

/// What a client sends behind the bytes that it was given, to hear that all were answered: an empty line, and 20 bytes
/// that come back.
const LAST_OF_PIPE: &str =
    "*1\r\n$4\r\nPING\r\n\r\n*2\r\n$4\r\nECHO\r\n$20\r\na\r\nb*$-+0123456789AB\r\n";

#[test]
fn a_pipe_ends_with_an_echo(rt: HostRuntime) {
    let last = echo(&rt, "a\r\nb*$-+0123456789AB");
    let wanted = [UNKNOWN, NOTHING, last];
    try_both(&rt, rt.alloc(), LAST_OF_PIPE, &wanted, &END);
}

fn try_bytes(rt: &impl Abort, alloc: Global, bytes: &[u8], wanted: &[NextRequest]) {
    must_hold(rt, "a word", sure_gives(rt, alloc, bytes, wanted, &END));
}

#[test]
fn a_word_may_have_any_bytes(rt: HostRuntime) {
    let alloc = rt.alloc();
    try_bytes(&rt, alloc, b"", &[]);
    try_bytes(&rt, alloc, b"*1\r\n$00000\r\n\r\n", &[UNKNOWN]);
    try_bytes(&rt, alloc, b"*00001\r\n$2\r\n\xff\x80\r\n", &[UNKNOWN]);
}

/// A row of the table of words.
fn row(rt: &impl Abort, alloc: Global, words: &str, command: Command) {
    try_words(rt, alloc, words, asked(command));
}

#[test]
fn each_word_has_its_command(rt: HostRuntime) {
    let (alloc, a) = (rt.alloc(), key(&rt, "a"));
    row(&rt, alloc, "GET a", Command::Get(a));
    row(&rt, alloc, "get a", Command::Get(a));
    row(&rt, alloc, "gEt a", Command::Get(a));
    row(&rt, alloc, "DEL a", Command::Delete(a));
    row(&rt, alloc, "INCR a", Command::Incr(a));
    row(&rt, alloc, "INCRBY a 1", Command::Incr(a));
    row(&rt, alloc, "incrby a 1", Command::Incr(a));
    try_words(&rt, alloc, "ECHO a", echo(&rt, "a"));
    try_words(&rt, alloc, "echo ECHO", echo(&rt, "ECHO"));
}

#[test]
fn each_word_with_values_has_its_command(rt: HostRuntime) {
    let (alloc, a) = (rt.alloc(), key(&rt, "a"));
    let (one, two) = (value(&rt, "1"), value(&rt, "2"));
    row(&rt, alloc, "SET a 1", Command::Put(a, one));
    row(&rt, alloc, "APPEND a 1", Command::Append(a, one));
    row(
        &rt,
        alloc,
        "CONDPUT a 1 2",
        Command::CondPut(a, Some(one), two),
    );
    row(
        &rt,
        alloc,
        "CondPut a 1 2",
        Command::CondPut(a, Some(one), two),
    );
    row(&rt, alloc, "CONDNEW a 1", Command::CondPut(a, None, one));
    row(&rt, alloc, "SETNX a 1", Command::CondPut(a, None, one));
    let pairs = [(key(&rt, "b"), one), (a, two)];
    row(&rt, alloc, "MSET b 1 a 2", multi(&rt, &pairs));
}

static WRONGS: [(&str, Wrong); 29] = [
    ("PING", Wrong::Unknown),
    ("CLIENT SETINFO LIB-NAME redis-py", Wrong::Unknown),
    ("HELLO 3", Wrong::Unknown),
    ("CONFIG GET save", Wrong::Unknown),
    ("ECHO", Wrong::Arguments),
    ("ECHO a b", Wrong::Arguments),
    ("GETS a", Wrong::Unknown),
    ("INCRBYS a 1", Wrong::Unknown),
    ("DECRBY a 1", Wrong::Unknown),
    ("GE a", Wrong::Unknown),
    ("PUT a 1", Wrong::Unknown),
    ("a GET", Wrong::Unknown),
    ("GET", Wrong::Arguments),
    ("GET a b", Wrong::Arguments),
    ("SET a", Wrong::Arguments),
    ("SET a 1 2", Wrong::Arguments),
    ("SETNX a", Wrong::Arguments),
    ("INCR a 1", Wrong::Arguments),
    ("INCRBY a", Wrong::Arguments),
    ("INCRBY a 1 1", Wrong::Arguments),
    ("CONDPUT a 1", Wrong::Arguments),
    ("CONDPUT a 1 2 3", Wrong::Arguments),
    ("MSET", Wrong::Arguments),
    ("MSET a", Wrong::Arguments),
    ("MSET a 1 a", Wrong::Arguments),
    ("MSET a 1 b 2 c 3 d 4 e 5", Wrong::Arguments),
    ("MSET a 1 a 1 a 1 a 1 a 1", Wrong::Arguments),
    ("MSET a 1 a 2", Wrong::KeyTwice),
    ("MSET a 1 b 2 c 3 b 4", Wrong::KeyTwice),
];

fn try_wrongs(rt: &impl Abort, alloc: Global, rows: &[(&str, Wrong)]) {
    for (words, wrong) in rows {
        try_words(rt, alloc, words, refused(*wrong));
    }
}

#[test]
fn the_first_error_that_holds_is_told(rt: HostRuntime) {
    try_wrongs(&rt, rt.alloc(), &WRONGS);
}

/// Increments that a counter doesn't have: integers of 64 bits, and what is none.
static INCREMENTS: [(&str, Wrong); 19] = [
    ("INCRBY a 0", Wrong::NotOne),
    ("INCRBY a 2", Wrong::NotOne),
    ("INCRBY a 10", Wrong::NotOne),
    ("INCRBY a -1", Wrong::NotOne),
    ("INCRBY a 9223372036854775807", Wrong::NotOne),
    ("INCRBY a -9223372036854775808", Wrong::NotOne),
    ("INCRBY a 9223372036854775808", Wrong::NotInteger),
    ("INCRBY a -9223372036854775809", Wrong::NotInteger),
    ("INCRBY a 18446744073709551617", Wrong::NotInteger),
    ("INCRBY a 100000000000000000001", Wrong::NotInteger),
    ("INCRBY a ", Wrong::NotInteger),
    ("INCRBY a -", Wrong::NotInteger),
    ("INCRBY a -0", Wrong::NotInteger),
    ("INCRBY a 01", Wrong::NotInteger),
    ("INCRBY a +1", Wrong::NotInteger),
    ("INCRBY a 1.0", Wrong::NotInteger),
    ("INCRBY a one", Wrong::NotInteger),
    ("INCRBY a 1:", Wrong::NotInteger),
    ("INCRBY a 1/", Wrong::NotInteger),
];

#[test]
fn a_counter_grows_by_one_alone(rt: HostRuntime) {
    try_wrongs(&rt, rt.alloc(), &INCREMENTS);
}

// ---- sizes

/// Whether these are a key and a value.
fn fits(k: &str, v: &str) -> bool {
    Key::new(k.as_bytes()).is_ok() && Value::new(v.as_bytes()).is_ok()
}

/// A row of the table of the commands that have both a key, `K`, and a value, `V`.
fn sized_row(rt: &impl Abort, alloc: Global, line: &str, sized: (&str, &str), wanted: NextRequest) {
    let with_key = filled(rt, alloc, line, "K", sized.0);
    let words = filled(rt, alloc, &with_key, "V", sized.1);
    try_words(rt, alloc, &words, wanted);
}

fn try_fitting(rt: &impl Abort, alloc: Global, sized: (&str, &str)) {
    let (k, v) = (key(rt, sized.0), value(rt, sized.1));
    let set = asked(Command::Put(k, v));
    sized_row(rt, alloc, "SET K V", sized, set);
    let append = asked(Command::Append(k, v));
    sized_row(rt, alloc, "APPEND K V", sized, append);
    let swap = asked(Command::CondPut(k, Some(v), v));
    sized_row(rt, alloc, "CONDPUT K V V", sized, swap);
    let put_new = asked(Command::CondPut(k, None, v));
    sized_row(rt, alloc, "CONDNEW K V", sized, put_new);
    let incremented = asked(Command::Incr(k));
    sized_row(rt, alloc, "INCRBY K 1", sized, incremented);
    let put_two = asked(multi(rt, &[(key(rt, "a"), v), (k, v)]));
    sized_row(rt, alloc, "MSET a V K V", sized, put_two);
    sized_row(rt, alloc, "ECHO V", sized, echo(rt, sized.1));
}

fn fitting(rt: &impl Abort, alloc: Global, key_len: usize, value_len: usize) {
    let k = repeated(rt, alloc, "k", key_len);
    let v = repeated(rt, alloc, "v", value_len);
    try_fitting(rt, alloc, (&k, &v));
}

static TOO_LONG: [&str; 5] = [
    "SET K V",
    "APPEND K V",
    "CONDPUT K V 1",
    "CONDNEW K V",
    "MSET a 1 K V",
];

fn try_unfit(rt: &impl Abort, alloc: Global, sized: (&str, &str)) {
    assert!(rt; !fits(sized.0, sized.1));
    for line in &TOO_LONG {
        sized_row(rt, alloc, line, sized, SIZE);
    }
}

fn unfit(rt: &impl Abort, alloc: Global, key_len: usize, value_len: usize) {
    let k = repeated(rt, alloc, "k", key_len);
    let v = repeated(rt, alloc, "v", value_len);
    try_unfit(rt, alloc, (&k, &v));
}

#[test]
fn keys_and_values_have_their_sizes(rt: HostRuntime) {
    let alloc = rt.alloc();
    fitting(&rt, alloc, 1, 0);
    fitting(&rt, alloc, 32, 128);
    unfit(&rt, alloc, 0, 1);
    unfit(&rt, alloc, 33, 1);
    unfit(&rt, alloc, 1, 129);
    unfit(&rt, alloc, 200, 200);
    let long = repeated(&rt, alloc, "v", 129);
    sized_row(&rt, alloc, "ECHO V", ("k", &long), SIZE);
    sized_row(&rt, alloc, "INCRBY K 2", (&long, "1"), SIZE);
    let no_integer = refused(Wrong::NotInteger);
    sized_row(&rt, alloc, "INCRBY K 1V", ("k", &long), no_integer);
}

/// The longest argument stands in place of `X`.
const LONGEST: &str = "*3\r\n$3\r\nSET\r\n$1\r\na\r\n$65536\r\nX\r\n*2\r\n$3\r\nGET\r\n$1\r\na\r\n";

/// The most arguments stand in place of each `X`.
const MOST: &str = "*64\r\n$3\r\nGET\r\nX*64\r\n$3\r\nGOT\r\nX";

fn try_large(rt: &impl Abort, alloc: Global, text: &str, more: &str, wanted: &[NextRequest]) {
    let text = filled(rt, alloc, text, "X", more);
    must_hold(
        rt,
        "large",
        sure_gives(rt, alloc, text.as_bytes(), wanted, &END),
    );
}

#[test]
fn the_largest_requests_are_taken(rt: HostRuntime) {
    let alloc = rt.alloc();
    let longest = repeated(&rt, alloc, "x", 65_536);
    try_large(&rt, alloc, LONGEST, &longest, &[SIZE, get(&rt)]);
    let more = repeated(&rt, alloc, "$1\r\na\r\n", 63);
    try_large(&rt, alloc, MOST, &more, &[ARGUMENTS, UNKNOWN]);
}

// ---- sessions

const SESSION: &str =
    "*3\r\n$3\r\nSET\r\n$1\r\na\r\n$1\r\n1\r\n*1\r\n$4\r\nPING\r\n*2\r\n$3\r\nget\r\n$1\r\na\r\n";

/// The session has these answers from a source that fails at that call and gives pieces of that size.
fn try_session(
    rt: &impl Abort,
    alloc: Global,
    source: (u64, usize),
    wanted: &[NextRequest],
    last: &NextRequest,
) {
    let gives = pieces_give(rt, alloc, SESSION.as_bytes(), source, wanted, last);
    must_hold(rt, "session", gives);
}

#[test]
fn a_session_may_be_cut_anywhere(rt: HostRuntime) {
    let wanted = [put(&rt), UNKNOWN, get(&rt)];
    for piece in 1..=SESSION.len() {
        try_session(&rt, rt.alloc(), (0, piece), &wanted, &END);
    }
}

#[test]
fn nothing_is_read_while_a_request_is_ahead(rt: HostRuntime) {
    let alloc = rt.alloc();
    let whole = [put(&rt), UNKNOWN, get(&rt)];
    try_session(&rt, alloc, (2, 100), &whole, &FAULT);
    try_session(&rt, alloc, (4, 10), &[put(&rt)], &FAULT);
}

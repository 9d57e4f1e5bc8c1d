// Scripts that are played, where reads and writes fail.
use crate::streams::{Ended, Failing, read, sink, source, write};
use curp_io::{MemorySink, MemorySource};
use curp_play::play_script;
use curp_runner::Status;
use std::alloc::Global;
use std::process::Abort;

fn play(alloc: Global, source: &mut MemorySource, sink: &mut MemorySink) -> Status {
    play_script(alloc, source, sink)
}

fn played(rt: &impl Abort, alloc: Global, script: &str, failing: Failing) -> Ended {
    let mut source = source(rt, alloc, script, failing);
    let mut sink = sink(rt, alloc, failing);
    let status = play(alloc, &mut source, &mut sink);
    drop(source);
    Ended { status, sink }
}

/// A put in one round trip.
const SCRIPT: &str = r#"{"clients":2,"f":1,"fast":true,"parts":1,"protocol":1,"sets":16,"ways":4}
{"client":1,"cmd":["put","61","31"],"do":"invoke"}
{"do":"deliver","msg":1}
{"do":"deliver","msg":2}
{"do":"deliver","msg":3}
{"do":"deliver","msg":4}
"#;

const HEADER: &str = r#"{"clients":2,"f":1,"fast":true,"parts":1,"protocol":1,"sets":16,"ways":4}"#;

/// The header alone ends so, and leaves this text, which was passed on if it ended well.
fn try_header(rt: &impl Abort, alloc: Global, failing: Failing, status: Status, text: &str) {
    let ended = played(rt, alloc, HEADER, failing);
    assert!(rt; ended.is(status, text));
    assert!(rt; ended.is_flushed() == (text.is_empty() || status == Status::Ok));
    drop(ended);
}

/// The header is read in one piece; its end is looked for, and then, behind a flush, a step. The order is written in one
/// piece and then flushed.
#[test]
fn each_failing_call_is_a_fault(rt: HostRuntime) {
    let alloc = rt.alloc();
    let behind = Failing { read: 4, write: 4 };
    try_header(&rt, alloc, read(1), Status::ReadFault, "");
    try_header(&rt, alloc, read(2), Status::ReadFault, "");
    try_header(&rt, alloc, read(3), Status::ReadFault, "");
    try_header(&rt, alloc, write(1), Status::WriteFault, "");
    try_header(&rt, alloc, write(2), Status::WriteFault, "");
    try_header(&rt, alloc, write(3), Status::WriteFault, "order 0\n");
    try_header(&rt, alloc, behind, Status::Ok, "order 0\n");
}

const TWO_INVOCATIONS: &str =
    r#"{"clients":2,"f":1,"fast":true,"parts":1,"protocol":1,"sets":16,"ways":4}
{"client":1,"cmd":["put","61","31"],"do":"invoke"}
{"client":1,"cmd":["put","61","31"],"do":"invoke"}
"#;

const FIRST_STEP: &str =
    "s1 done\nm1 C1 M1 update 1.1 f1 e1 v1 put 61 31\nm2 C1 W1 record 1.1 f1 e1 put 61 31\n";

const BOTH_STEPS: &str =
    "s1 done\nm1 C1 M1 update 1.1 f1 e1 v1 put 61 31\nm2 C1 W1 record 1.1 f1 e1 put 61 31\n\
    s2 done\nm3 C1 M1 update 1.2 f1 e1 v1 put 61 31\nm4 C1 W1 record 1.2 f1 e1 put 61 31\n";

/// A script of two invocations, whose lines are all read at once, ends so.
fn try_invocations(rt: &impl Abort, alloc: Global, failing: Failing, status: Status, text: &str) {
    let ended = played(rt, alloc, TWO_INVOCATIONS, failing);
    assert!(rt; ended.is(status, text));
    drop(ended);
}

/// The text of a step is put before the next step is made, and the texts of both are passed on before more is read.
#[test]
fn steps_that_came_together_are_passed_on_together(rt: HostRuntime) {
    let alloc = rt.alloc();
    try_invocations(&rt, alloc, write(1), Status::WriteFault, "");
    try_invocations(&rt, alloc, write(2), Status::WriteFault, FIRST_STEP);
    try_invocations(&rt, alloc, write(3), Status::WriteFault, BOTH_STEPS);
    let ended = played(&rt, alloc, TWO_INVOCATIONS, read(2));
    assert!(rt; ended.is(Status::ReadFault, BOTH_STEPS));
    assert!(rt; ended.is_flushed());
    drop(ended);
}

/// What is written for the put.
const TEXT: &str = "s1 done\n\
    m1 C1 M1 update 1.1 f1 e1 v1 put 61 31\n\
    m2 C1 W1 record 1.1 f1 e1 put 61 31\n\
    s2 done\n\
    m3 M1 C1 reply 1.1 unsynced e1 v1 done\n\
    s3 done\n\
    m4 W1 C1 accepted 1.1 e1\n\
    s4 done\n\
    s5 done\n\
    c 1.1 done\n\
    order 1\n\
    1.1 put 61 31 -> done\n";

/// The put ends with that fault and a prefix of its text, or, where that call isn't made, with the whole of it.
fn try_call(rt: &impl Abort, alloc: Global, failing: Failing, fault: Status) {
    let ended = played(rt, alloc, SCRIPT, failing);
    let is_prefix = TEXT.as_bytes().starts_with(ended.sink.bytes());
    let is_cut = ended.status == fault && is_prefix;
    assert!(rt; ended.is(Status::Ok, TEXT) || is_cut);
    drop(ended);
}

/// A call behind the last one that is made has no effect: there are fewer than 12 of each.
#[test]
fn each_call_of_a_script_fails_in_turn(rt: HostRuntime) {
    for call in 1..=12 {
        try_call(&rt, rt.alloc(), read(call), Status::ReadFault);
        try_call(&rt, rt.alloc(), write(call), Status::WriteFault);
    }
    let behind = Failing {
        read: 12,
        write: 12,
    };
    let ended = played(&rt, rt.alloc(), SCRIPT, behind);
    assert!(rt; ended.is(Status::Ok, TEXT));
    drop(ended);
}

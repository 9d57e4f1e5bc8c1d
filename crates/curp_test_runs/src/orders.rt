// Orders for a manager, where reads and writes fail.
use crate::streams::{Ended, Failing, NONE, read, sink, source, write};
use curp_io::{MemorySink, MemorySource};
use curp_manage::manage_orders;
use curp_runner::Status;
use std::alloc::Global;
use std::process::Abort;

fn manage(alloc: Global, source: &mut MemorySource, sink: &mut MemorySink) -> Status {
    manage_orders(alloc, source, sink)
}

const ONE_ORDER: &str = r#"{"clients":1,"f":1,"fast":true,"parts":1,"protocol":1,"sets":16,"ways":4}
{"client":1,"do":"expire"}
"#;

const STEP: &str = "s1 done\nm1 G M1 expire c1\n";

const WHOLE: &str = "s1 done\nm1 G M1 expire c1\ndecisions 1\n";

fn managed(rt: &impl Abort, alloc: Global, failing: Failing) -> Ended {
    let mut source = source(rt, alloc, ONE_ORDER, failing);
    let mut sink = sink(rt, alloc, failing);
    let status = manage(alloc, &mut source, &mut sink);
    drop(source);
    Ended { status, sink }
}

/// One order ends so, and leaves this text.
fn try_order(rt: &impl Abort, alloc: Global, failing: Failing, status: Status, text: &str) {
    let ended = managed(rt, alloc, failing);
    assert!(rt; ended.is(status, text));
    drop(ended);
}

#[test]
fn each_failing_call_is_a_fault(rt: HostRuntime) {
    let alloc = rt.alloc();
    try_order(&rt, alloc, read(1), Status::ReadFault, "");
    try_order(&rt, alloc, read(2), Status::ReadFault, STEP);
    try_order(&rt, alloc, write(1), Status::WriteFault, "");
    try_order(&rt, alloc, write(2), Status::WriteFault, STEP);
    try_order(&rt, alloc, write(3), Status::WriteFault, STEP);
    try_order(&rt, alloc, write(4), Status::WriteFault, WHOLE);
    try_order(&rt, alloc, NONE, Status::Ok, WHOLE);
}

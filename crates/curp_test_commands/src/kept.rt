//! Requests that several hold, and the commands that are kept of them.

use crate::build::{get, made, must, put, request, right, shared};
use curp_base::Shared;
use curp_cmd::{Command, KeptCommand, Request, Standby};
use std::alloc::Global;
use std::process::Abort;

// Ten thousand that hold the request.
fn holders(rt: &impl Abort, alloc: Global, plain: &Request) -> Vec<Shared<Request>> {
    let first = shared(rt, alloc, plain);
    let mut holders = Vec::new(alloc);
    for _ in 0..10_000 {
        must(rt, holders.push(must(rt, first.share())));
    }
    drop(first);
    holders
}

#[test]
fn ten_thousand_hold_one_request(rt: HostRuntime) {
    let plain = request(1, 2, put(&rt, b"k", b"v"));
    let holders = holders(&rt, rt.alloc(), &plain);
    for holder in &holders {
        right(&rt, **holder == plain, "request");
    }
    right(&rt, holders.len() == 10_000, "holders");
    drop(holders);
}

// Ten thousand that keep the command.
fn keepers(rt: &impl Abort, alloc: Global, first: KeptCommand) -> Vec<KeptCommand> {
    let mut keepers = Vec::new(alloc);
    for _ in 0..10_000 {
        must(rt, keepers.push(must(rt, first.share(alloc))));
    }
    drop(first);
    keepers
}

fn try_command(rt: &impl Abort, kept: &KeptCommand, command: &Command) {
    right(rt, **kept == *command, "command");
}

fn try_keepers(rt: &impl Abort, keepers: Vec<KeptCommand>, command: &Command) {
    for kept in &keepers {
        try_command(rt, kept, command);
    }
    right(rt, keepers.len() == 10_000, "keepers");
    drop(keepers);
}

#[test]
fn ten_thousand_keep_the_command_of_a_request_and_of_none(rt: HostRuntime) {
    let command = put(&rt, b"k", b"v");
    let first = KeptCommand::of(shared(&rt, rt.alloc(), &request(1, 2, command)));
    try_keepers(&rt, keepers(&rt, rt.alloc(), first), &command);
    let command = get(&rt, b"k");
    let first = must(&rt, KeptCommand::new(rt.alloc(), &command));
    try_keepers(&rt, keepers(&rt, rt.alloc(), first), &command);
}

fn keep(rt: &impl Abort, standby: &mut Standby, request: &Shared<Request>) -> KeptCommand {
    made(rt, standby.reserve(1));
    standby.keep(request)
}

fn keep_own(rt: &impl Abort, standby: &mut Standby, command: &Command) -> KeptCommand {
    made(rt, standby.reserve(1));
    standby.keep_own(command)
}

// In turn one of the request's command, and one of another command, ten thousand times.
fn keep_both(
    rt: &impl Abort,
    standby: &mut Standby,
    request: &Shared<Request>,
    other: &Command,
    kept: &mut Vec<KeptCommand>,
) {
    for _ in 0..10_000 {
        must(rt, kept.push(keep(rt, standby, request)));
        must(rt, kept.push(keep_own(rt, standby, other)));
    }
}

fn both_kept(rt: &impl Abort, alloc: Global, plain: &Request, other: &Command) -> Vec<KeptCommand> {
    let mut kept = Vec::new(alloc);
    let mut standby = Standby::new(alloc);
    must(rt, standby.reserve(10_000));
    let request = shared(rt, alloc, plain);
    keep_both(rt, &mut standby, &request, other, &mut kept);
    drop(standby);
    drop(request);
    kept
}

fn try_both(rt: &impl Abort, kept: &[KeptCommand], command: &Command, other: &Command) {
    for (at, kept) in kept.iter().enumerate() {
        let expected = if at % 2 == 0 { command } else { other };
        try_command(rt, kept, expected);
    }
    right(rt, kept.len() == 20_000, "both");
}

#[test]
fn ten_thousand_are_kept_where_places_stand_ready(rt: HostRuntime) {
    let (command, other) = (put(&rt, b"k", b"v"), get(&rt, b"k"));
    let kept = both_kept(&rt, rt.alloc(), &request(1, 2, command), &other);
    try_both(&rt, &kept, &command, &other);
    drop(kept);
}

//! Bodies of messages from client 1 to master 2, each with its frame, written by hand: a word an item.

use crate::build::{
    ID, OTHER, add, all_kinds, boxed, held, items, key, multi, no_package, package, shared,
    two_parts, value,
};
use crate::frames::row;
use curp_base::{Boxed, Items, Shared};
use curp_cmd::{Answer, Command, NodeId, Package, Request};
use curp_msg::{
    Accepted, Adopted, Append, AppendAnswer, Appended, Ask, Body, Collected, Config, FenceAnswer,
    FenceReply, Gc, GcAnswer, Parcel, Prepare, Probe, Probed, Quick, Reason, Record, Recover,
    Recovered, Refusal, Refuse, Rejected, Reply, Start, TakeOut, Worth,
};
use std::alloc::Global;
use std::process::Abort;

// ---- requests

fn ask(rt: &impl Abort, alloc: Global, command: Command) -> Ask {
    Ask {
        request: shared(rt, alloc, command),
        epoch: 5,
        version: 7,
    }
}

fn record(rt: &impl Abort, alloc: Global, command: Command, frame: &str) {
    let record = Record {
        request: shared(rt, alloc, command),
        epoch: 5,
    };
    row(rt, alloc, Body::Record(record), frame);
}

/// What a client asks.
#[test]
fn asking(rt: HostRuntime) {
    let alloc = rt.alloc();
    let (a, fo, one) = (key(&rt, b"a"), key(&rt, b"fo"), value(&rt, b"1"));
    row(
        &rt,
        alloc,
        Body::Update(ask(&rt, alloc, Command::Put(a, one))),
        "00000024 01 0100000001 0200000002 00000001 00000002 00000002 02 0161 0131 00000005 00000007",
    );
    row(
        &rt,
        alloc,
        Body::Sync(ask(&rt, alloc, Command::Incr(fo))),
        "00000023 02 0100000001 0200000002 00000001 00000002 00000002 04 02666f 00000005 00000007",
    );
    row(
        &rt,
        alloc,
        Body::Read(ask(&rt, alloc, Command::Get(fo))),
        "00000023 03 0100000001 0200000002 00000001 00000002 00000002 01 02666f 00000005 00000007",
    );
    row(
        &rt,
        alloc,
        Body::Glance(ask(&rt, alloc, Command::Get(fo))),
        "00000023 22 0100000001 0200000002 00000001 00000002 00000002 01 02666f 00000005 00000007",
    );
    row(&rt, alloc, Body::Fetch, "0000000b 05 0100000001 0200000002");
    row(
        &rt,
        alloc,
        Body::Probe(Probe { id: ID, epoch: 5 }),
        "00000017 20 0100000001 0200000002 00000001 00000002 00000005",
    );
}

/// A record of each command.
#[test]
fn commands(rt: HostRuntime) {
    let alloc = rt.alloc();
    let (a, b, empty, one) = (
        key(&rt, b"a"),
        key(&rt, b"b"),
        value(&rt, b""),
        value(&rt, b"1"),
    );
    record(
        &rt,
        alloc,
        Command::Get(a),
        "0000001e 04 0100000001 0200000002 00000001 00000002 00000002 01 0161 00000005",
    );
    record(
        &rt,
        alloc,
        Command::Put(a, empty),
        "0000001f 04 0100000001 0200000002 00000001 00000002 00000002 02 0161 00 00000005",
    );
    record(
        &rt,
        alloc,
        Command::Delete(a),
        "0000001e 04 0100000001 0200000002 00000001 00000002 00000002 03 0161 00000005",
    );
    record(
        &rt,
        alloc,
        Command::Incr(a),
        "0000001e 04 0100000001 0200000002 00000001 00000002 00000002 04 0161 00000005",
    );
    record(
        &rt,
        alloc,
        Command::Append(a, one),
        "00000020 04 0100000001 0200000002 00000001 00000002 00000002 05 0161 0131 00000005",
    );
    record(
        &rt,
        alloc,
        Command::CondPut(a, None, one),
        "00000021 04 0100000001 0200000002 00000001 00000002 00000002 06 0161 00 0131 00000005",
    );
    record(
        &rt,
        alloc,
        Command::CondPut(a, Some(one), empty),
        "00000022 04 0100000001 0200000002 00000001 00000002 00000002 06 0161 01 0131 00 00000005",
    );
    record(
        &rt,
        alloc,
        multi(&rt, &[(b, one), (a, empty)]),
        "00000024 04 0100000001 0200000002 00000001 00000002 00000002 07 02 0162 0131 0161 00 \
        00000005",
    );
}

// ---- answers to clients

fn reply(rt: &impl Abort, alloc: Global, synced: bool, answer: Answer, frame: &str) {
    let reply = Reply {
        id: ID,
        synced,
        epoch: 5,
        version: 7,
        answer,
    };
    row(rt, alloc, Body::Reply(boxed(rt, alloc, reply)), frame);
}

fn worth(rt: &impl Abort, alloc: Global, answer: Answer, frame: &str) {
    let worth = Worth {
        id: ID,
        epoch: 5,
        capture: 8,
        answer,
    };
    row(rt, alloc, Body::Worth(boxed(rt, alloc, worth)), frame);
}

fn quick(rt: &impl Abort, alloc: Global, answer: Answer, frame: &str) {
    let quick = Quick {
        id: ID,
        epoch: 5,
        version: 7,
        capture: 8,
        answer,
    };
    row(rt, alloc, Body::Quick(boxed(rt, alloc, quick)), frame);
}

/// Replies to updates, with each answer of these.
#[test]
fn replies(rt: HostRuntime) {
    let alloc = rt.alloc();
    reply(
        &rt,
        alloc,
        true,
        Answer::Done,
        "0000001d 07 0100000001 0200000002 00000001 00000002 01 00000005 00000007 01",
    );
    reply(
        &rt,
        alloc,
        false,
        Answer::Removed(true),
        "0000001e 07 0100000001 0200000002 00000001 00000002 00 00000005 00000007 02 01",
    );
    reply(
        &rt,
        alloc,
        false,
        Answer::Number(u64::MAX),
        "00000025 07 0100000001 0200000002 00000001 00000002 00 00000005 00000007 03 ffffffffffffffff",
    );
    reply(
        &rt,
        alloc,
        false,
        Answer::Length(128),
        "00000021 07 0100000001 0200000002 00000001 00000002 00 00000005 00000007 04 00000080",
    );
    reply(
        &rt,
        alloc,
        true,
        Answer::Swapped(false),
        "0000001e 07 0100000001 0200000002 00000001 00000002 01 00000005 00000007 05 00",
    );
    reply(
        &rt,
        alloc,
        true,
        Answer::NotNumber,
        "0000001d 07 0100000001 0200000002 00000001 00000002 01 00000005 00000007 06",
    );
    reply(
        &rt,
        alloc,
        true,
        Answer::Overflow,
        "0000001d 07 0100000001 0200000002 00000001 00000002 01 00000005 00000007 07",
    );
    reply(
        &rt,
        alloc,
        true,
        Answer::TooLong,
        "0000001d 07 0100000001 0200000002 00000001 00000002 01 00000005 00000007 08",
    );
}

fn probed(rt: &impl Abort, alloc: Global, live: bool, frame: &str) {
    let probed = Probed {
        id: ID,
        epoch: 5,
        live,
    };
    row(rt, alloc, Body::Probed(probed), frame);
}

fn twelve(rt: &impl Abort) -> Answer {
    Answer::Found(Some(value(rt, b"12")))
}

/// What is read, and whether a witness is live.
#[test]
fn values(rt: HostRuntime) {
    let alloc = rt.alloc();
    worth(
        &rt,
        alloc,
        Answer::Found(None),
        "00000021 08 0100000001 0200000002 00000001 00000002 00000005 0000000000000008 09 00",
    );
    worth(
        &rt,
        alloc,
        twelve(&rt),
        "00000024 08 0100000001 0200000002 00000001 00000002 00000005 0000000000000008 09 01 023132",
    );
    quick(
        &rt,
        alloc,
        twelve(&rt),
        "00000028 23 0100000001 0200000002 00000001 00000002 00000005 00000007 0000000000000008 09 01 \
        023132",
    );
    probed(
        &rt,
        alloc,
        true,
        "00000018 21 0100000001 0200000002 00000001 00000002 00000005 01",
    );
    probed(
        &rt,
        alloc,
        false,
        "00000018 21 0100000001 0200000002 00000001 00000002 00000005 00",
    );
}

fn refuse(rt: &impl Abort, alloc: Global, refusal: Refusal, frame: &str) {
    row(rt, alloc, Body::Refuse(Refuse { id: ID, refusal }), frame);
}

/// Each refusal.
#[test]
fn refusals(rt: HostRuntime) {
    let alloc = rt.alloc();
    refuse(
        &rt,
        alloc,
        Refusal::Version { current: 2 },
        "00000018 09 0100000001 0200000002 00000001 00000002 01 00000002",
    );
    refuse(
        &rt,
        alloc,
        Refusal::Epoch { current: 3 },
        "00000018 09 0100000001 0200000002 00000001 00000002 02 00000003",
    );
    refuse(
        &rt,
        alloc,
        Refusal::NotOwner,
        "00000014 09 0100000001 0200000002 00000001 00000002 03",
    );
    refuse(
        &rt,
        alloc,
        Refusal::Stale { first: 4 },
        "00000018 09 0100000001 0200000002 00000001 00000002 04 00000004",
    );
    refuse(
        &rt,
        alloc,
        Refusal::InProgress,
        "00000014 09 0100000001 0200000002 00000001 00000002 05",
    );
    refuse(
        &rt,
        alloc,
        Refusal::Expired,
        "00000014 09 0100000001 0200000002 00000001 00000002 06",
    );
    refuse(
        &rt,
        alloc,
        Refusal::Switching,
        "00000014 09 0100000001 0200000002 00000001 00000002 07",
    );
}

fn reject(rt: &impl Abort, alloc: Global, reason: Reason, frame: &str) {
    row(
        rt,
        alloc,
        Body::Rejected(Rejected { id: ID, reason }),
        frame,
    );
}

/// A request that a witness holds, and each reason why it doesn't.
#[test]
fn verdicts(rt: HostRuntime) {
    let alloc = rt.alloc();
    row(
        &rt,
        alloc,
        Body::Accepted(Accepted { id: ID, epoch: 5 }),
        "00000017 0a 0100000001 0200000002 00000001 00000002 00000005",
    );
    reject(
        &rt,
        alloc,
        Reason::Conflict { held: OTHER },
        "0000001c 0b 0100000001 0200000002 00000001 00000002 01 00000003 0000000e",
    );
    reject(
        &rt,
        alloc,
        Reason::SetFull { set: 15 },
        "00000018 0b 0100000001 0200000002 00000001 00000002 02 0000000f",
    );
    reject(
        &rt,
        alloc,
        Reason::Frozen,
        "00000014 0b 0100000001 0200000002 00000001 00000002 03",
    );
    reject(
        &rt,
        alloc,
        Reason::Stranger { epoch: 6 },
        "00000018 0b 0100000001 0200000002 00000001 00000002 04 00000006",
    );
    reject(
        &rt,
        alloc,
        Reason::Idle,
        "00000014 0b 0100000001 0200000002 00000001 00000002 05",
    );
}

// ---- backups

fn append(rt: &impl Abort, alloc: Global) -> Body {
    Body::Append(Append {
        epoch: 5,
        base: 6,
        round: 7,
        entries: Items::new(all_kinds(rt, alloc)),
    })
}

fn appended(rt: &impl Abort, alloc: Global, answer: AppendAnswer, frame: &str) {
    let appended = Appended {
        epoch: 5,
        round: 7,
        answer,
    };
    row(rt, alloc, Body::Appended(appended), frame);
}

/// An append of all kinds of entries, and each answer to one.
#[test]
fn appends(rt: HostRuntime) {
    let alloc = rt.alloc();
    row(
        &rt,
        alloc,
        append(&rt, alloc),
        "000000b1 0c 0100000001 0200000002 00000005 0000000000000006 0000000000000007 00000004 01 \
        00000001 00000002 00000002 02 0161 0131 00000001 02 00000003 0000000000000000 \
        0fffffffffffffff 00000002 0161 0131 0162 00 00000002 00000001 00000002 01 00000003 0000000e \
        07 00000001 00000001 00000002 00000002 00000004 00000006 03 00000003 0000000000000007 \
        0000000000000007 00000000 00000000 00000000 00000000 04 00000007",
    );
    appended(
        &rt,
        alloc,
        AppendAnswer::Stored { length: 8 },
        "00000020 0d 0100000001 0200000002 00000005 0000000000000007 00 0000000000000008",
    );
    appended(
        &rt,
        alloc,
        AppendAnswer::Fenced { epoch: 9 },
        "0000001c 0d 0100000001 0200000002 00000005 0000000000000007 01 00000009",
    );
    appended(
        &rt,
        alloc,
        AppendAnswer::Gap { length: 3 },
        "00000020 0d 0100000001 0200000002 00000005 0000000000000007 02 0000000000000003",
    );
    appended(
        &rt,
        alloc,
        AppendAnswer::NotInstalled,
        "00000018 0d 0100000001 0200000002 00000005 0000000000000007 03",
    );
}

fn fence_answer(rt: &impl Abort, alloc: Global, answer: FenceReply, frame: &str) {
    let answer = FenceAnswer { epoch: 5, answer };
    row(rt, alloc, Body::FenceAnswer(answer), frame);
}

/// A backup that is installed and fenced, and its answers.
#[test]
fn fences(rt: HostRuntime) {
    let alloc = rt.alloc();
    row(
        &rt,
        alloc,
        Body::Install { epoch: 5 },
        "0000000f 10 0100000001 0200000002 00000005",
    );
    row(
        &rt,
        alloc,
        Body::Fence { epoch: 5 },
        "0000000f 13 0100000001 0200000002 00000005",
    );
    fence_answer(
        &rt,
        alloc,
        FenceReply::Log(Items::new(all_kinds(&rt, alloc))),
        "000000a2 14 0100000001 0200000002 00000005 00 00000004 01 00000001 00000002 00000002 02 0161 \
        0131 00000001 02 00000003 0000000000000000 0fffffffffffffff 00000002 0161 0131 0162 00 \
        00000002 00000001 00000002 01 00000003 0000000e 07 00000001 00000001 00000002 00000002 \
        00000004 00000006 03 00000003 0000000000000007 0000000000000007 00000000 00000000 00000000 \
        00000000 04 00000007",
    );
    fence_answer(
        &rt,
        alloc,
        FenceReply::Fenced { epoch: 9 },
        "00000014 14 0100000001 0200000002 00000005 01 00000009",
    );
}

// ---- witnesses

/// Two requests, the later one first.
fn two_requests(rt: &impl Abort, alloc: Global) -> Items<Shared<Request>> {
    let later = Request {
        id: OTHER,
        first: 1,
        command: Command::Get(key(rt, b"a")),
    };
    let mut both = Vec::new(alloc);
    add(rt, &mut both, held(rt, alloc, later));
    add(
        rt,
        &mut both,
        shared(rt, alloc, Command::Get(key(rt, b"a"))),
    );
    Items::new(both)
}

fn gc(rt: &impl Abort, alloc: Global) -> Body {
    Body::Gc(Gc {
        epoch: 5,
        ids: items(rt, alloc, &[OTHER, ID]),
    })
}

fn frozen(rt: &impl Abort, alloc: Global) -> Body {
    Body::FrozenAnswer {
        requests: two_requests(rt, alloc),
    }
}

fn collected(rt: &impl Abort, alloc: Global, answer: GcAnswer, frame: &str) {
    let collected = Collected { epoch: 5, answer };
    row(rt, alloc, Body::Collected(collected), frame);
}

/// What a witness is asked, and each of its answers.
#[test]
fn witnesses(rt: HostRuntime) {
    let alloc = rt.alloc();
    row(
        &rt,
        alloc,
        Body::Start(Start { part: 2, epoch: 5 }),
        "00000013 11 0100000001 0200000002 00000002 00000005",
    );
    row(
        &rt,
        alloc,
        gc(&rt, alloc),
        "00000023 0e 0100000001 0200000002 00000005 00000002 00000003 0000000e 00000001 00000002",
    );
    collected(
        &rt,
        alloc,
        GcAnswer::Suspects(two_requests(&rt, alloc)),
        "00000032 0f 0100000001 0200000002 00000005 00 00000002 00000003 0000000e 00000001 01 0161 \
        00000001 00000002 00000002 01 0161",
    );
    collected(
        &rt,
        alloc,
        GcAnswer::Stranger { epoch: None },
        "00000011 0f 0100000001 0200000002 00000005 01 00",
    );
    collected(
        &rt,
        alloc,
        GcAnswer::Stranger { epoch: Some(6) },
        "00000015 0f 0100000001 0200000002 00000005 01 01 00000006",
    );
    row(
        &rt,
        alloc,
        Body::Freeze { epoch: 5 },
        "0000000f 15 0100000001 0200000002 00000005",
    );
    row(
        &rt,
        alloc,
        frozen(&rt, alloc),
        "0000002d 16 0100000001 0200000002 00000002 00000003 0000000e 00000001 01 0161 00000001 \
        00000002 00000002 01 0161",
    );
}

// ---- the manager

fn config(rt: &impl Abort, alloc: Global) -> Body {
    Body::Configuration {
        config: Config {
            serial: 4,
            parts: two_parts(rt, alloc),
        },
    }
}

fn recover(rt: &impl Abort, alloc: Global) -> Body {
    let recover = Recover {
        part: 2,
        epoch: 5,
        version: 7,
        backup: NodeId::backup(3),
        witness: NodeId::witness(4),
        backups: items(rt, alloc, &[NodeId::backup(5), NodeId::backup(6)]),
        witnesses: items(rt, alloc, &[NodeId::witness(5), NodeId::witness(6)]),
        lo: 1,
        hi: u64::MAX,
    };
    Body::Recover(boxed(rt, alloc, recover))
}

fn prepare(rt: &impl Abort, alloc: Global) -> Body {
    Body::Prepare(Prepare {
        version: 8,
        backups: items(rt, alloc, &[NodeId::backup(3)]),
        witnesses: items(rt, alloc, &[NodeId::witness(4)]),
    })
}

/// Configurations, recoveries and replacements.
#[test]
fn changes(rt: HostRuntime) {
    let alloc = rt.alloc();
    let adopted = Adopted {
        part: 2,
        epoch: 5,
        version: 7,
    };
    row(
        &rt,
        alloc,
        config(&rt, alloc),
        "0000007c 06 0100000001 0200000002 00000004 00000002 00000002 00000001 00000003 0200000002 \
        00000002 0300000003 0300000004 00000001 0400000004 00000002 0000000000000000 \
        0fffffffffffffff 8000000000000000 ffffffffffffffff 0000000a 00000005 00000007 020000000c \
        00000000 00000000 00000000",
    );
    row(
        &rt,
        alloc,
        recover(&rt, alloc),
        "0000004d 12 0100000001 0200000002 00000002 00000005 00000007 0300000003 0400000004 00000002 \
        0300000005 0300000006 00000002 0400000005 0400000006 0000000000000001 ffffffffffffffff",
    );
    row(
        &rt,
        alloc,
        Body::Recovered(Recovered { part: 2, epoch: 5 }),
        "00000013 17 0100000001 0200000002 00000002 00000005",
    );
    row(
        &rt,
        alloc,
        Body::Adopted(adopted),
        "00000017 18 0100000001 0200000002 00000002 00000005 00000007",
    );
    row(
        &rt,
        alloc,
        prepare(&rt, alloc),
        "00000021 19 0100000001 0200000002 00000008 00000001 0300000003 00000001 0400000004",
    );
    row(
        &rt,
        alloc,
        Body::Prepared { version: 8 },
        "0000000f 1a 0100000001 0200000002 00000008",
    );
    row(
        &rt,
        alloc,
        Body::ExpireClient { client: 1 },
        "0000000f 1f 0100000001 0200000002 00000001",
    );
}

/// A parcel of migration 3.
fn parcel(rt: &impl Abort, alloc: Global, package: Shared<Package>) -> Boxed<Parcel> {
    let parcel = Parcel {
        migration: 3,
        package,
    };
    boxed(rt, alloc, parcel)
}

/// Migrations.
#[test]
fn migrations(rt: HostRuntime) {
    let alloc = rt.alloc();
    let take = TakeOut {
        migration: 3,
        lo: 5,
        hi: 5,
    };
    row(
        &rt,
        alloc,
        Body::TakeOut(take),
        "0000001f 1b 0100000001 0200000002 00000003 0000000000000005 0000000000000005",
    );
    row(
        &rt,
        alloc,
        Body::Taken(parcel(&rt, alloc, package(&rt, alloc))),
        "00000058 1c 0100000001 0200000002 00000003 0000000000000000 0fffffffffffffff 00000002 0161 \
        0131 0162 00 00000002 00000001 00000002 01 00000003 0000000e 07 00000001 00000001 00000002 \
        00000002 00000004 00000006",
    );
    row(
        &rt,
        alloc,
        Body::GiveIn(parcel(&rt, alloc, no_package(&rt, alloc))),
        "0000002f 1d 0100000001 0200000002 00000003 0000000000000007 0000000000000007 00000000 \
        00000000 00000000 00000000",
    );
    row(
        &rt,
        alloc,
        Body::Given { migration: 3 },
        "0000000f 1e 0100000001 0200000002 00000003",
    );
}

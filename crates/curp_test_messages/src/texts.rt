//! The texts of messages, orders, what nodes do, and how steps went.

use crate::build::{id, key, must, request, right, shared, value};
use curp_base::{Items, Shared};
use curp_cmd::{Answer, Command, Keeper, NodeId};
use curp_msg::{Ask, Body, Completed, Done, Input, Local, Message, Reason, Refusal, StepResult};
use std::alloc::Global;
use std::fmt::{Debug, Display};
use std::process::Abort;

fn shows(rt: &impl Abort, alloc: Global, shown: &impl Display, text: &str) {
    let written = must(rt, format!(in alloc; "{shown}"));
    right(rt, written.as_str() == text, text);
    drop(written);
}

fn debugs(rt: &impl Abort, alloc: Global, shown: &impl Debug, text: &str) {
    let written = must(rt, format!(in alloc; "{shown:?}"));
    right(rt, written.as_str() == text, text);
    drop(written);
}

fn put(rt: &impl Abort) -> Command {
    Command::Put(key(rt, b"a"), value(rt, b"1"))
}

fn update(rt: &impl Abort, alloc: Global) -> Message {
    Message {
        from: NodeId::client(1),
        to: NodeId::master(1),
        body: Body::Update(Ask {
            request: shared(rt, alloc, &request(1, 1, put(rt))),
            epoch: 1,
            version: 1,
        }),
    }
}

#[test]
fn messages_have_texts(rt: HostRuntime) {
    let alloc = rt.alloc();
    let message = update(&rt, alloc);
    shows(&rt, alloc, &message, "C1 M1 update 1.1 f1 e1 v1 put 61 31");
    debugs(
        &rt,
        alloc,
        &message,
        "Message(C1 M1 update 1.1 f1 e1 v1 put 61 31)",
    );
    shows(&rt, alloc, &message.body, "update 1.1 f1 e1 v1 put 61 31");
    shows(
        &rt,
        alloc,
        &Input::Message(&message),
        "C1 M1 update 1.1 f1 e1 v1 put 61 31",
    );
}

#[test]
fn orders_have_texts(rt: HostRuntime) {
    let alloc = rt.alloc();
    let command = must(&rt, Shared::of(alloc, &put(&rt)));
    shows(&rt, alloc, &Local::Invoke(command), "invoke put 61 31");
    shows(&rt, alloc, &Local::Retry(2), "retry 2");
    shows(&rt, alloc, &Input::Local(&Local::Sync), "sync");
    let recover = Local::Recover {
        part: 1,
        backup: 2,
        witness: 3,
    };
    shows(&rt, alloc, &recover, "recover p1 2 3");
    let replace = Local::Replace {
        keeper: Keeper::Witness,
        part: 1,
        place: 2,
    };
    shows(&rt, alloc, &replace, "replace witness p1 2");
    let migrate = Local::Migrate {
        lo: 0,
        hi: 255,
        to: 2,
    };
    let text = "migrate 0000000000000000-00000000000000ff p2";
    shows(&rt, alloc, &migrate, text);
    shows(&rt, alloc, &Local::Expire(3), "expire c3");
}

#[test]
fn what_nodes_do_has_a_text(rt: HostRuntime) {
    let alloc = rt.alloc();
    let completed = Completed {
        id: id(1, 2),
        answer: Answer::Done,
        by: None,
    };
    shows(&rt, alloc, &completed, "1.2 done");
    shows(&rt, alloc, &Done::quiet(alloc), "done");
    shows(&rt, alloc, &Done::refuses(alloc, 3), "refused call 3");
    shows(
        &rt,
        alloc,
        &Done::completes(alloc, completed),
        "done; c 1.2 done",
    );
    let mut sent = Vec::new(alloc);
    must(&rt, sent.push(update(&rt, alloc)));
    let done = Done {
        refused: 0,
        sent: Items::new(sent),
        invoked: None,
        completed: None,
    };
    shows(
        &rt,
        alloc,
        &done,
        "done; C1 M1 update 1.1 f1 e1 v1 put 61 31",
    );
}

#[test]
fn reasons_have_texts(rt: HostRuntime) {
    let alloc = rt.alloc();
    shows(&rt, alloc, &Refusal::Stale { first: 3 }, "stale f3");
    shows(&rt, alloc, &Refusal::NotOwner, "not-owner");
    shows(
        &rt,
        alloc,
        &Reason::Conflict { held: id(1, 2) },
        "conflict 1.2",
    );
    shows(&rt, alloc, &Reason::SetFull { set: 7 }, "full 7");
    shows(&rt, alloc, &StepResult::NoMessage, "refused no-message");
    shows(
        &rt,
        alloc,
        &StepResult::Full { weight: 2_000_001 },
        "refused full 2000001",
    );
}

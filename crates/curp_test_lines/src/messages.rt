// Texts of steps that no script brings about: messages that no node sends here, and the largest numbers.
use crate::rows::must_hold;
use curp_base::{Items, Shared};
use curp_cmd::{Answer, Command, Key, NodeId, Request, RequestId, Value};
use curp_msg::{
    AppendAnswer, Appended, Ask, Body, Collected, Completed, GcAnswer, Message, Outcome, Reason,
    Refusal, Refuse, Rejected, StepResult,
};
use curp_report::step_text;
use std::alloc::Global;
use std::process::Abort;

const ID: RequestId = RequestId { client: 1, seq: 2 };

// ---- what is called, of which the tests know nothing

/// The text of a step that sent two messages at most.
fn text_of(
    rt: &impl Abort,
    alloc: Global,
    number: u64,
    outcome: &Outcome,
    sent: &[Message],
) -> Vec<u8> {
    assert!(rt; outcome.first <= u64::MAX - 2 && sent.len() <= 2);
    step_text(alloc, number, outcome, sent).expect(rt, "no memory")
}

// ---- messages that no node sends in a run: its epochs are those of the nodes, and a backup's list only grows

const OTHER_EPOCH: Refuse = Refuse {
    id: ID,
    refusal: Refusal::Epoch { current: 3 },
};

const STRANGER: Rejected = Rejected {
    id: ID,
    reason: Reason::Stranger { epoch: 6 },
};

const NOT_COLLECTED: Collected = Collected {
    epoch: 5,
    answer: GcAnswer::Stranger { epoch: Some(6) },
};

const GAP: Appended = Appended {
    epoch: 5,
    round: 7,
    answer: AppendAnswer::Gap { length: 3 },
};

const DONE: Outcome = Outcome {
    result: StepResult::Done,
    first: 9,
    sent: 1,
    completed: None,
};

fn says(rt: &impl Abort, alloc: Global, body: Body, words: &str) {
    let sent = [Message {
        from: NodeId::client(1),
        to: NodeId::master(2),
        body,
    }];
    let text = text_of(rt, alloc, 3, &DONE, &sent);
    drop(sent);
    let wanted = format!(in alloc; "s3 done\nm9 C1 M2 {words}\n").expect(rt, "no memory");
    must_hold(rt, words, text.as_slice() == wanted.as_bytes());
}

#[test]
fn shows_what_no_run_sends(rt: HostRuntime) {
    let alloc = rt.alloc();
    says(&rt, alloc, Body::Refuse(OTHER_EPOCH), "refuse 1.2 epoch e3");
    says(
        &rt,
        alloc,
        Body::Rejected(STRANGER),
        "rejected 1.2 stranger e6",
    );
    says(&rt, alloc, Body::Collected(NOT_COLLECTED), "stranger e6");
    says(&rt, alloc, Body::Appended(GAP), "gap l3");
}

// ---- the greatest numbers, the longest key and value, all slots of a witness, and a completion behind the messages

const LAST: RequestId = RequestId {
    client: u32::MAX,
    seq: u32::MAX,
};

/// A put of the longest key and value.
fn request(rt: &impl Abort, alloc: Global, id: RequestId, first: u32) -> Shared<Request> {
    let key = Key::new(&[255; 32]).expect(rt, "no key");
    let value = Value::new(&[255; 128]).expect(rt, "no value");
    let request = Request {
        id,
        first,
        command: Command::Put(key, value),
    };
    Shared::of(alloc, &request).expect(rt, "no memory")
}

fn frozen(rt: &impl Abort, alloc: Global) -> Body {
    let mut requests = Vec::new(alloc);
    for _ in 0..1024 * 16 {
        assert!(rt; requests.push(request(rt, alloc, LAST, 1)).is_ok());
    }
    Body::FrozenAnswer {
        requests: Items::new(requests),
    }
}

fn to_the_manager(body: Body) -> Message {
    Message {
        from: NodeId::witness(4),
        to: NodeId::manager(),
        body,
    }
}

const FULL: Outcome = Outcome {
    result: StepResult::Full { weight: u64::MAX },
    first: u64::MAX - 2,
    sent: 2,
    completed: Some(Completed {
        id: LAST,
        answer: Answer::Done,
        by: None,
    }),
};

fn largest_text(rt: &impl Abort, alloc: Global) -> Vec<u8> {
    let update = Body::Update(Ask {
        request: request(rt, alloc, ID, 2),
        epoch: 5,
        version: 7,
    });
    let sent = [to_the_manager(update), to_the_manager(frozen(rt, alloc))];
    let text = text_of(rt, alloc, u64::MAX, &FULL, &sent);
    drop(sent);
    text
}

const LARGEST: usize = 56 + 373 + (34 + 16384 * 22) + 29;

#[test]
fn shows_the_largest_steps(rt: HostRuntime) {
    let text = largest_text(&rt, rt.alloc());
    must_hold(&rt, "its length", text.len() == LARGEST);
    let ends = text.ends_with(b" 4294967295.4294967295\nc 4294967295.4294967295 done\n");
    must_hold(&rt, "its end", ends);
}

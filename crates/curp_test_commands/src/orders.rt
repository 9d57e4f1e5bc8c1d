//! The order in which commands are done, and what clients saw of it.

use crate::build::{get, key, made, must, right, right_at, value};
use curp_cmd::{Answer, Command, KeptCommand, Key, RequestId, Value};
use curp_order::{Event, History, run_order};
use std::alloc::Global;
use std::process::Abort;

const ID: RequestId = RequestId { client: 1, seq: 1 };

const COMPLETES: Event = Event::Complete {
    id: ID,
    answer: Answer::Found(None),
};

fn record_get(rt: &impl Abort, alloc: Global, history: &mut History, command: &Command) {
    let kept = must(rt, KeptCommand::new(alloc, command));
    made(rt, history.reserve(2));
    history.record(Some((ID, kept)), Some((ID, Answer::Found(None))));
}

fn record_nothing(rt: &impl Abort, history: &mut History) {
    made(rt, history.reserve(100_000));
    history.record(None, None);
}

fn try_event(rt: &impl Abort, history: &History, at: usize, expected: Event) {
    match history.events().get(at) {
        Some(kept) => right_at(rt, kept.event() == expected, "event", at as u64),
        None => rt.panic("no event"),
    }
}

#[test]
fn records_what_clients_saw(rt: HostRuntime) {
    let mut history = History::new(rt.alloc());
    let command = get(&rt, b"a");
    record_get(&rt, rt.alloc(), &mut history, &command);
    record_nothing(&rt, &mut history);
    try_event(&rt, &history, 0, Event::Invoke { id: ID, command });
    try_event(&rt, &history, 1, COMPLETES);
    right(&rt, history.events().len() == 2, "records what clients saw");
    drop(history);
}

fn commands(rt: &impl Abort) -> [Command; 12] {
    let (a, b, ab) = (key(rt, b"a"), key(rt, b"b"), value(rt, b"ab"));
    [
        Command::Append(a, ab),
        Command::Incr(a),
        Command::CondPut(a, Some(ab), value(rt, b"")),
        Command::Get(a),
        Command::Delete(a),
        Command::Delete(a),
        Command::CondPut(a, None, value(rt, b"1")),
        Command::CondPut(a, None, value(rt, b"2")),
        put_both(rt, a, b),
        Command::Incr(a),
        get(rt, b"c"),
        Command::Append(b, value(rt, &[7; 128])),
    ]
}

// The number 1 to the one key, and "3" to the other.
fn put_both(rt: &impl Abort, a: Key, b: Key) -> Command {
    let one = value(rt, &[0, 0, 0, 0, 0, 0, 0, 1]);
    must(rt, Command::multi(&[(a, one), (b, value(rt, b"3"))]))
}

fn requests(rt: &impl Abort, alloc: Global) -> Vec<(RequestId, Command)> {
    let mut requests = Vec::new(alloc);
    for (seq, command) in (1_u32..=12).zip(&commands(rt)) {
        let id = RequestId { client: 1, seq };
        must(rt, requests.push((id, *command)));
    }
    requests
}

fn expected(empty: Value) -> [Answer; 12] {
    [
        Answer::Length(2),
        Answer::NotNumber,
        Answer::Swapped(true),
        Answer::Found(Some(empty)),
        Answer::Removed(true),
        Answer::Removed(false),
        Answer::Swapped(true),
        Answer::Swapped(false),
        Answer::Done,
        Answer::Number(2),
        Answer::Found(None),
        Answer::TooLong,
    ]
}

fn answers(rt: &impl Abort, alloc: Global) -> Vec<Answer> {
    let requests = requests(rt, alloc);
    let answers = must(rt, run_order(alloc, &requests));
    drop(requests);
    answers
}

#[test]
fn answers_as_one_thread(rt: HostRuntime) {
    let answers = answers(&rt, rt.alloc());
    let expected = expected(value(&rt, b""));
    right(
        &rt,
        answers.as_slice() == expected.as_slice(),
        "answers as one thread",
    );
    drop(answers);
}

ghost use Rattle.curp_law_print.specs.EventRanges.{AnswerInRange, AskedInRange, EventInRange, IdInRange};
ghost use Rattle.curp_law_print.specs.Ranges.{ArePairs, CommandInRange, IsExpected, IsIndex, IsKey, IsLong, IsValue};
ghost use Rattle.curp_law_print.specs.Ranges.{StepInRange};

use curp_cmd::{Answer, Command, Key, Pairs, RequestId, Value};
use curp_msg::Step;
use curp_order::Event;

/// Each value of a step is in its range, as its type has it. The step is only looked at.
pub fn step_is_in_range(step: &Step)
    ensures { StepInRange step.now }
{
    match step {
        Step::Invoke { client, command } => {
            index_is_in_range(*client);
            command_is_in_range(command);
        }
        Step::Deliver { message } => long_is_in_range(*message),
        Step::Fetch { client } | Step::Expire { client } => index_is_in_range(*client),
        Step::Sync { master } | Step::Collect { master } => index_is_in_range(*master),
        Step::Retry {
            client: one,
            seq: other,
        }
        | Step::Replace {
            part: one,
            place: other,
            ..
        } => {
            index_is_in_range(*one);
            index_is_in_range(*other);
        }
        Step::Recover {
            part,
            backup,
            witness,
        } => {
            index_is_in_range(*part);
            index_is_in_range(*backup);
            index_is_in_range(*witness);
        }
        Step::Migrate { lo, hi, to } => {
            long_is_in_range(*lo);
            long_is_in_range(*hi);
            index_is_in_range(*to);
        }
        Step::Nudge => {}
        Step::Stop { node } => index_is_in_range(node.number),
    }
}

/// The same of an event.
pub fn event_is_in_range(event: &Event)
    ensures { EventInRange event.now }
{
    match event {
        Event::Invoke { id, command } => asked_is_in_range(id, command),
        Event::Complete { id, answer } => {
            id_is_in_range(*id);
            answer_is_in_range(answer);
        }
    }
}

/// The same of a request with its command.
pub fn asked_is_in_range(id: &RequestId, command: &Command)
    ensures { AskedInRange (id.now, command.now) }
{
    id_is_in_range(*id);
    command_is_in_range(command);
}

fn id_is_in_range(_id: RequestId)
    ensures { IdInRange _id }
{}

fn answer_is_in_range(answer: &Answer)
    ensures { AnswerInRange answer.now }
{
    match answer {
        Answer::Number(number) => long_is_in_range(*number),
        Answer::Length(length) => index_is_in_range(*length),
        Answer::Found(value) => expected_is_in_range(value),
        _ => {}
    }
}

fn index_is_in_range(_index: u32)
    ensures { IsIndex _index }
{}

fn long_is_in_range(_long: u64)
    ensures { IsLong _long }
{}

fn command_is_in_range(command: &Command)
    ensures { CommandInRange command.now }
{
    match command {
        Command::Get(key) | Command::Delete(key) | Command::Incr(key) => key_is_in_range(key),
        Command::Put(key, value) | Command::Append(key, value) => {
            key_is_in_range(key);
            value_is_in_range(value);
        }
        Command::CondPut(key, expected, value) => {
            key_is_in_range(key);
            expected_is_in_range(expected);
            value_is_in_range(value);
        }
        Command::Multi(pairs) => pairs_are_in_range(pairs),
    }
}

fn pairs_are_in_range(pairs: &Pairs)
    ensures { ArePairs pairs.now }
{
    for (key, value) in pairs.as_slice() {
        key_is_in_range(key);
        value_is_in_range(value);
    }
}

fn key_is_in_range(key: &Key)
    ensures { IsKey key.now }
{
    let _bytes = key.bytes();
}

fn value_is_in_range(value: &Value)
    ensures { IsValue value.now }
{
    let _bytes = value.bytes();
}

fn expected_is_in_range(expected: &Option<Value>)
    ensures { IsExpected expected.now }
{
    if let Some(value) = expected {
        value_is_in_range(value);
    }
}

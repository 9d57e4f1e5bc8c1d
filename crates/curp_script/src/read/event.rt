ghost use Rattle.std.specs.Prelude.{◌≡◌, ◌≤◌, ◌-◌, ◌^◌, option_and_then, IfSome};
ghost use Rattle.serde_json.specs.Find.{as_bool, as_number, as_u64};
ghost use Rattle.curp_script.specs.EventKinds.{event_kind_of};
ghost use Rattle.curp_script.specs.Events.{alone, answer_at, answer_by, answer_of, event_of, event_values, id_at, id_of, index_in, one_part};
ghost use Rattle.curp_script.specs.Grammar.{expected_in, number_within, text_as};
ghost use Rattle.curp_script.specs.Values.{value_data, values_data};

use super::command::{command_at, expected_of};
use super::fields::no_other;
use super::object::{flag_in, items_in, number_in, text_in, value_at};
use crate::event::{AnswerKind, EventKind};
use crate::{EventLine, FieldName, LineError};
use curp_cmd::{Answer, RequestId, Value};
use curp_order::Event;
use json::Value as Json;

const BAD_ANSWER: LineError = LineError::BadField {
    name: FieldName::Ans,
};

const BAD_ID: LineError = LineError::BadField {
    name: FieldName::Id,
};

pub(crate) fn event_of(object: &Json<'_>) -> Result<EventLine, LineError>
    ensures { result ≡ event_of (value_data object.now) }
{
    let kind = event_kind_at(object)?;
    let line = values_of(kind, object)?;
    no_other(object, kind.names())?;
    Ok(line)
}

fn event_kind_at(object: &Json<'_>) -> Result<EventKind, LineError>
    ensures { result ≡ text_as event_kind_of FieldName.Ev (value_data object.now) }
{
    let name = FieldName::Ev;
    let text = value_at(object, name).and_then(text_in);
    text.and_then(EventKind::from_text)
        .ok_or(LineError::BadField { name })
}

// What a line of a kind says, by the values of its names, in byte order.
fn values_of(kind: EventKind, object: &Json<'_>) -> Result<EventLine, LineError>
    ensures { result ≡ event_values kind (value_data object.now) }
{
    Ok(match kind {
        EventKind::Invoke => {
            let command = command_at(object)?;
            let id = id_at(object)?;
            EventLine::Event(Event::Invoke { id, command })
        }
        EventKind::Complete => {
            let answer = answer_at(object)?;
            let id = id_at(object)?;
            EventLine::Event(Event::Complete { id, answer })
        }
        EventKind::Place => {
            let command = command_at(object)?;
            let id = id_at(object)?;
            EventLine::Place { id, command }
        }
    })
}

fn id_at(object: &Json<'_>) -> Result<RequestId, LineError>
    ensures { result ≡ id_at (value_data object.now) }
{
    let items = value_at(object, FieldName::Id).and_then(items_in);
    id_of(items.ok_or(BAD_ID)?).ok_or(BAD_ID)
}

fn id_of(items: &[Json<'_>]) -> Option<RequestId>
    ensures { result ≡ id_of (values_data items.now) }
{
    let [client, seq] = items else {
        return None;
    };
    let client = index_in(client)?;
    let seq = index_in(seq)?;
    Some(RequestId { client, seq })
}

fn index_in(value: &Json<'_>) -> Option<u32>
    ensures { result ≡ index_in (value_data value.now) }
{
    match number_in(value)? {
        number @ 0..=0xffff_ffff => Some(number as u32),
        _ => None,
    }
}

fn long_in(value: &Json<'_>) -> Option<u64>
    ensures { result ≡ number_within 0 (2 ^ 64 - 1) (value_data value.now) }
{
    number_in(value)
}

// The answer of a completion. A fault anywhere in it is one of ans.
fn answer_at(object: &Json<'_>) -> Result<Answer, LineError>
    ensures { result ≡ answer_at (value_data object.now) }
{
    let items = value_at(object, FieldName::Ans).and_then(items_in);
    answer_of(items.ok_or(BAD_ANSWER)?)
}

fn answer_of(items: &[Json<'_>]) -> Result<Answer, LineError>
    ensures { result ≡ answer_of (values_data items.now) }
{
    let [word, parts @ ..] = items else {
        return Err(BAD_ANSWER);
    };
    let kind = text_in(word).and_then(AnswerKind::from_text);
    let kind = kind.ok_or(BAD_ANSWER)?;
    match answer_by(kind, parts) {
        Some(answer) => Ok(answer),
        None => Err(BAD_ANSWER),
    }
}

fn answer_by(kind: AnswerKind, parts: &[Json<'_>]) -> Option<Answer>
    ensures { result ≡ answer_by kind (values_data parts.now) }
{
    match kind {
        AnswerKind::Done => alone(parts, Answer::Done),
        AnswerKind::Removed => one_flag(parts).map(Answer::Removed),
        AnswerKind::Number => one_long(parts).map(Answer::Number),
        AnswerKind::Length => one_index(parts).map(Answer::Length),
        AnswerKind::Swapped => one_flag(parts).map(Answer::Swapped),
        AnswerKind::NotNumber => alone(parts, Answer::NotNumber),
        AnswerKind::Overflow => alone(parts, Answer::Overflow),
        AnswerKind::TooLong => alone(parts, Answer::TooLong),
        AnswerKind::Found => one_value(parts).map(Answer::Found),
    }
}

// The answer, if nothing stands behind its word.
fn alone(parts: &[Json<'_>], answer: Answer) -> Option<Answer>
    ensures { result ≡ alone answer (values_data parts.now) }
{
    match parts {
        [] => Some(answer),
        _ => None,
    }
}

fn one_flag(parts: &[Json<'_>]) -> Option<bool>
    ensures { result ≡ one_part as_bool (values_data parts.now) }
{
    match parts {
        [flag] => flag_in(flag),
        _ => None,
    }
}

fn one_long(parts: &[Json<'_>]) -> Option<u64>
    ensures { result ≡ one_part (number_within 0 (2 ^ 64 - 1)) (values_data parts.now) }
{
    match parts {
        [number] => long_in(number),
        _ => None,
    }
}

fn one_index(parts: &[Json<'_>]) -> Option<u32>
    ensures { result ≡ one_part index_in (values_data parts.now) }
{
    match parts {
        [number] => index_in(number),
        _ => None,
    }
}

// The value that was found, or null where the key was absent.
fn one_value(parts: &[Json<'_>]) -> Option<Option<Value>>
    ensures { result ≡ one_part expected_in (values_data parts.now) }
{
    match parts {
        [value] => expected_of(value),
        _ => None,
    }
}

ghost use Rattle.std.specs.Prelude.{◌≡◌, [], ◌∷◌, map, IfOk, Ok, OnOk};
ghost use Rattle.serde_json.specs.View.{view};
ghost use Rattle.serde_json.specs.Written.{compact_text};
ghost use Rattle.curp_order.specs.declared.Event.TheVariants as event;
ghost use Rattle.curp_script.specs.Events.{event_in};
ghost use Rattle.curp_script.specs.EventTexts.{AnswerReadsBack, EventReadsBack, answer_data, answer_parts, answer_word, event_data, id_data, kind_data};

use crate::command::{command_json, push_expected, push_part, push_word};
use crate::line::{object, text};
use curp_base::NoMemory;
use curp_cmd::{Answer, Command, RequestId};
use curp_order::Event;
use curp_script::{EventKind, EventLine};
use serde_json::Value as Json;
use std::alloc::Global;

/// The line that says this, without a line feed.
pub fn print_event(alloc: Global, line: &EventLine) -> Result<Vec<u8>, NoMemory>
    ensures text { IfOk result (λ printed. printed.items ≡ compact_text (event_data line.now)) }
    ensures reads_back { IfOk result (λ printed. event_in printed.items ≡ Ok line.now) }
{
    event_json(alloc, line)?.to_vec(alloc)
}

fn event_json(alloc: Global, line: &EventLine) -> Result<Json, NoMemory>
    ensures data { IfOk result (λ json. view json ≡ event_data line.now) }
    ensures reads { OnOk result (EventReadsBack line.now) }
{
    match line {
        EventLine::Event(Event::Invoke { id, command }) => invoke_json(alloc, *id, command),
        EventLine::Event(Event::Complete { id, answer }) => complete_json(alloc, *id, answer),
        EventLine::Place { id, command } => place_json(alloc, *id, command),
    }
}

fn invoke_json(alloc: Global, id: RequestId, command: &Command) -> Result<Json, NoMemory>
    ensures data { IfOk result (λ json.
        view json ≡ event_data (EventLine.Event (event.Invoke id command.now))) }
    ensures reads { OnOk result (EventReadsBack (EventLine.Event (event.Invoke id command.now))) }
{
    kind_json(alloc, EventKind::Invoke, command_json(alloc, command)?, id)
}

fn complete_json(alloc: Global, id: RequestId, answer: &Answer) -> Result<Json, NoMemory>
    ensures data { IfOk result (λ json.
        view json ≡ event_data (EventLine.Event (event.Complete id answer.now))) }
    ensures reads { OnOk result (EventReadsBack (EventLine.Event (event.Complete id answer.now))) }
{
    kind_json(alloc, EventKind::Complete, answer_json(alloc, answer)?, id)
}

fn place_json(alloc: Global, id: RequestId, command: &Command) -> Result<Json, NoMemory>
    ensures data { IfOk result (λ json. view json ≡ event_data (EventLine.Place id command.now)) }
    ensures reads { OnOk result (EventReadsBack (EventLine.Place id command.now)) }
{
    kind_json(alloc, EventKind::Place, command_json(alloc, command)?, id)
}

// A line of a kind: its text under ev, then what it says, and the request's number.
fn kind_json(alloc: Global, kind: EventKind, said: Json, id: RequestId) -> Result<Json, NoMemory>
    ensures { IfOk result (λ json. view json ≡ kind_data kind (view said) id) }
{
    let id = id_json(alloc, id)?;
    let values = vec![in alloc; text(alloc, kind.as_str())?, said, id]?;
    object(alloc, kind.names(), values)
}

fn id_json(alloc: Global, id: RequestId) -> Result<Json, NoMemory>
    ensures { IfOk result (λ json. view json ≡ id_data id) }
{
    let numbers = vec![in alloc; Json::from(id.client), Json::from(id.seq)]?;
    Ok(Json::Array(numbers))
}

fn answer_json(alloc: Global, answer: &Answer) -> Result<Json, NoMemory>
    ensures data { IfOk result (λ json. view json ≡ answer_data answer.now) }
    ensures reads { OnOk result (AnswerReadsBack answer.now) }
{
    let mut parts = Vec::new(alloc);
    push_answer(&mut parts, alloc, answer)?;
    Ok(Json::Array(parts))
}

fn push_answer(parts: &mut Vec<Json>, alloc: Global, answer: &Answer) -> Result<(), NoMemory>
    requires { parts.old.items ≡ [] }
    ensures data { OnOk result (map view parts.new.items ≡ answer_parts answer.now) }
    ensures reads { OnOk result (AnswerReadsBack answer.now) }
{
    push_word(parts, alloc, answer_word(answer))?;
    match answer {
        Answer::Done | Answer::NotNumber | Answer::Overflow | Answer::TooLong => Ok(()),
        Answer::Removed(was) | Answer::Swapped(was) => push_part(parts, Json::from(*was)),
        Answer::Number(number) => push_part(parts, Json::from(*number)),
        Answer::Length(length) => push_part(parts, Json::from(*length)),
        Answer::Found(value) => push_expected(parts, alloc, value),
    }
}

fn answer_word(answer: &Answer) -> &'static str
    ensures { result.now ≡ answer_word answer.now }
{
    match answer {
        Answer::Done => "done",
        Answer::Removed(_) => "removed",
        Answer::Number(_) => "number",
        Answer::Length(_) => "length",
        Answer::Swapped(_) => "swapped",
        Answer::NotNumber => "not-number",
        Answer::Overflow => "overflow",
        Answer::TooLong => "too-long",
        Answer::Found(_) => "found",
    }
}

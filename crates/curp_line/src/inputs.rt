//! What an input tells of the marks that come of it, and a completion that flags one.
ghost use Rattle.std.specs.Prelude.{◌≡◌, IfOk};
ghost use Rattle.curp_model.specs.World.{with_completion};
ghost use Rattle.curp_msg.specs.Input.{input_of};
ghost use Rattle.curp_line.specs.Due as spec;

use crate::line::Line;
use curp_base::{NoMemory, Shared};
use curp_cmd::Request;
use curp_msg::{Body, Completed, GcAnswer, Input};

/// The read that an input asks a master to answer at once. It is shared.
pub fn glanced(input: Input) -> Result<Option<Shared<Request>>, NoMemory>
    ensures { IfOk result (λ read. read ≡ spec.glanced (input_of input.entry)) }
{
    match input {
        Input::Message(message) => glanced_in(&message.body),
        Input::Local(_) => Ok(None),
    }
}

fn glanced_in(body: &Body) -> Result<Option<Shared<Request>>, NoMemory>
    ensures { IfOk result (λ read. read ≡ spec.glanced_in body.now) }
{
    match body {
        Body::Glance(ask) => Ok(Some(ask.request.share()?)),
        _ => Ok(None),
    }
}

/// So many marks come of an input to a master at most.
pub fn most_marks(input: Input) -> u64
    ensures { result ≡ spec.most_marks (input_of input.entry) }
{
    match input {
        Input::Message(message) => most_by_message(&message.body),
        Input::Local(_) => 0,
    }
}

fn most_by_message(body: &Body) -> u64
    ensures { result ≡ spec.most_by_message body.now }
{
    match body {
        Body::Update(_) | Body::Sync(_) | Body::Read(_) | Body::Glance(_) => 1,
        Body::TakeOut(_) | Body::GiveIn(_) | Body::ExpireClient { .. } => 1,
        Body::Collected(collected) => match &collected.answer {
            GcAnswer::Suspects(requests) => requests.len() as u64,
            _ => 0,
        },
        _ => 0,
    }
}

/// A completion flags its mark. It takes no memory.
pub fn flag(marks: &mut Line, completed: Option<Completed>)
    ensures { marks.new.marks ≡ with_completion completed marks.old.marks }
{
    if let Some(completed) = completed {
        marks.completed(&completed);
    }
}

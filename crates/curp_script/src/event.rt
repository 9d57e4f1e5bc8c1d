// The lines of a history and of an order, the kinds of them, and the kinds of answers: what reading and printing share.
ghost use Rattle.std.specs.Prelude.{◌≡◌};
ghost use Rattle.curp_script.specs.EventKinds.{event_kind_of, event_kind_text, event_names, answer_kind_of};

use crate::FieldName;
use curp_cmd::{Command, RequestId};
use curp_order::Event;

/// What a line says of a history, or of an order that is claimed for it.
#[derive(Clone, Copy)]
pub enum EventLine {
    /// The next event of the history.
    Event(Event),
    /// The next request of the order.
    Place { id: RequestId, command: Command },
}

/// The kinds of line.
#[derive(Clone, Copy)]
pub enum EventKind {
    Invoke,
    Complete,
    Place,
}

impl EventKind {
    pub(crate) fn from_text(text: &str) -> Option<EventKind>
        ensures { result ≡ event_kind_of text.now }
    {
        match text {
            "invoke" => Some(EventKind::Invoke),
            "complete" => Some(EventKind::Complete),
            "place" => Some(EventKind::Place),
            _ => None,
        }
    }

    /// What a line of this kind has under ev.
    pub fn as_str(self) -> &'static str
        ensures { result.now ≡ event_kind_text self }
    {
        match self {
            EventKind::Invoke => "invoke",
            EventKind::Complete => "complete",
            EventKind::Place => "place",
        }
    }

    /// The names in a line of this kind: ev, and the others in byte order.
    pub fn names(self) -> &'static [FieldName]
        ensures { result.now ≡ event_names self }
    {
        match self {
            EventKind::Invoke | EventKind::Place => {
                &[FieldName::Ev, FieldName::Cmd, FieldName::Id]
            }
            EventKind::Complete => &[FieldName::Ev, FieldName::Ans, FieldName::Id],
        }
    }
}

// The words that answers begin with.
#[derive(Clone, Copy)]
pub(crate) enum AnswerKind {
    Done,
    Removed,
    Number,
    Length,
    Swapped,
    NotNumber,
    Overflow,
    TooLong,
    Found,
}

impl AnswerKind {
    pub(crate) fn from_text(text: &str) -> Option<AnswerKind>
        ensures { result ≡ answer_kind_of text.now }
    {
        match text {
            "done" => Some(AnswerKind::Done),
            "removed" => Some(AnswerKind::Removed),
            "number" => Some(AnswerKind::Number),
            "length" => Some(AnswerKind::Length),
            "swapped" => Some(AnswerKind::Swapped),
            "not-number" => Some(AnswerKind::NotNumber),
            "overflow" => Some(AnswerKind::Overflow),
            "too-long" => Some(AnswerKind::TooLong),
            "found" => Some(AnswerKind::Found),
            _ => None,
        }
    }
}

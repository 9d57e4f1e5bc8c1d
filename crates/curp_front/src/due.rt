ghost use Rattle.std.specs.Prelude.{◌≡◌};
ghost use Rattle.curp_front.specs.Conversation.{completed_due, due_said, is_given};
ghost use Rattle.curp_front.specs.Replies.{refusal_text};

use crate::connection::Said;
use curp_cmd::{Answer, RequestId};

/// Why the client node didn't invoke a command.
#[derive(Clone, Copy, Debug, PartialEq, Eq)]
pub enum InvokeRefusal {
    /// No one partition owns all keys of the command.
    Split,
    /// The client invokes nothing any more: its numbers are at their end, or the stamps of its journal.
    Spent,
}

/// A reply that is due to a command.
#[derive(Clone, Copy)]
pub enum DueReply {
    /// The command was given, to be invoked.
    Given,
    /// It was invoked under this number, and isn't completed.
    Pending(RequestId),
    /// It was completed with this answer.
    Answered(Answer),
    /// It was not invoked.
    Refused(InvokeRefusal),
}

impl DueReply {
    /// Whether its command was given and nothing has come of it so far.
    pub(crate) fn is_given(&self) -> bool
        ensures { result ≡ is_given self.now }
    {
        matches!(self, DueReply::Given)
    }

    /// The reply, once it is there.
    pub(crate) fn said(&self) -> Option<Said>
        ensures { result ≡ due_said self.now }
    {
        match self {
            DueReply::Given | DueReply::Pending(_) => None,
            DueReply::Answered(answer) => Some(Said::Answer(*answer)),
            DueReply::Refused(why) => Some(Said::Refused(*why)),
        }
    }

    /// A request was completed.
    pub(crate) fn complete(&mut self, id: &RequestId, answer: &Answer)
        ensures { self.new ≡ completed_due id.now answer.now self.old }
    {
        if let DueReply::Pending(own) = self {
            if *own == *id {
                *self = DueReply::Answered(*answer);
            }
        }
    }
}

impl InvokeRefusal {
    /// The error that is replied.
    pub(crate) fn text(self) -> &'static [u8]
        ensures { result.now ≡ refusal_text self }
    {
        match self {
            InvokeRefusal::Split => b"-ERR keys of several partitions\r\n",
            InvokeRefusal::Spent => b"-ERR no more requests\r\n",
        }
    }
}

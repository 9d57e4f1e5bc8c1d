//! What masters, witnesses and backups answer.
use crate::Same;
use curp_msg::{AppendAnswer, FenceReply, GcAnswer, Reason, Refusal};

impl Same for Refusal {
    fn same(&self, other: &Refusal) -> bool {
        *self == *other
    }
}

impl Same for Reason {
    fn same(&self, other: &Reason) -> bool {
        match self {
            Reason::Conflict { held } =>
                matches!(other, Reason::Conflict { held: theirs } if held.same(theirs)),
            Reason::SetFull { set } =>
                matches!(other, Reason::SetFull { set: theirs } if set.same(theirs)),
            Reason::Frozen => matches!(other, Reason::Frozen),
            Reason::Stranger { epoch } =>
                matches!(other, Reason::Stranger { epoch: theirs } if epoch.same(theirs)),
            Reason::Idle => matches!(other, Reason::Idle),
        }
    }
}

impl Same for AppendAnswer {
    fn same(&self, other: &AppendAnswer) -> bool {
        *self == *other
    }
}

impl Same for GcAnswer {
    fn same(&self, other: &GcAnswer) -> bool {
        match self {
            GcAnswer::Suspects(requests) => {
                matches!(other, GcAnswer::Suspects(theirs) if requests.same(theirs))
            }
            GcAnswer::Stranger { epoch } => {
                matches!(other, GcAnswer::Stranger { epoch: theirs } if epoch.same(theirs))
            }
        }
    }
}

impl Same for FenceReply {
    fn same(&self, other: &FenceReply) -> bool {
        match self {
            FenceReply::Log(entries) =>
                matches!(other, FenceReply::Log(theirs) if entries.same(theirs)),
            FenceReply::Fenced { epoch } => {
                matches!(other, FenceReply::Fenced { epoch: theirs } if epoch.same(theirs))
            }
        }
    }
}

ghost use Rattle.std.specs.Prelude.{◌≡◌};
ghost use Rattle.curp_parcels.specs.Outgoing.{is_capture};

use curp_cmd::RequestId;
use curp_items::is_node;
use curp_msg::{Capture, Completed, Message};

/// What the process of a node says. Items and inputs are counted from 1.
pub enum Outgoing {
    /// Where its journal stood when it was opened: how many items it had, and the stamp of the last, 0 if there was none.
    Stands {
        items: u64,
        last: u64,
    },
    /// A message goes out. Its name: the number of the item that sent it, the place among the messages of that item, and
    /// the item's stamp.
    Sent {
        step: u64,
        place: u64,
        stamp: u64,
        message: Message,
    },
    /// A request completed, by the item of this stamp.
    Completed {
        stamp: u64,
        completed: Completed,
    },
    /// The input of this number was refused: by this number of the node, by 255 where no stamp is left, or by 254 where
    /// the node isn't given it, since it may not take it.
    Refused {
        input: u64,
        number: u8,
    },
    /// The input of this number is nothing that may come to a node. Its first byte has this place among those that were
    /// read, from 0.
    NoParcel {
        input: u64,
        at: u64,
    },
    /// What the item of this number and stamp has at this place has no encoding: a message that has no frame, or none that
    /// a parcel has room for, or, at place 0, a completion by a node that there can't be.
    Withheld {
        step: u64,
        place: u64,
        stamp: u64,
    },
    /// The request of this id was invoked, and hasn't completed. Only the start of a process says so, of all that its
    /// journal has.
    Pending {
        id: RequestId,
    },
}

impl Drop for Outgoing {
    fn drop(self) {
        match self {
            Outgoing::Stands { items: _, last: _ } => {}
            Outgoing::Sent {
                step: _,
                place: _,
                stamp: _,
                message: _,
            } => {}
            Outgoing::Completed {
                stamp: _,
                completed: _,
            } => {}
            Outgoing::Refused {
                input: _,
                number: _,
            } => {}
            Outgoing::NoParcel { input: _, at: _ } => {}
            Outgoing::Withheld {
                step: _,
                place: _,
                stamp: _,
            } => {}
            Outgoing::Pending { id: _ } => {}
        }
    }
}

/// Whether a completion's capture, if it has one, is that of a node that there may be.
pub(crate) fn is_capture(by: &Option<Capture>) -> bool
    ensures { result ≡ is_capture by.now }
{
    match by {
        None => true,
        Some(capture) => is_node(&capture.master),
    }
}

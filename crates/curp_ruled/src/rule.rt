//! The rule of an inbox, over what stands in it and what each pass knows, and the steps by which it changes.
use crate::Envelope;
use crossbeam_channel::protocol::{Join, Lesson, Outcome, Protocol, Split};
use std::collections::LinkedList;

/// What a pass knows. No value of it is made.
pub struct Hand {
    /// Whether it may send, as the sender of that number, and what it sent.
    pub sends: bool,
    pub number: u32,
    pub sent: LinkedList<Envelope>,
    /// Whether it may take, how many senders were split from it, what it took, and what the senders that were joined into
    /// it had sent.
    pub takes: bool,
    pub made: u32,
    pub taken: LinkedList<Envelope>,
    pub left: LinkedList<LinkedList<Envelope>>,
}

/// The rule.
pub struct InOrder;

impl Protocol<Envelope, Hand> for InOrder {
    ghost use Rattle.curp_ruled.specs.Rule.{DeliversEnvelopes, taker};

    ghost holds = { DeliversEnvelopes };

    ghost first = { taker };
}

pub(crate) struct Sending;

impl Outcome<Envelope, Hand> for Sending {
    ghost use Rattle.std.specs.Prelude.{◌≡◌};
    ghost use Rattle.curp_ruled.specs.Rule.{after_send};

    ghost then = { λ before envelope after. after ≡ after_send before envelope };
}

impl Lesson<Envelope, Hand> for Sending {
    ghost use Rattle.std.specs.Prelude.{⊤};

    ghost fact = { λ hand items. ⊤ };
}

pub(crate) struct Taking;

impl Outcome<Envelope, Hand> for Taking {
    ghost use Rattle.std.specs.Prelude.{◌≡◌};
    ghost use Rattle.curp_ruled.specs.Rule.{after_take};

    ghost then = { λ before envelope after. after ≡ after_take before envelope };
}

impl Lesson<Envelope, Hand> for Taking {
    ghost use Rattle.std.specs.Prelude.{⊤};

    ghost fact = { λ hand items. ⊤ };
}

/// A sender is split off the pass that takes, and joined into it at the end.
pub(crate) struct Seating;

impl Split<Hand> for Seating {
    ghost use Rattle.curp_ruled.specs.Rule.{after_seat, sender_of};

    ghost left = { after_seat };

    ghost right = { λ hand. sender_of hand.made };
}

impl Join<Hand> for Seating {
    ghost use Rattle.curp_ruled.specs.Rule.{after_leave, spent};

    ghost both = { after_leave };

    ghost spent = { spent };
}

pub(crate) struct Closing;

impl Lesson<Envelope, Hand> for Closing {
    ghost use Rattle.curp_ruled.specs.Rule.{AreDelivered};

    ghost fact = { λ hand items. AreDelivered hand };
}

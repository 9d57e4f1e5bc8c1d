use crate::Envelope;
use crate::rule::{Hand, InOrder};
use crossbeam_channel::{Pass, RuledReceiver, RuledSender};
use curp_cmd::NodeId;
use std::marker::Model;

/// The end of an inbox through which one sender fills it. Contracts see the inbox, its node, the sender's number, and
/// what was sent.
#[derive(Drop)]
pub struct Post {
    pub(crate) sender: RuledSender<Envelope, Hand, InOrder>,
    pub(crate) pass: Pass<Envelope, Hand>,
    pub(crate) to: NodeId,
    pub(crate) number: u32,
}

impl Model for Post {
    ghost use Rattle.std.specs.Prelude.{◌≡◌, true};
    ghost use Rattle.crossbeam_channel.specs.Claims.{view as known, IsSeatAt};
    ghost use Rattle.crossbeam_channel.specs.Ends.{sends_on};
    ghost use Rattle.curp_ruled.specs.Ends.{Posted};

    ghost Value = { Posted };

    ghost view = { λ post. record {
      inbox = sends_on post.sender;
      to = post.to;
      number = post.number;
      sent = (known post.pass).sent;
    } };

    ghost invariant = { λ post. IsSeatAt (sends_on post.sender) post.pass
        × ((known post.pass).sends ≡ true) × ((known post.pass).number ≡ post.number) };
}

/// The end from which an inbox is emptied. Contracts see the inbox, its node, how many posts it was made with, and what
/// was taken.
#[derive(Drop)]
pub struct Take {
    pub(crate) receiver: RuledReceiver<Envelope, Hand, InOrder>,
    /// The passes of posts are joined through it; and while it is there, a receive never finds that all senders are gone.
    pub(crate) sender: RuledSender<Envelope, Hand, InOrder>,
    pub(crate) pass: Pass<Envelope, Hand>,
    pub(crate) to: NodeId,
    pub(crate) posts: u32,
}

impl Model for Take {
    ghost use Rattle.std.specs.Prelude.{◌≡◌, true, []};
    ghost use Rattle.crossbeam_channel.specs.Claims.{view as known, IsSeatAt};
    ghost use Rattle.crossbeam_channel.specs.Ends.{sends_on, receives_on};
    ghost use Rattle.curp_ruled.specs.Ends.{Received};

    ghost Value = { Received };

    ghost view = { λ take. record {
      inbox = receives_on take.receiver;
      to = take.to;
      posts = take.posts;
      taken = (known take.pass).taken;
    } };

    ghost invariant = { λ take. IsSeatAt (receives_on take.receiver) take.pass × (sends_on take.sender ≡ receives_on take.receiver)
        × ((known take.pass).takes ≡ true) × ((known take.pass).left ≡ []) × ((known take.pass).made ≡ take.posts) };
}

/// An inbox after its end. Contracts see what each post sent, and what was taken.
#[derive(Drop)]
pub struct Closed {
    pub(crate) pass: Pass<Envelope, Hand>,
}

impl Model for Closed {
    ghost use Rattle.crossbeam_channel.specs.Claims.{view as known};
    ghost use Rattle.curp_ruled.specs.Ends.{Sums};
    ghost use Rattle.curp_ruled.specs.Rule.{AreDelivered};

    ghost Value = { Sums };

    ghost view = { λ closed. record { sent = (known closed.pass).left; taken = (known closed.pass).taken } };

    ghost invariant = { λ closed. AreDelivered (known closed.pass) };
}

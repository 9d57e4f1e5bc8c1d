ghost use Rattle.std.specs.Prelude.{◌≡◌, true, [], ◌∷◌, ◌++◌};
ghost use Rattle.crossbeam_channel.specs.Claims.{view, IsSeatAt};
ghost use Rattle.crossbeam_channel.specs.Ends.{sends_on, receives_on};
ghost use Rattle.curp_ruled.specs.Rule.{after_send, after_take};

use crate::rule::{Hand, InOrder, Sending, Taking};
use crate::{Envelope, Post, Take};
use crossbeam_channel::{Pass, RuledReceiver, RuledSender, SendError};
use curp_cmd::NodeId;
use std::sync::Wait;

impl Post {
    /// The number of its sender, which each envelope through it bears.
    pub fn number(&self) -> u32
        ensures { result ≡ self.now.number }
    {
        self.number
    }

    /// The node that the inbox is of.
    pub fn to(&self) -> NodeId
        ensures { result ≡ self.now.to }
    {
        self.to
    }

    /// Puts an envelope into the inbox. It waits for room, and returns only when the envelope stands there.
    pub fn send<R: Wait>(&mut self, rt: &R, envelope: Envelope)
        requires { envelope.sender ≡ self.old.number }
        ensures { self.new ≡ record self.old { sent = self.old.sent ++ envelope ∷ [] } }
    {
        put(rt, &self.sender, &mut self.pass, envelope);
    }
}

impl Take {
    /// The node that the inbox is of.
    pub fn to(&self) -> NodeId
        ensures { result ≡ self.now.to }
    {
        self.to
    }

    /// How many posts the inbox was made with.
    pub fn posts(&self) -> u32
        ensures { result ≡ self.now.posts }
    {
        self.posts
    }

    /// Takes the oldest envelope. It waits for one, and returns only with one that it took.
    pub fn receive<R: Wait>(&mut self, rt: &R) -> Envelope
        ensures { self.new ≡ record self.old { taken = self.old.taken ++ result ∷ [] } }
    {
        take(rt, &self.receiver, &mut self.pass)
    }
}

/// Sends until the envelope stands in the queue: where the channel hands it back, it is sent again.
fn put<R: Wait>(
    rt: &R,
    sender: &RuledSender<Envelope, Hand, InOrder>,
    pass: &mut Pass<Envelope, Hand>,
    envelope: Envelope,
)
    requires seated { IsSeatAt (sends_on sender.now) pass.old }
    requires sends { (view pass.old).sends ≡ true }
    requires own { envelope.sender ≡ (view pass.old).number }
    ensures seated { IsSeatAt (sends_on sender.now) pass.new }
    ensures sent { view pass.new ≡ after_send (view pass.old) envelope }
{
    let mut envelope = envelope;
    for _ in rt.forever() {
        match sender.send_as::<Sending, R>(rt, pass, envelope) {
            Ok(()) => return,
            Err(SendError::Disconnected(back)) => envelope = back,
            Err(SendError::OutOfMemory(back)) => envelope = back,
        }
    }
    unreachable!()
}

/// Receives until an envelope was taken.
fn take<R: Wait>(
    rt: &R,
    receiver: &RuledReceiver<Envelope, Hand, InOrder>,
    pass: &mut Pass<Envelope, Hand>,
) -> Envelope
    requires seated { IsSeatAt (receives_on receiver.now) pass.old }
    requires takes { (view pass.old).takes ≡ true }
    ensures seated { IsSeatAt (receives_on receiver.now) pass.new }
    ensures taken { view pass.new ≡ after_take (view pass.old) result }
{
    for _ in rt.forever() {
        if let Ok(envelope) = receiver.recv_as::<Taking, R>(rt, pass) {
            return envelope;
        }
    }
    unreachable!()
}

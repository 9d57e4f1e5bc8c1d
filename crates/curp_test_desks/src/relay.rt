ghost use Rattle.std.specs.Prelude.{◌≡◌, false, IfOk};
ghost use Rattle.curp_msg.specs.Moved.{says};
ghost use Rattle.curp_msg.specs.declared.body.Body.TheVariants as body;
ghost use Rattle.curp_test_desks.specs.Relay.{both};

use curp_base::NoMemory;
use curp_cmd::NodeId;
use curp_msg::{Body, Core, Done, Local, Message};
use curp_seat::Kept;
use std::alloc::Global;
use std::marker::Model;

// A node that passes each message on to two others, so often as it says.
#[derive(Drop)]
pub(crate) struct Relay {
    alloc: Global,
    id: NodeId,
    one: NodeId,
    other: NodeId,
}

impl Model for Relay {
    ghost use Rattle.curp_test_desks.specs.Relay.{RelayState};

    ghost Value = { RelayState };

    ghost view = { λ r. record { id = r.id; one = r.one; other = r.other } };
}

impl Core for Relay {
    ghost use Rattle.curp_test_desks.specs.Relay.{relay, relay_refuses, relay_takes};

    ghost machine = { relay };

    ghost refusals = { relay_refuses };

    ghost messages_taken = { relay_takes };

    #[tactic(auto, unfolding(crate::specs::Relay::relay))]
    fn on_message(&mut self, message: &Message) -> Result<Done, NoMemory> {
        match &message.body {
            Body::Given { migration } => Ok(Done::sends(self.both(*migration)?)),
            _ => Ok(Done::quiet(self.alloc)),
        }
    }

    #[tactic(auto, unfolding(crate::specs::Relay::relay))]
    fn on_order(&mut self, order: &Local) -> Result<Done, NoMemory> {
        match order {
            Local::Retry(left) => Ok(Done::sends(self.both(*left)?)),
            _ => Ok(Done::refuses(self.alloc, 1)),
        }
    }
}

impl Relay {
    fn both(&self, left: u32) -> Result<Vec<Message>, NoMemory>
        ensures { IfOk result (λ messages. messages.items ≡ both self.now left) }
    {
        let mut messages = Vec::new(self.alloc);
        if left > 0 {
            messages.push(self.message(self.one, left - 1))?;
            messages.push(self.message(self.other, left - 1))?;
        }
        Ok(messages)
    }

    fn message(&self, to: NodeId, left: u32) -> Message
        ensures { result ≡ says self.now.id to (body.Given left) }
    {
        Message {
            from: self.id,
            to,
            body: Body::Given { migration: left },
        }
    }
}

// A relay among clients.
pub(crate) fn begun(alloc: Global, id: u32, one: u32, other: u32) -> Kept<Relay>
    ensures running { result.ended ≡ false }
{
    let id = NodeId::client(id);
    let relay = Relay {
        alloc,
        id,
        one: NodeId::client(one),
        other: NodeId::client(other),
    };
    Kept::begin(alloc, relay, id)
}

// A node, and calls over any node.
ghost use Rattle.std.specs.Prelude.{◌≡◌, ◌≢◌, ◌<◌, [], None, OnOk, IfOk, length, map};
ghost use Rattle.curp_msg.specs.Example.{fetch_message};
ghost use Rattle.curp_msg.specs.Moved.{MovesAt};
ghost use Rattle.curp_msg.specs.Input as input;
ghost use Rattle.curp_test_messages.specs.Runs.{state_after};

use curp_base::{Items, NoMemory};
use curp_cmd::{NodeId, NodeKind};
use curp_msg::{Body, Core, Done, Input, Local, Message};
use std::alloc::Global;
use std::marker::Model;

// A client that asks for the configuration and keeps its serial.
#[derive(Drop)]
pub(crate) struct Asker {
    alloc: Global,
    serial: u32,
}

impl Model for Asker {
    ghost use Rattle.std.specs.Prelude.{ℕ};

    ghost Value = { ℕ };

    ghost view = { λ a. a.serial };
}

impl Asker {
    pub(crate) fn new(alloc: Global) -> Asker
        ensures { result ≡ 0 }
    {
        Asker { alloc, serial: 0 }
    }

    pub(crate) fn serial(&self) -> u32
        ensures { result ≡ self.now }
    {
        self.serial
    }
}

impl Core for Asker {
    ghost use Rattle.curp_msg.specs.Example.{asker, asker_refuses, asker_takes};

    ghost machine = { asker };

    ghost refusals = { asker_refuses };

    ghost messages_taken = { asker_takes };

    #[tactic(auto, unfolding(curp_msg::specs::Example::asker))]
    fn on_message(&mut self, message: &Message) -> Result<Done, NoMemory> {
        if let Body::Configuration { config } = &message.body {
            self.serial = self.serial.max(config.serial);
        }
        Ok(done(0, Vec::new(self.alloc)))
    }

    #[tactic(auto, unfolding(curp_msg::specs::Example::asker))]
    fn on_order(&mut self, order: &Local) -> Result<Done, NoMemory> {
        let mut sent = Vec::new(self.alloc);
        match order {
            Local::Fetch => {
                sent.push(fetch_message())?;
                Ok(done(0, sent))
            }
            _ => Ok(done(1, sent)),
        }
    }
}

fn done(refused: u8, sent: Vec<Message>) -> Done
    ensures { result ≡ record { refused = refused; sent = sent.items; invoked = None; completed = None } }
{
    Done {
        refused,
        sent: Items::new(sent),
        invoked: None,
        completed: None,
    }
}

fn fetch_message() -> Message
    ensures { result ≡ fetch_message }
{
    Message {
        from: NodeId {
            kind: NodeKind::Client,
            number: 1,
        },
        to: NodeId {
            kind: NodeKind::Manager,
            number: 0,
        },
        body: Body::Fetch,
    }
}

// Gives any node messages, one after the other.
pub(crate) fn give_all<N: Core>(node: &mut N, messages: &[Message]) -> Result<(), NoMemory>
    ensures { OnOk result (node.new ≡ state_after N.machine node.old (map input.Message messages.now)) }
{
    for message in messages {
        node.on(Input::Message(message))?;
    }
    Ok(())
}

// Gives any node an order. Where it refuses, nothing has changed and nothing is sent.
pub(crate) fn order<N: Core>(node: &mut N, order: &Local) -> Result<Done, NoMemory>
    ensures state { IfOk result (λ done. done.refused ≢ 0 → node.new ≡ node.old) }
    ensures sent { IfOk result (λ done. done.refused ≢ 0 → done.sent ≡ []) }
{
    node.on_order(order)
}

// Gives the node at a place a message, and leaves the others alone.
pub(crate) fn give<N: Core>(
    nodes: &mut [N],
    place: usize,
    message: &Message,
) -> Result<Done, NoMemory>
    requires { place < length nodes.old }
    ensures { MovesAt place nodes.old nodes.new result (λ node. N.machine node (input.Message message.now)) }
{
    nodes[place].on_message(message)
}

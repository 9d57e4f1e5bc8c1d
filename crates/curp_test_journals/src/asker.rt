// A client that asks for the configuration, and keeps the greatest serial.
ghost use Rattle.std.specs.Prelude.{◌≡◌, false};

use curp_base::NoMemory;
use curp_cmd::NodeId;
use curp_journal::Arrived;
use curp_msg::{Body, Core, Done, Local, Message};
use curp_seat::Kept;
use std::alloc::Global;
use std::marker::Model;

#[derive(Drop)]
pub(crate) struct Asker {
    alloc: Global,
    serial: u32,
}

impl Model for Asker {
    ghost use Rattle.std.specs.Prelude.{ℕ};

    ghost Value = { ℕ };

    ghost view = { λ a. a.serial };
}

impl Core for Asker {
    ghost use Rattle.curp_msg.specs.Example.{asker, asker_refuses, asker_takes};

    ghost machine = { asker };

    ghost refusals = { asker_refuses };

    ghost messages_taken = { asker_takes };

    #[tactic(auto, unfolding(curp_msg::specs::Example::asker))]
    fn on_message(&mut self, message: &Message) -> Result<Done, NoMemory> {
        if let Body::Configuration { config } = &message.body {
            self.serial = self.serial.max(config.serial);
        }
        Ok(Done::quiet(self.alloc))
    }

    #[tactic(auto, unfolding(curp_msg::specs::Example::asker))]
    fn on_order(&mut self, order: &Local) -> Result<Done, NoMemory> {
        match order {
            Local::Fetch => {
                let mut sent = Vec::new(self.alloc);
                sent.push(Message {
                    from: NodeId::client(1),
                    to: NodeId::manager(),
                    body: Body::Fetch,
                })?;
                Ok(Done::sends(sent))
            }
            _ => Ok(Done::refuses(self.alloc, 1)),
        }
    }
}

impl Asker {
    pub(crate) fn new(alloc: Global, serial: u32) -> Asker {
        Asker { alloc, serial }
    }
}

pub(crate) fn begun(alloc: Global) -> Kept<Asker>
    ensures running { result.ended ≡ false }
{
    Kept::begin(alloc, Asker::new(alloc, 0), NodeId::client(1))
}

// An order that the client takes.
pub(crate) fn fetch(stamp: u64) -> Arrived {
    Arrived::Local(Local::Fetch, stamp)
}

// An order that it refuses.
pub(crate) fn sync(stamp: u64) -> Arrived {
    Arrived::Local(Local::Sync, stamp)
}

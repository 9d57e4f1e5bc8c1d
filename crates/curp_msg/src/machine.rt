ghost use Rattle.std.specs.Prelude.{◌≡◌, ◌≢◌, [], Some, None, IsOk, IfOk};

use crate::Message;
use curp_base::{Items, NoMemory, Shared};
use curp_cmd::{Answer, Command, Keeper, NodeId, Request, RequestId};
use std::alloc::Global;

/// An order that a node gets from whoever runs it, and not by a message. A node ignores those that aren't its own.
#[derive(PartialEq, Eq)]
pub enum Local {
    /// To a client: invoke the command.
    Invoke(Shared<Command>),
    /// To a client: send the pending request of that number again.
    Retry(u32),
    /// To a client: ask for the configuration.
    Fetch,
    /// To a master: begin a round to the backups.
    Sync,
    /// To a master: let the witnesses drop what is stored.
    Collect,
    /// To the manager: replace a partition's master, from the backup and the witness at these places, counted from 1.
    Recover {
        part: u32,
        backup: u32,
        witness: u32,
    },
    /// To the manager: replace the backup or the witness at a place, counted from 1.
    Replace {
        keeper: Keeper,
        part: u32,
        place: u32,
    },
    /// To the manager: move the hashes from `lo` to `hi`, both counted, to a partition.
    Migrate {
        lo: u64,
        hi: u64,
        to: u32,
    },
    /// To the manager: send again what may have been lost.
    Nudge,
    /// To the manager: the client of that number is gone.
    Expire(u32),
}

impl Drop for Local {
    fn drop(self) {
        match self {
            Local::Invoke(_) => {}
            Local::Retry(_) => {}
            Local::Fetch => {}
            Local::Sync => {}
            Local::Collect => {}
            Local::Recover {
                part: _,
                backup: _,
                witness: _,
            } => {}
            Local::Replace {
                keeper: _,
                part: _,
                place: _,
            } => {}
            Local::Migrate {
                lo: _,
                hi: _,
                to: _,
            } => {}
            Local::Nudge => {}
            Local::Expire(_) => {}
        }
    }
}

impl Local {
    /// The same order once more. It takes no memory, and fails where 2^63 - 1 hold its command.
    pub fn copy(&self) -> Result<Local, NoMemory>
        ensures { IfOk result (λ copy. copy ≡ self.now) }
    {
        Ok(match self {
            Local::Invoke(command) => Local::Invoke(command.share()?),
            Local::Retry(seq) => Local::Retry(*seq),
            Local::Fetch => Local::Fetch,
            Local::Sync => Local::Sync,
            Local::Collect => Local::Collect,
            Local::Recover {
                part,
                backup,
                witness,
            } => Local::Recover {
                part: *part,
                backup: *backup,
                witness: *witness,
            },
            Local::Replace {
                keeper,
                part,
                place,
            } => Local::Replace {
                keeper: *keeper,
                part: *part,
                place: *place,
            },
            Local::Migrate { lo, hi, to } => Local::Migrate {
                lo: *lo,
                hi: *hi,
                to: *to,
            },
            Local::Nudge => Local::Nudge,
            Local::Expire(client) => Local::Expire(*client),
        })
    }
}

/// What a node reacts to: an order, or a message that comes to it.
#[derive(Clone, Copy)]
pub enum Input<'a> {
    Local(&'a Local),
    Message(&'a Message),
}

/// What a node does on an input, apart from its new state.
#[derive(Drop)]
pub struct Done {
    /// The number by which the call behind a local order refused it, else 0.
    pub refused: u8,
    /// The messages that it sends, in their order.
    pub sent: Items<Message>,
    /// The request that it invokes.
    pub invoked: Option<Shared<Request>>,
    /// The request that it completes.
    pub completed: Option<Completed>,
}

impl Done {
    /// The node does nothing that others see. It takes no memory.
    pub fn quiet(alloc: Global) -> Done
        ensures { result ≡ record { refused = 0; sent = []; invoked = None; completed = None } }
    {
        Done::sends(Vec::new(alloc))
    }

    /// It sends these messages. It takes no memory.
    pub fn sends(messages: Vec<Message>) -> Done
        ensures { result ≡ record { refused = 0; sent = messages.items; invoked = None; completed = None } }
    {
        Done {
            refused: 0,
            sent: Items::new(messages),
            invoked: None,
            completed: None,
        }
    }

    /// It invokes a request, which it sends by these messages. It takes no memory.
    pub fn invokes(request: Shared<Request>, messages: Vec<Message>) -> Done
        ensures { result ≡ record { refused = 0; sent = messages.items; invoked = Some request; completed = None } }
    {
        Done {
            refused: 0,
            sent: Items::new(messages),
            invoked: Some(request),
            completed: None,
        }
    }

    /// A request completes. It takes no memory.
    pub fn completes(alloc: Global, completed: Completed) -> Done
        ensures { result ≡ record { refused = 0; sent = []; invoked = None; completed = Some completed } }
    {
        Done {
            refused: 0,
            sent: Items::new(Vec::new(alloc)),
            invoked: None,
            completed: Some(completed),
        }
    }

    /// It refuses an order, by a number. It takes no memory.
    pub fn refuses(alloc: Global, number: u8) -> Done
        ensures { result ≡ record { refused = number; sent = []; invoked = None; completed = None } }
    {
        Done {
            refused: number,
            sent: Items::new(Vec::new(alloc)),
            invoked: None,
            completed: None,
        }
    }
}

/// A request that completed, with its answer.
#[derive(Clone, Copy, Debug, PartialEq, Eq)]
pub struct Completed {
    pub id: RequestId,
    pub answer: Answer,
    /// The capture whose value completed a read. An update has none.
    pub by: Option<Capture>,
}

/// A value that a master captured for a read.
#[derive(Clone, Copy, Debug, PartialEq, Eq)]
pub struct Capture {
    pub master: NodeId,
    pub epoch: u32,
    /// The number of the capture at that master.
    pub number: u64,
}

/// A node: it reacts to one input at a time, and holds no handle and no lock. One input completes at most one request.
pub trait Core {
    ghost use Rattle.curp_msg.specs.Moved.{Moved, Moves, Refuses};
    ghost use Rattle.curp_msg.specs.Input.{Input, input_of};
    ghost use Rattle.curp_msg.specs.Input as input;
    ghost use Rattle.curp_msg.specs.declared.machine.Local.{Local};
    ghost use Rattle.curp_msg.specs.declared.message.Message.{Message};

    /// Which machine the node is: what an input does to a state.
    ghost machine: { Self → Input → Moved Self };

    /// A message comes to the node.
    fn on_message(&mut self, message: &Message) -> Result<Done, NoMemory>
        ensures moves { Moves self.old self.new result (machine self.old (input.Message message.now)) };

    /// The node gets an order. One that it refuses never fails out of memory.
    fn on_order(&mut self, order: &Local) -> Result<Done, NoMemory>
        ensures moves { Moves self.old self.new result (machine self.old (input.Local order.now)) }
        ensures refused { (machine self.old (input.Local order.now)).refused ≢ 0 → IsOk result };

    /// Gives the node an input.
    fn on(&mut self, input: Input) -> Result<Done, NoMemory>
        ensures moves { Moves self.old self.new result (machine self.old (input_of input.entry)) }
        ensures refused { (machine self.old (input_of input.entry)).refused ≢ 0 → IsOk result }
    {
        match input {
            Input::Local(order) => self.on_order(order),
            Input::Message(message) => self.on_message(message),
        }
    }

    /// How it refuses an order.
    ghost refusals: { (s : Self) (order : Local) → Refuses s (machine s (input.Local order)) };

    /// A message is never refused.
    ghost messages_taken: { (s : Self) (message : Message) → (machine s (input.Message message)).refused ≡ 0 };
}

ghost use Rattle.std.specs.Prelude.{◌≡◌, ◌≢◌, ◌↔◌, Some, None, IsTrue, IfOk};

use curp_base::NoMemory;
use curp_journal::Arrived;
use curp_msg::Local;
use curp_seat::Framed;
use std::alloc::Global;
use std::marker::Model;

/// What is in an envelope.
#[derive(Drop)]
enum Load {
    /// Its sender's end.
    End,
    /// An order, with the stamp of whoever gave it.
    Order(Local, u64),
    Message(Framed),
}

/// What a sender puts into an inbox: an input for its node, or the sender's end. Contracts see who sent it and what it
/// carries.
#[derive(Drop)]
pub struct Envelope {
    sender: u32,
    load: Load,
}

impl Model for Envelope {
    ghost use Rattle.curp_ruled.specs.Load.{loaded_input};
    ghost use Rattle.curp_ruled.specs.Envelope.{Letter};

    ghost Value = { Letter };

    ghost view = { λ envelope. record { sender = envelope.sender; carries = loaded_input envelope.load } };
}

impl Envelope {
    /// An envelope of that sender that carries an input. A light message is written as its frame.
    pub fn new(alloc: Global, sender: u32, input: Arrived) -> Result<Envelope, NoMemory>
        ensures { IfOk result (λ envelope. envelope ≡ record { sender = sender; carries = Some input }) }
    {
        let load = match input {
            Arrived::Local(order, stamp) => Load::Order(order, stamp),
            Arrived::Message(named) => Load::Message(Framed::seal(alloc, named)?),
        };
        Ok(Envelope { sender, load })
    }

    /// That sender's end, after which it sends nothing. It takes no memory.
    pub fn end(sender: u32) -> Envelope
        ensures { result ≡ record { sender = sender; carries = None } }
    {
        Envelope {
            sender,
            load: Load::End,
        }
    }

    /// The number of the post that it is for.
    pub fn sender(&self) -> u32
        ensures { result ≡ self.now.sender }
    {
        self.sender
    }

    /// Whether it is its sender's end.
    pub fn is_end(&self) -> bool
        ensures { IsTrue result ↔ (self.now.carries ≡ None) }
    {
        matches!(&self.load, Load::End)
    }

    /// What it carries; a frame is decoded. `is_end` is the test of its condition.
    pub fn open(self, alloc: Global) -> Result<Arrived, NoMemory>
        requires { self.carries ≢ None }
        ensures { IfOk result (λ input. self.carries ≡ Some input) }
    {
        match self.load {
            Load::End => unreachable!(),
            Load::Order(order, stamp) => Ok(Arrived::Local(order, stamp)),
            Load::Message(framed) => Ok(Arrived::Message(framed.open(alloc)?)),
        }
    }
}

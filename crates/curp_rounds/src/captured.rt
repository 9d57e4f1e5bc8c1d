ghost use Rattle.std.specs.Prelude.{◌≡◌, IfOk};
ghost use Rattle.curp_cmd.specs.Node.{client_node, master_node};
ghost use Rattle.curp_msg.specs.Moved.{says};
ghost use Rattle.curp_rounds.specs.Backups.{is_within};

use crate::reach::Reach;
use curp_base::{Boxed, NoMemory, Shared};
use curp_cmd::{Answer, NodeId, Request, RequestId};
use curp_msg::{Body, Message, Worth};
use std::alloc::Global;
use std::marker::Model;

/// A read that waits: its value and the log's length as they were when it came, and the round that was begun for it.
#[derive(Drop)]
pub struct Captured {
    number: u64,
    request: Shared<Request>,
    answer: Answer,
    long: u64,
    round: u64,
}

impl Model for Captured {
    ghost use Rattle.curp_model.specs.Master.{Captured};

    ghost Value = { Captured };

    ghost view = { λ c. record {
      number = c.number;
      id = c.request.id;
      command = c.request.command;
      answer = c.answer;
      length = c.long;
      round = c.round;
    } };
}

impl Captured {
    /// Capture `number` of its master, of a request, with what it reads and what it waits for.
    pub fn new(
        number: u64,
        request: Shared<Request>,
        answer: Answer,
        long: u64,
        round: u64,
    ) -> Captured
        ensures { result ≡ record {
          number = number;
          id = request.id;
          command = request.command;
          answer = answer;
          length = long;
          round = round;
        } }
    {
        Captured {
            number,
            request,
            answer,
            long,
            round,
        }
    }

    /// Which capture of its master it is, counted from 1.
    pub fn number(&self) -> u64
        ensures { result ≡ self.now.number }
    {
        self.number
    }

    /// The request that reads.
    pub fn id(&self) -> RequestId
        ensures { result ≡ self.now.id }
    {
        self.request.id
    }

    /// The request, of which no more is seen than its id and what it reads.
    pub fn request(&self) -> &Shared<Request>
        ensures id { result.now.id ≡ self.now.id }
        ensures command { result.now.command ≡ self.now.command }
    {
        &self.request
    }

    /// The log's length as it was captured.
    pub fn log_length(&self) -> u64
        ensures { result ≡ self.now.length }
    {
        self.long
    }

    /// What it waits for.
    pub(crate) fn reach(&self) -> Reach
        ensures long { result.long ≡ self.now.length }
        ensures round { result.round ≡ self.now.round }
    {
        Reach {
            long: self.long,
            round: self.round,
        }
    }

    /// Whether the length and the round are within what all backups have acknowledged.
    pub fn is_ready(&self, reach: Option<Reach>) -> bool
        ensures { result ≡ is_within reach self.now.length self.now.round }
    {
        match reach {
            None => true,
            Some(reach) => self.long <= reach.long && self.round <= reach.round,
        }
    }

    /// The value, as a message of master `number` at that epoch to the client.
    pub fn value(&self, alloc: Global, number: u32, epoch: u32) -> Result<Message, NoMemory>
        ensures { IfOk result (λ message. message
            ≡ says (master_node number) (client_node self.now.id.client) (Body.Worth (record {
              id = self.now.id;
              epoch = epoch;
              capture = self.now.number;
              answer = self.now.answer;
            }))) }
    {
        let worth = Worth {
            id: self.request.id,
            epoch,
            capture: self.number,
            answer: self.answer,
        };
        Ok(Message {
            from: NodeId::master(number),
            to: NodeId::client(self.request.id.client),
            body: Body::Worth(Boxed::new(alloc, worth)?),
        })
    }
}

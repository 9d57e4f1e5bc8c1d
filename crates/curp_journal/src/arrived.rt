ghost use Rattle.std.specs.Prelude.{◌≡◌, IfOk};
ghost use Rattle.curp_msg.specs.Input.{input_of};
ghost use Rattle.curp_journal.specs.Given.{given, stamp_of};

use curp_base::NoMemory;
use curp_cmd::NodeId;
use curp_msg::{Input, Local, Message};
use std::alloc::Global;

/// A message with the place where its sender's journal holds it.
#[derive(Debug, Drop)]
pub struct Named {
    pub from: NodeId,
    /// The number of the sender's item, counted from 1.
    pub step: u64,
    /// The place among the messages of that item, counted from 1.
    pub place: u64,
    /// The stamp of that item.
    pub stamp: u64,
    pub message: Message,
}

impl Named {
    pub fn copy(&self, alloc: Global) -> Result<Named, NoMemory>
        ensures copy { IfOk result (λ copy. copy ≡ self.now) }
    {
        Ok(Named {
            from: self.from,
            step: self.step,
            place: self.place,
            stamp: self.stamp,
            message: self.message.copy(alloc)?,
        })
    }
}

/// What comes to a node.
#[derive(Drop)]
pub enum Arrived {
    /// An order, with the stamp of whoever gave it.
    Local(Local, u64),
    Message(Named),
}

impl Arrived {
    pub fn copy(&self, alloc: Global) -> Result<Arrived, NoMemory>
        ensures copy { IfOk result (λ copy. copy ≡ self.now) }
    {
        match self {
            Arrived::Local(order, stamp) => Ok(Arrived::Local(order.copy()?, *stamp)),
            Arrived::Message(named) => Ok(Arrived::Message(named.copy(alloc)?)),
        }
    }

    /// The input that the node gets by it.
    pub fn given(&self) -> Input
        ensures given { input_of result ≡ given self.now }
    {
        match self {
            Arrived::Local(order, _) => Input::Local(order),
            Arrived::Message(named) => Input::Message(&named.message),
        }
    }

    pub fn stamp(&self) -> u64
        ensures stamp { result ≡ stamp_of self.now }
    {
        match self {
            Arrived::Local(_, stamp) => *stamp,
            Arrived::Message(named) => named.stamp,
        }
    }
}

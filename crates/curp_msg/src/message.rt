ghost use Rattle.std.specs.Prelude.{◌≡◌, IfOk};

use crate::Body;
use curp_base::NoMemory;
use curp_cmd::NodeId;
use std::alloc::Global;
use std::mem::size_of;

/// A message: who sent it, whom it goes to, and what it says.
pub struct Message {
    pub from: NodeId,
    pub to: NodeId,
    pub body: Body,
}

impl Drop for Message {
    fn drop(self) {
        let Message {
            from: _,
            to: _,
            body: _,
        } = self;
    }
}

// A run keeps each message that was sent.
const _: () = prove!(size_of::<Message>() <= 80);

impl Message {
    pub fn copy(&self, alloc: Global) -> Result<Message, NoMemory>
        ensures { IfOk result (λ copy. copy ≡ self.now) }
    {
        Ok(Message {
            from: self.from,
            to: self.to,
            body: self.body.copy(alloc)?,
        })
    }
}

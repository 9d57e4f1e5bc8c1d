ghost use Rattle.std.specs.Prelude.{◌≡◌, IfOk};

use crate::Arrived;
use curp_base::{Items, NoMemory, Shared};
use curp_cmd::Request;
use curp_msg::{Done, Message};
use std::alloc::Global;

/// What came to a node, and what it did then. A journal is a list of these.
pub struct Item {
    /// Higher than that of the item before, and than that of what came.
    pub stamp: u64,
    pub input: Arrived,
    pub done: Done,
}

impl Drop for Item {
    fn drop(self) {
        let Item {
            stamp: _,
            input: _,
            done: _,
        } = self;
    }
}

impl Item {
    pub fn copy(&self, alloc: Global) -> Result<Item, NoMemory>
        ensures copy { IfOk result (λ copy. copy ≡ self.now) }
    {
        Ok(Item {
            stamp: self.stamp,
            input: self.input.copy(alloc)?,
            done: copy_of_done(alloc, &self.done)?,
        })
    }
}

fn copy_of_done(alloc: Global, done: &Done) -> Result<Done, NoMemory>
    ensures copy { IfOk result (λ copy. copy ≡ done.now) }
{
    let sent = copies_of_messages(alloc, done.sent.as_slice())?;
    Ok(Done {
        refused: done.refused,
        sent: Items::new(sent),
        invoked: shared(&done.invoked)?,
        completed: done.completed,
    })
}

fn shared(request: &Option<Shared<Request>>) -> Result<Option<Shared<Request>>, NoMemory>
    ensures same { IfOk result (λ it. it ≡ request.now) }
{
    match request {
        Some(request) => Ok(Some(request.share()?)),
        None => Ok(None),
    }
}

fn copies_of_messages(alloc: Global, messages: &[Message]) -> Result<Vec<Message>, NoMemory>
    ensures copies { IfOk result (λ copies. copies.items ≡ messages.now) }
{
    let mut copies = Vec::with_capacity(alloc, messages.len())?;
    for message in messages {
        copies.push(message.copy(alloc)?)?;
    }
    Ok(copies)
}

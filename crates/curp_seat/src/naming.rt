ghost use Rattle.std.specs.Prelude.{◌≡◌, [], None, IfOk};
ghost use Rattle.curp_journal.specs.Sending.{named_of};

use curp_base::NoMemory;
use curp_cmd::NodeId;
use curp_journal::Named;
use curp_msg::{Completed, Message};
use std::alloc::Global;

/// What a step sent and completed.
#[derive(Drop)]
pub struct Sent {
    pub named: Vec<Named>,
    pub completed: Option<Completed>,
}

impl Sent {
    /// Nothing was sent or completed. It takes no memory.
    pub(crate) fn nothing(alloc: Global) -> Sent
        ensures named { result.named.items ≡ [] }
        ensures completed { result.completed ≡ None }
    {
        Sent {
            named: Vec::new(alloc),
            completed: None,
        }
    }
}

/// The messages that an item of that node sent, each with its name.
pub(crate) fn named_of(
    alloc: Global,
    from: NodeId,
    step: u64,
    stamp: u64,
    messages: &[Message],
) -> Result<Vec<Named>, NoMemory>
    ensures named { IfOk result (λ named. named.items ≡ named_of from step stamp 1 messages.now) }
{
    let mut named = Vec::with_capacity(alloc, messages.len())?;
    let mut place = 1;
    for message in messages {
        named.push(Named {
            from,
            step,
            place,
            stamp,
            message: message.copy(alloc)?,
        })?;
        place += 1;
    }
    Ok(named)
}

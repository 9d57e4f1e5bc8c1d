// Lists of messages that a master sends.
ghost use Rattle.std.specs.Prelude.{◌≡◌, ◌≤◌, ◌∷◌, [], IfOk, vec_capacity};

use curp_base::{Boxed, NoMemory};
use curp_msg::{Message, Reply};
use std::alloc::Global;

/// One message.
pub fn only(alloc: Global, message: Message) -> Result<Vec<Message>, NoMemory>
    ensures { IfOk result (λ sent. sent.items ≡ message ∷ []) }
{
    let sent = vec![in alloc; message]?;
    Ok(sent)
}

/// A message before others.
pub fn in_prefix(
    alloc: Global,
    message: Message,
    others: Vec<Message>,
) -> Result<Vec<Message>, NoMemory>
    ensures { IfOk result (λ sent. sent.items ≡ message ∷ others.items) }
{
    let mut behind = others;
    let mut sent = vec![in alloc; message]?;
    sent.append(&mut behind)?;
    Ok(sent)
}

/// Memory for a reply, which holds that one for now, and for the list of it alone.
pub fn reply_room(alloc: Global, reply: Reply) -> Result<(Boxed<Reply>, Vec<Message>), NoMemory>
    ensures held { IfOk result (λ room. room.0 ≡ reply) }
    ensures empty { IfOk result (λ room. room.1.items ≡ []) }
    ensures room { IfOk result (λ room. 1 ≤ vec_capacity room.1) }
{
    let reply = Boxed::new(alloc, reply)?;
    let sent = Vec::with_capacity(alloc, 1)?;
    Ok((reply, sent))
}

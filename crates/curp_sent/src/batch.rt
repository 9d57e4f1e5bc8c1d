ghost use Rattle.std.specs.Prelude.{◌≡◌};

use curp_base::Items;
use curp_msg::Message;
use std::marker::Model;
use std::slice::from_ref;

/// The messages that a step sent. Contracts see the list of them.
#[derive(Drop)]
pub(crate) struct Batch {
    held: Held,
}

/// How the messages of a step are held.
#[derive(Drop)]
pub(crate) enum Held {
    // In place, as most steps send one.
    One(Message),
    // As a list with no room for more.
    Many(Items<Message>),
}

impl Model for Batch {
    ghost use Rattle.std.specs.Prelude.{List};
    ghost use Rattle.curp_sent.specs.Batches.{messages_in};
    ghost use Rattle.curp_msg.specs.declared.message.Message.{Message};

    ghost Value = { List Message };

    ghost view = { λ b. messages_in b.held };
}

impl Batch {
    /// These messages. It takes no memory.
    pub(crate) fn new(messages: Items<Message>) -> Batch
        ensures { result ≡ messages }
    {
        let mut list = messages.into_vec();
        if list.len() == 1 {
            if let Some(message) = list.pop() {
                return Batch {
                    held: Held::One(message),
                };
            }
        }
        list.shrink_to_fit();
        Batch {
            held: Held::Many(Items::new(list)),
        }
    }

    pub(crate) fn as_slice(&self) -> &[Message]
        ensures { result.now ≡ self.now }
    {
        match &self.held {
            Held::One(message) => from_ref(message),
            Held::Many(messages) => messages.as_slice(),
        }
    }
}

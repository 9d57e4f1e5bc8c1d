ghost use Rattle.std.specs.Prelude.{◌≡◌};
ghost use Rattle.curp_order.specs.declared.Event.TheVariants.{Invoke, Complete};

use crate::Event;
use curp_cmd::{Answer, KeptCommand, RequestId};
use std::marker::Model;

/// An event that is kept. Its command stands in memory once, with the request. Contracts see the event.
pub struct KeptEvent {
    told: Told,
}

impl Drop for KeptEvent {
    fn drop(self) {
        let KeptEvent { told: _ } = self;
    }
}

// What a kept event tells.
#[derive(Drop)]
pub(crate) enum Told {
    Invoked { id: RequestId, command: KeptCommand },
    Completed { id: RequestId, answer: Answer },
}

impl Model for KeptEvent {
    ghost use Rattle.curp_order.specs.declared.Event.{Event};
    ghost use Rattle.curp_order.specs.Kept.{event_told};

    ghost Value = { Event };

    ghost view = { λ e. event_told e.told };
}

impl KeptEvent {
    pub fn invoked(id: RequestId, command: KeptCommand) -> KeptEvent
        ensures { result ≡ Invoke id command }
    {
        KeptEvent {
            told: Told::Invoked { id, command },
        }
    }

    pub fn completed(id: RequestId, answer: Answer) -> KeptEvent
        ensures { result ≡ Complete id answer }
    {
        KeptEvent {
            told: Told::Completed { id, answer },
        }
    }

    /// The event. It takes no memory.
    pub fn event(&self) -> Event
        ensures { result ≡ self.now }
    {
        match &self.told {
            Told::Invoked { id, command } => Event::Invoke {
                id: *id,
                command: **command,
            },
            Told::Completed { id, answer } => Event::Complete {
                id: *id,
                answer: *answer,
            },
        }
    }
}

ghost use Rattle.std.specs.Prelude.{◌≡◌, ◌+◌, ◌≤◌, [], ◌∷◌, ◌++◌, length, max, OnOk};
ghost use Rattle.curp_order.specs.Recorded.{invocation, completion};

use crate::KeptEvent;
use curp_base::{NoMemory, Reserved};
use curp_cmd::{Answer, KeptCommand, RequestId};
use std::alloc::Global;
use std::marker::Model;

/// What all clients saw, in the order in which it happened. Contracts see the events, and for how many more there is
/// room.
pub struct History {
    events: Reserved<KeptEvent>,
}

impl Drop for History {
    fn drop(self) {
        let History { events: _ } = self;
    }
}

impl Model for History {
    ghost use Rattle.curp_order.specs.Recorded.{Recorded};

    ghost Value = { Recorded };

    ghost view = { λ h. record { events = h.events.items; spare = h.events.spare } };
}

impl History {
    /// Nothing happened yet. It takes no memory.
    pub fn new(alloc: Global) -> History
        ensures { result.events ≡ [] }
    {
        History {
            events: Reserved::new(alloc),
        }
    }

    /// Makes room for so many more events.
    pub fn reserve(&mut self, events: u64) -> Result<(), NoMemory>
        ensures events { self.new.events ≡ self.old.events }
        ensures room { OnOk result (events ≤ self.new.spare) }
        ensures kept { self.old.spare ≤ self.new.spare }
        ensures no_more { self.new.spare ≤ max self.old.spare (max events (length self.old.events)) }
    {
        self.events.reserve(events)
    }

    /// A client invoked a command, or a request has its answer, or both in this order. It takes no memory.
    pub fn record(
        &mut self,
        invoked: Option<(RequestId, KeptCommand)>,
        completed: Option<(RequestId, Answer)>,
    )
        requires { 2 ≤ self.old.spare }
        ensures { self.new.events ≡ (self.old.events ++ invocation invoked) ++ completion completed }
    {
        if let Some((id, command)) = invoked {
            self.events.push(KeptEvent::invoked(id, command));
        }
        if let Some((id, answer)) = completed {
            self.events.push(KeptEvent::completed(id, answer));
        }
    }

    /// The events, the newest last.
    pub fn events(&self) -> &[KeptEvent]
        ensures { result.now ≡ self.now.events }
    {
        &self.events
    }
}

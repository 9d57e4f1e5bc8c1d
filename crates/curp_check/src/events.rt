ghost use Rattle.std.specs.Prelude.{◌≡◌, ◌-◌, ◌<◌, ◌++◌, [], ◌∷◌, length, take, IfOk, OnErr, OnOk};
ghost use Rattle.curp_base.specs.Words.{At, IsPrefix};
ghost use Rattle.curp_check.specs.Packed.{IsMarked, IsPacked, IsPackedAs, event_packed};

use crate::packed::{pack, unpack};
use curp_base::NoMemory;
use curp_cmd::RequestId;
use curp_order::Event;
use std::alloc::Global;
use std::marker::Model;

/// What kind of event it is, and of which request.
#[derive(Clone, Copy)]
pub(crate) enum Mark {
    Invoke { id: RequestId },
    Complete { id: RequestId },
}

/// An event whose command or answer is kept as its encoding, and where that stands.
#[derive(Clone, Copy)]
pub(crate) struct PackedEvent {
    pub(crate) mark: Mark,
    pub(crate) place: usize,
}

/// The events of a history, their commands and answers as their encodings. Contracts see the events.
#[derive(Drop)]
pub(crate) struct PackedEvents {
    bytes: Vec<u8>,
    packed: Vec<PackedEvent>,
}

impl Model for PackedEvents {
    ghost use Rattle.std.specs.Prelude.{List, map};
    ghost use Rattle.curp_base.specs.Words.{Each};
    ghost use Rattle.curp_order.specs.declared.Event.{Event};
    ghost use Rattle.curp_check.specs.Packed.{IsPacked, event_packed};

    ghost Value = { List Event };

    ghost view = { λ e. map (event_packed e.bytes.items) e.packed.items };

    ghost invariant = { λ e. Each (IsPacked e.bytes.items) e.packed.items };
}

impl PackedEvents {
    /// No events. It takes no memory.
    pub(crate) fn new(alloc: Global) -> PackedEvents
        ensures { result ≡ [] }
    {
        PackedEvents {
            bytes: Vec::new(alloc),
            packed: Vec::new(alloc),
        }
    }

    pub(crate) fn len(&self) -> usize
        ensures { result ≡ length self.now }
    {
        self.packed.len()
    }

    /// Adds an event behind the others.
    pub(crate) fn push(&mut self, event: &Event) -> Result<(), NoMemory>
        ensures ok { OnOk result (self.new ≡ self.old ++ event.now ∷ []) }
        ensures err { OnErr result (self.new ≡ self.old) }
    {
        self.packed.reserve(1)?;
        let packed = pack_event(&mut self.bytes, event)?;
        self.packed.push_reserved(packed);
        Ok(())
    }

    /// Takes the newest event away again. It takes no memory.
    pub(crate) fn forget_newest(&mut self)
        ensures { self.new ≡ take (length self.old - 1) self.old }
    {
        let others = self.packed.len().saturating_sub(1);
        self.packed.truncate(others);
    }

    /// What kind of event stands there, and of which request.
    pub(crate) fn mark(&self, at: usize) -> Mark
        requires { at < length self.now }
        ensures { IsMarked self.now at result }
    {
        self.packed[at].mark
    }

    /// The event that stands there. It takes no memory.
    pub(crate) fn event(&self, at: usize) -> Event
        requires { at < length self.now }
        ensures { At self.now at result }
    {
        unpack_event(&self.bytes, &self.packed[at])
    }
}

/// Packs what an event has beside its request.
fn pack_event(bytes: &mut Vec<u8>, event: &Event) -> Result<PackedEvent, NoMemory>
    ensures ok { IfOk result (IsPackedAs bytes.new.items event.now) }
    ensures prefix { IsPrefix bytes.old.items bytes.new.items }
    ensures err { OnErr result (bytes.new.items ≡ bytes.old.items) }
{
    match event {
        Event::Invoke { id, command } => Ok(PackedEvent {
            mark: Mark::Invoke { id: *id },
            place: pack(command, bytes)?,
        }),
        Event::Complete { id, answer } => Ok(PackedEvent {
            mark: Mark::Complete { id: *id },
            place: pack(answer, bytes)?,
        }),
    }
}

fn unpack_event(bytes: &[u8], packed: &PackedEvent) -> Event
    requires { IsPacked bytes.now packed.now }
    ensures { result ≡ event_packed bytes.now packed.now }
{
    match packed.mark {
        Mark::Invoke { id } => Event::Invoke {
            id,
            command: unpack(bytes, packed.place),
        },
        Mark::Complete { id } => Event::Complete {
            id,
            answer: unpack(bytes, packed.place),
        },
    }
}

ghost use Rattle.std.specs.Prelude.{◌≡◌, ◌==◌, ◌<◌, ◌++◌, [], ◌∷◌, length, IfOk, OnErr, OnOk};
ghost use Rattle.curp_base.specs.Words.{At};
ghost use Rattle.curp_cmd.specs.declared.command.Command.{Command};
ghost use Rattle.curp_order.specs.Order.{answers};

use crate::packed::{pack, unpack};
use curp_base::NoMemory;
use curp_cmd::{Answer, Command, RequestId, Store};
use std::alloc::Global;
use std::marker::Model;

/// The requests of an order, their commands as their encodings. Contracts see the requests with their commands.
#[derive(Drop)]
pub(crate) struct PackedOrder {
    bytes: Vec<u8>,
    // Each request, and where its command stands.
    packed: Vec<(RequestId, usize)>,
}

impl Model for PackedOrder {
    ghost use Rattle.std.specs.Prelude.{List, map};
    ghost use Rattle.curp_base.specs.Words.{Each};
    ghost use Rattle.curp_order.specs.Order.{Asked};
    ghost use Rattle.curp_check.specs.Packed.{HasCommand, asked_packed};

    ghost Value = { List Asked };

    ghost view = { λ o. map (asked_packed o.bytes.items) o.packed.items };

    ghost invariant = { λ o. Each (HasCommand o.bytes.items) o.packed.items };
}

impl PackedOrder {
    /// No requests. It takes no memory.
    pub(crate) fn new(alloc: Global) -> PackedOrder
        ensures { result ≡ [] }
    {
        PackedOrder {
            bytes: Vec::new(alloc),
            packed: Vec::new(alloc),
        }
    }

    pub(crate) fn len(&self) -> usize
        ensures { result ≡ length self.now }
    {
        self.packed.len()
    }

    pub(crate) fn is_empty(&self) -> bool
        ensures { result ≡ (length self.now == 0) }
    {
        self.packed.is_empty()
    }

    /// Adds a request behind the others.
    pub(crate) fn push(&mut self, id: RequestId, command: &Command) -> Result<(), NoMemory>
        ensures ok { OnOk result (self.new ≡ self.old ++ (id, command.now) ∷ []) }
        ensures err { OnErr result (self.new ≡ self.old) }
    {
        self.packed.reserve(1)?;
        let place = pack(command, &mut self.bytes)?;
        self.packed.push_reserved((id, place));
        Ok(())
    }

    /// The request that stands there.
    pub(crate) fn id(&self, at: usize) -> RequestId
        requires { at < length self.now }
        ensures { (command : Command) × At self.now at (result, command) }
    {
        self.packed[at].0
    }

    /// The request that stands there, with its command. It takes no memory.
    pub(crate) fn asked(&self, at: usize) -> (RequestId, Command)
        requires { at < length self.now }
        ensures { At self.now at result }
    {
        let (id, place) = self.packed[at];
        (id, unpack(&self.bytes, place))
    }
}

/// The answers of one thread that does the requests in their order, begun with the empty store.
pub(crate) fn answers_in(alloc: Global, order: &PackedOrder) -> Result<Vec<Answer>, NoMemory>
    ensures { IfOk result (λ given. given.items ≡ answers order.now) }
{
    let mut store = Store::new(alloc);
    let mut given = Vec::new(alloc);
    for at in 0..order.len() {
        let (_, command) = order.asked(at);
        store.reserve(command.key_count())?;
        // A push by value isn't proved in a crate that doesn't name what an answer holds.
        given.extend_from_slice(&[store.apply(&command)])?;
    }
    Ok(given)
}

ghost use Rattle.std.specs.Prelude.{◌↔◌, IsTrue};
ghost use Rattle.curp_filter.specs.Taking.{IsUnbegun, MayTake};
ghost use Rattle.curp_journal.specs.Own.{IsArrivedMessage};

use curp_cmd::NodeId;
use curp_journal::{Arrived, Origin, is_own};

/// The number by which a misdirected input is refused: no node refuses by it.
pub(crate) const MISDIRECTED: u8 = 254;

/// The node that a process runs.
#[derive(Clone, Copy)]
pub struct Role {
    pub id: NodeId,
    pub origin: Origin,
}

/// What comes to the process of a node.
#[derive(Drop)]
pub enum Came {
    /// An order or a message, in a parcel, that the node may take.
    Arrived(Arrived),
    PassedOver(PassedOver),
}

/// What is answered, and not given to the node.
#[derive(Drop)]
pub enum PassedOver {
    /// An order or a message, in a parcel, that the node may not take: it isn't its own, or it is an order to a fresh
    /// node that took nothing.
    Misdirected(Arrived),
    /// As many bytes as a length says, which are nothing that may come to a node. The place is that of the first byte
    /// of the length, counted from 0.
    NoParcel { at: u64 },
}

/// Whether the node may take it, which took so many inputs before.
pub(crate) fn may_take(role: Role, count: u64, arrived: &Arrived) -> bool
    ensures { IsTrue result ↔ MayTake role count arrived.now }
{
    is_own(role.id, arrived) && (!is_unbegun(role, count) || is_message(arrived))
}

/// Whether the node is fresh and took nothing.
pub(crate) fn is_unbegun(role: Role, count: u64) -> bool
    ensures { IsTrue result ↔ IsUnbegun role count }
{
    role.origin == Origin::Fresh && count == 0
}

fn is_message(arrived: &Arrived) -> bool
    ensures { IsTrue result ↔ IsArrivedMessage arrived.now }
{
    matches!(arrived, Arrived::Message(_))
}

ghost use Rattle.std.specs.Prelude.{◌≡◌, ◌↔◌, IsTrue};
ghost use Rattle.curp_journal.specs.Own.{IsOwn, is_order_of};

use crate::Arrived;
use curp_cmd::{NodeId, NodeKind};
use curp_msg::Local;

/// Whether it is a message to the node, or an order that a script can give to it.
pub fn is_own(id: NodeId, arrived: &Arrived) -> bool
    ensures { IsTrue result ↔ IsOwn id arrived.now }
{
    match arrived {
        Arrived::Local(order, _) => is_order_of(id.kind, order),
        Arrived::Message(named) => named.message.to == id,
    }
}

/// Whether a script can give the order to a node of the kind.
fn is_order_of(kind: NodeKind, order: &Local) -> bool
    ensures { result ≡ is_order_of kind order.now }
{
    match kind {
        NodeKind::Client => matches!(order, Local::Invoke(_) | Local::Retry(_) | Local::Fetch),
        NodeKind::Master => matches!(order, Local::Sync | Local::Collect),
        NodeKind::Manager => matches!(
            order,
            Local::Recover { .. }
                | Local::Replace { .. }
                | Local::Migrate { .. }
                | Local::Nudge
                | Local::Expire(_)
        ),
        NodeKind::Backup | NodeKind::Witness => false,
    }
}

ghost use Rattle.std.specs.Prelude.{◌↔◌, IsTrue};
ghost use Rattle.curp_anew.specs.Opening.{AllOwn};

use curp_cmd::NodeId;
use curp_journal::{Item, is_own};

/// Whether all that came to a node is its own.
pub(crate) fn all_own(id: NodeId, items: &[Item]) -> bool
    ensures { IsTrue result ↔ AllOwn id items.now }
{
    for item in items {
        if !is_own(id, &item.input) {
            return false;
        }
    }
    true
}

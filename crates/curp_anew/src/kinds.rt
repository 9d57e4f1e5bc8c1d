ghost use Rattle.std.specs.Prelude.{◌≡◌, ◌+◌, ◌<◌, ◌^◌, false, length, Some, IfOk, IfSome, IsSomeAnd};
ghost use Rattle.curp_cmd.specs.Node.{manager_node};
ghost use Rattle.curp_anew.specs.Opening.{AreAnew, AreTaken, IsAnew, all_handed_out};

use crate::anew::{OfKind, anew, both_anew};
use curp_base::NoMemory;
use curp_cmd::NodeId;
use curp_nodes::{BackupNode, ClientNode, ManagerNode, MasterNode, WitnessNode};
use curp_seat::Kept;
use std::alloc::Global;

/// The same journal of the manager. None where it isn't the manager's, or the manager stopped.
pub fn manager_anew(
    manager: ManagerNode,
    taken: Kept<ManagerNode>,
) -> Result<Option<Kept<ManagerNode>>, NoMemory>
    ensures anew { IfOk result (λ made. IfSome made (λ log. IsAnew manager_node manager log)) }
    ensures runs { IfOk result (λ made. IfSome made (λ log. log.ended ≡ false)) }
    ensures same { IsAnew manager_node manager taken → taken.ended ≡ false
        → IfOk result (λ made. made ≡ Some taken) }
{
    if taken.ended() {
        return Ok(None);
    }
    anew(NodeId::manager(), manager, taken)
}

/// The journals of a world's nodes but the manager: of clients and masters, and of backups and witnesses.
pub type Others = (
    (Vec<Kept<ClientNode>>, Vec<Kept<MasterNode>>),
    (Vec<Kept<BackupNode>>, Vec<Kept<WitnessNode>>),
);

/// The same journals of all nodes but the manager. None where one isn't that of a node.
pub fn others_anew(
    alloc: Global,
    clients: OfKind<ClientNode>,
    masters: OfKind<MasterNode>,
    backups: OfKind<BackupNode>,
    witnesses: OfKind<WitnessNode>,
) -> Result<Option<Others>, NoMemory>
    requires few_clients { length clients.2.items + 1 < 2 ^ 32 }
    requires few_masters { length masters.2.items + 1 < 2 ^ 32 }
    requires few_backups { length backups.2.items + 1 < 2 ^ 32 }
    requires few_witnesses { length witnesses.2.items + 1 < 2 ^ 32 }
    ensures clients { IfOk result
        (λ made. IfSome made (λ logs. AreAnew clients.0 clients.1 clients.2.items logs.0.0.items)) }
    ensures masters { IfOk result
        (λ made. IfSome made (λ logs. AreAnew masters.0 masters.1 masters.2.items logs.0.1.items)) }
    ensures backups { IfOk result
        (λ made. IfSome made (λ logs. AreAnew backups.0 backups.1 backups.2.items logs.1.0.items)) }
    ensures witnesses { IfOk result
        (λ made. IfSome made (λ logs. AreAnew witnesses.0 witnesses.1 witnesses.2.items logs.1.1.items)) }
    ensures same { AreTaken clients.0 clients.1 clients.2.items clients.3.items
        → AreTaken masters.0 masters.1 masters.2.items masters.3.items
        → AreTaken backups.0 backups.1 backups.2.items backups.3.items
        → AreTaken witnesses.0 witnesses.1 witnesses.2.items witnesses.3.items
        → IfOk result (λ made. IsSomeAnd made (λ logs.
        (logs.0.0.items ≡ all_handed_out clients.1 clients.3.items)
        × (logs.0.1.items ≡ all_handed_out masters.1 masters.3.items)
        × (logs.1.0.items ≡ all_handed_out backups.1 backups.3.items)
        × (logs.1.1.items ≡ all_handed_out witnesses.1 witnesses.3.items))) }
{
    let Some(prefix) = both_anew(alloc, clients, masters)? else {
        return Ok(None);
    };
    let Some(back) = both_anew(alloc, backups, witnesses)? else {
        return Ok(None);
    };
    Ok(Some((prefix, back)))
}

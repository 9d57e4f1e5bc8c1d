// The orders that steps give to nodes.
ghost use Rattle.std.specs.Prelude.{◌≡◌, Some, IfOk};
ghost use Rattle.curp_cmd.specs.Node.{client_node, manager_node, master_node};
ghost use Rattle.curp_model.specs.World.{order_of};

use curp_base::NoMemory;
use curp_cmd::NodeId;
use curp_msg::{Local, Step};

/// The node and the order that a step is for, if it is one. It takes no memory, and fails where 2^63 - 1 hold its command.
pub fn order_of(step: &Step) -> Result<Option<(NodeId, Local)>, NoMemory>
    ensures { IfOk result (λ order. order ≡ order_of step.now) }
{
    Ok(match step {
        Step::Invoke { client, command } => { to_client(*client, Local::Invoke(command.share()?)) }
        Step::Retry { client, seq } => to_client(*client, Local::Retry(*seq)),
        Step::Fetch { client } => to_client(*client, Local::Fetch),
        Step::Sync { master } => to_master(*master, Local::Sync),
        Step::Collect { master } => to_master(*master, Local::Collect),
        Step::Recover {
            part,
            backup,
            witness,
        } => to_manager(Local::Recover {
            part: *part,
            backup: *backup,
            witness: *witness,
        }),
        Step::Replace {
            keeper,
            part,
            place,
        } => to_manager(Local::Replace {
            keeper: *keeper,
            part: *part,
            place: *place,
        }),
        Step::Migrate { lo, hi, to } => to_manager(Local::Migrate {
            lo: *lo,
            hi: *hi,
            to: *to,
        }),
        Step::Nudge => to_manager(Local::Nudge),
        Step::Expire { client } => to_manager(Local::Expire(*client)),
        Step::Deliver { .. } | Step::Stop { .. } => None,
    })
}

fn to_client(client: u32, order: Local) -> Option<(NodeId, Local)>
    ensures { result ≡ Some (client_node client, order) }
{
    Some((NodeId::client(client), order))
}

fn to_master(master: u32, order: Local) -> Option<(NodeId, Local)>
    ensures { result ≡ Some (master_node master, order) }
{
    Some((NodeId::master(master), order))
}

fn to_manager(order: Local) -> Option<(NodeId, Local)>
    ensures { result ≡ Some (manager_node, order) }
{
    Some((NodeId::manager(), order))
}

ghost use Rattle.std.specs.Prelude.{◌≡◌};
ghost use Rattle.curp_due.specs.Recoveries.{stops};

use curp_cmd::{NodeId, NodeKind};
use curp_words::LivePlan;

/// Whether the driver stops a node for a recovery. The recovery of a number replaces the master of that number; it is
/// stopped where the number is odd, and goes on where it is even.
pub fn stops(plan: &LivePlan, node: NodeId) -> bool
    ensures { result ≡ stops plan.now node }
{
    matches!(node.kind, NodeKind::Master) && node.number <= plan.recoveries && node.number % 2 == 1
}

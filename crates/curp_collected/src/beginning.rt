//! How nodes begin.
ghost use Rattle.std.specs.Prelude.{◌≡◌, ◌<◌, ◌^◌, length, IfOk};
ghost use Rattle.curp_collected.specs.Kinds.{numbered_from};

use curp_base::NoMemory;
use curp_cmd::{NodeId, NodeKind};
use curp_journal::Origin;
use curp_msg::Core;
use std::alloc::Global;

/// A node before any input.
#[derive(Drop)]
pub(crate) struct Beginning<N> {
    pub(crate) id: NodeId,
    pub(crate) origin: Origin,
    pub(crate) node: N,
}

/// The nodes of a kind that are there before any step, numbered from 1 on.
pub(crate) fn numbered<N: Core + Drop>(
    alloc: Global,
    kind: NodeKind,
    nodes: Vec<N>,
) -> Result<Vec<Beginning<N>>, NoMemory>
    requires { length nodes.items < 2 ^ 32 }
    ensures { IfOk result (λ begun. begun.items ≡ numbered_from kind 1 nodes.items) }
{
    let mut begun = Vec::with_capacity(alloc, nodes.len())?;
    let mut number: u32 = 0;
    for node in nodes {
        number += 1;
        begun.push(Beginning {
            id: NodeId { kind, number },
            origin: Origin::Opening,
            node,
        })?;
    }
    Ok(begun)
}

//! The nodes of a cluster as they begin: those of its opening, and fresh ones by their names.
ghost use Rattle.std.specs.Prelude.{◌≡◌, ◌↔◌};
ghost use Rattle.curp_msg.specs.Script.{IsHeader};
ghost use Rattle.curpd_run.specs.Opening.{IsThere};

use crate::ending::Ending;
use curp_base::NoMemory;
use curp_cmd::{NodeId, NodeKind};
use curp_filter::Role;
use curp_journal::Origin;
use curp_msg::Header;
use curp_nodes::{BackupNode, ClientNode, MasterNode, WitnessNode};
use curp_slots::BadShape;
use std::alloc::{AllocError, Global};

/// The role of a node by its name.
pub(crate) fn role_of(id: NodeId, header: &Header) -> Role
    requires { IsHeader header.now }
    ensures id { result.id ≡ id }
    ensures origin { (result.origin ≡ Origin.Opening) ↔ IsThere header.now id }
{
    let is_there = match id.kind {
        NodeKind::Manager | NodeKind::Client => true,
        NodeKind::Master => id.number <= header.parts,
        NodeKind::Backup | NodeKind::Witness => id.number <= header.parts * header.f,
    };
    let origin = if is_there {
        Origin::Opening
    } else {
        Origin::Fresh
    };
    Role { id, origin }
}

/// A client is of the opening.
pub(crate) fn client(alloc: Global, header: &Header, number: u32) -> Result<ClientNode, Ending>
    requires { IsHeader header.now }
{
    let manager = curp_nodes::manager(alloc, header)?;
    let mut nodes = curp_nodes::clients(alloc, header, manager.config())?;
    opening_node(&mut nodes, number).ok_or(Ending::NoSuchClient)
}

pub(crate) fn master(alloc: Global, header: &Header, number: u32) -> Result<MasterNode, NoMemory>
    requires { IsHeader header.now }
{
    let manager = curp_nodes::manager(alloc, header)?;
    let mut nodes = curp_nodes::masters(alloc, header, manager.config())?;
    let opening = opening_node(&mut nodes, number);
    Ok(opening.unwrap_or(MasterNode::fresh(alloc, number)))
}

pub(crate) fn backup(alloc: Global, header: &Header, number: u32) -> Result<BackupNode, NoMemory>
    requires { IsHeader header.now }
{
    let mut nodes = curp_nodes::backups(alloc, header.parts * header.f)?;
    let opening = opening_node(&mut nodes, number);
    Ok(opening.unwrap_or(BackupNode::fresh(alloc, number)))
}

pub(crate) fn witness(alloc: Global, header: &Header, number: u32) -> Result<WitnessNode, NoMemory>
    requires { IsHeader header.now }
{
    let count = header.parts * header.f;
    let mut nodes = curp_nodes::witnesses(alloc, count, header.sets, header.ways)?;
    if let Some(opening) = opening_node(&mut nodes, number) {
        return Ok(opening);
    }
    match WitnessNode::fresh(alloc, number, header.sets, header.ways) {
        Ok(fresh) => Ok(fresh),
        // The header's shape is in range.
        Err(BadShape) => Err(AllocError),
    }
}

/// The node of a number, counted from 1, where there are so many.
fn opening_node<N>(nodes: &mut Vec<N>, number: u32) -> Option<N> {
    let index = (number as usize).checked_sub(1)?;
    (index < nodes.len()).then(|| nodes.swap_remove(index))
}

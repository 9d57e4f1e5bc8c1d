ghost use Rattle.std.specs.Prelude.{◌≡◌, ◌≤◌, map, replicate, IfOk};
ghost use Rattle.curp_base.specs.Words.{numbers_from};
ghost use Rattle.curp_model.specs.Backup.{installed_backup};
ghost use Rattle.curp_model.specs.Client.{fresh_client};
ghost use Rattle.curp_msg.specs.Script.{IsHeader};
ghost use Rattle.curp_model.specs.Manager.{opening_config, opening_manager};
ghost use Rattle.curp_model.specs.Witness.{started_witness};
ghost use Rattle.curp_model.specs.World.{opening_master, shape_of};
ghost use Rattle.curp_nodes.specs.Nodes.{HasNumbers, begins, states};

use crate::{BackupNode, ClientNode, ManagerNode, MasterNode, WitnessNode};
use curp_base::{Failed, NoMemory};
use curp_changes::{Shape, opening_hashes};
use curp_msg::{Config, Header, PartConfig};
use curp_slots::BadShape;
use std::alloc::{AllocError, Global};

/// The first epoch, version and serial.
const FIRST: u32 = 1;

/// The manager of a header.
#[tactic(auto, using(crate::proofs::Numbers::few_keepers))]
pub fn manager(alloc: Global, header: &Header) -> Result<ManagerNode, NoMemory>
    requires { IsHeader header.now }
    ensures { IfOk result (λ manager. manager ≡ opening_manager (shape_of header.now)) }
{
    let shape = Shape {
        f: header.f,
        parts: header.parts,
        clients: header.clients,
    };
    ManagerNode::new(alloc, &shape)
}

/// The clients of a header, each with a copy of the configuration.
pub fn clients(alloc: Global, header: &Header, config: &Config) -> Result<Vec<ClientNode>, NoMemory>
    ensures states { IfOk result (λ nodes. states nodes.items
        ≡ replicate header.now.clients (fresh_client header.now.fast header.now.protocol config.now)) }
    ensures numbers { IfOk result (λ nodes. HasNumbers nodes.items) }
{
    let mut nodes = Vec::with_capacity(alloc, header.clients as usize)?;
    for made in 0..header.clients {
        let config = config.copy(alloc)?;
        nodes.push(ClientNode::new(alloc, made + 1, header.fast, header.protocol, config))?;
    }
    Ok(nodes)
}

/// The masters of a header's partitions.
pub fn masters(alloc: Global, header: &Header, config: &Config) -> Result<Vec<MasterNode>, NoMemory>
    requires { config.now ≡ opening_config (shape_of header.now) }
    ensures states { IfOk result (λ nodes. states nodes.items
        ≡ map (opening_master (shape_of header.now)) (numbers_from 1 header.now.parts)) }
    ensures numbers { IfOk result (λ nodes. HasNumbers nodes.items) }
{
    let mut nodes = Vec::with_capacity(alloc, header.parts as usize)?;
    for part in config.parts.as_slice() {
        nodes.push(master(alloc, header.parts, part)?)?;
    }
    Ok(nodes)
}

// The master of one of so many partitions, of the same number, with copies of its lists.
fn master(alloc: Global, parts: u32, part: &PartConfig) -> Result<MasterNode, NoMemory>
    requires first { 1 ≤ part.now.part }
    requires last { part.now.part ≤ parts }
    ensures number { IfOk result (λ m. m.number ≡ part.now.part) }
    ensures state { IfOk result (λ m. m.state ≡ begins parts part.now) }
{
    let (lo, hi) = opening_hashes(parts, part.part);
    let backups = part.backups.copy(alloc)?.into_vec();
    let witnesses = part.witnesses.copy(alloc)?.into_vec();
    MasterNode::new(alloc, part.part, backups, witnesses, lo, hi)
}

/// So many backups, which are installed.
pub fn backups(alloc: Global, count: u32) -> Result<Vec<BackupNode>, NoMemory>
    ensures states { IfOk result (λ nodes. states nodes.items ≡ replicate count (installed_backup 1)) }
    ensures numbers { IfOk result (λ nodes. HasNumbers nodes.items) }
{
    let mut nodes = Vec::with_capacity(alloc, count as usize)?;
    for made in 0..count {
        nodes.push(BackupNode::new(alloc, made + 1, FIRST))?;
    }
    Ok(nodes)
}

/// So many witnesses of that shape, which are started. All memory for their slots is taken here.
pub fn witnesses(
    alloc: Global,
    count: u32,
    sets: u32,
    ways: u32,
) -> Result<Vec<WitnessNode>, NoMemory>
    ensures states { IfOk result (λ nodes. states nodes.items ≡ replicate count (started_witness sets ways 1)) }
    ensures numbers { IfOk result (λ nodes. HasNumbers nodes.items) }
{
    let mut nodes = Vec::with_capacity(alloc, count as usize)?;
    for made in 0..count {
        nodes.push(witness(alloc, made + 1, sets, ways)?)?;
    }
    Ok(nodes)
}

fn witness(alloc: Global, number: u32, sets: u32, ways: u32) -> Result<WitnessNode, NoMemory>
    ensures number { IfOk result (λ w. w.number ≡ number) }
    ensures state { IfOk result (λ w. w.state ≡ started_witness sets ways 1) }
{
    match WitnessNode::new(alloc, number, sets, ways, FIRST) {
        Ok(witness) => Ok(witness),
        // The header's shape is in range, so only memory can be wanting.
        Err(Failed::Because(BadShape) | Failed::NoMemory) => Err(AllocError),
    }
}

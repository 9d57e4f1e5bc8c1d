ghost use Rattle.std.specs.Prelude.{◌≡◌, ◌+◌, ◌*◌, ◌^◌, ◌<◌, ◌≤◌, ◌++◌, length, map, replicate, IfOk};
ghost use Rattle.curp_base.specs.Words.{numbers_from};
ghost use Rattle.curp_msg.specs.Script.{IsHeader};
ghost use Rattle.curp_model.specs.Backup.{fresh_backup, installed_backup};
ghost use Rattle.curp_model.specs.Client.{fresh_client};
ghost use Rattle.curp_model.specs.Manager.{opening_config};
ghost use Rattle.curp_model.specs.Recovery.{Fresh};
ghost use Rattle.curp_model.specs.Witness.{fresh_witness, started_witness};
ghost use Rattle.curp_model.specs.World.{opening_master, shape_of};
ghost use Rattle.curp_nodes.specs.Nodes.{HasNumbers, states};
ghost use Rattle.curp_anew.specs.Opening.{IsOpening};

use curp_base::NoMemory;
use curp_msg::{Config, Header};
use curp_nodes::{BackupNode, ClientNode, ManagerNode, MasterNode, WitnessNode};
use curp_slots::BadShape;
use std::alloc::{AllocError, Global};

/// The nodes of a run: those of a world before any step, and behind them the fresh ones that recoveries will name.
#[derive(Drop)]
pub struct LiveNodes {
    pub manager: ManagerNode,
    pub clients: Vec<ClientNode>,
    pub masters: Vec<MasterNode>,
    pub backups: Vec<BackupNode>,
    pub witnesses: Vec<WitnessNode>,
}

impl LiveNodes {
    /// Those of a header, for so many recoveries. Each names one master, and as many backups and witnesses as a
    /// partition has.
    #[tactic(auto, unfolding(curp_model::specs::World::opening))]
    pub fn opening(alloc: Global, header: &Header, recoveries: u32) -> Result<LiveNodes, NoMemory>
        requires header { IsHeader header.now }
        requires recoveries { recoveries ≤ 8 }
        ensures { IfOk result (λ nodes. IsOpening header.now recoveries nodes) }
    {
        let manager = curp_nodes::manager(alloc, header)?;
        let clients = curp_nodes::clients(alloc, header, manager.config())?;
        let masters = masters(alloc, header, manager.config(), recoveries)?;
        let backups = backups(alloc, header, recoveries)?;
        let witnesses = witnesses(alloc, header, recoveries)?;
        Ok(LiveNodes {
            manager,
            clients,
            masters,
            backups,
            witnesses,
        })
    }
}

fn masters(
    alloc: Global,
    header: &Header,
    config: &Config,
    fresh: u32,
) -> Result<Vec<MasterNode>, NoMemory>
    requires header { IsHeader header.now }
    requires config { config.now ≡ opening_config (shape_of header.now) }
    requires fresh { fresh ≤ 8 }
    ensures states { IfOk result (λ nodes. states nodes.items
        ≡ map (opening_master (shape_of header.now)) (numbers_from 1 header.now.parts) ++ replicate fresh Fresh) }
    ensures numbers { IfOk result (λ nodes. HasNumbers nodes.items) }
{
    let masters = curp_nodes::masters(alloc, header, config)?;
    with_fresh_masters(alloc, header.parts, fresh, masters)
}

fn backups(alloc: Global, header: &Header, recoveries: u32) -> Result<Vec<BackupNode>, NoMemory>
    requires header { IsHeader header.now }
    requires recoveries { recoveries ≤ 8 }
    ensures states { IfOk result (λ nodes. states nodes.items
        ≡ replicate (header.now.parts * header.now.f) (installed_backup 1)
        ++ replicate (recoveries * header.now.f) fresh_backup) }
    ensures numbers { IfOk result (λ nodes. HasNumbers nodes.items) }
{
    let count = header.parts * header.f;
    let backups = curp_nodes::backups(alloc, count)?;
    with_fresh_backups(alloc, count, recoveries * header.f, backups)
}

fn witnesses(alloc: Global, header: &Header, recoveries: u32) -> Result<Vec<WitnessNode>, NoMemory>
    requires header { IsHeader header.now }
    requires recoveries { recoveries ≤ 8 }
    ensures states { IfOk result (λ nodes. states nodes.items
        ≡ replicate (header.now.parts * header.now.f) (started_witness header.now.sets header.now.ways 1)
        ++ replicate (recoveries * header.now.f) (fresh_witness header.now.sets header.now.ways)) }
    ensures numbers { IfOk result (λ nodes. HasNumbers nodes.items) }
{
    let count = header.parts * header.f;
    let witnesses = curp_nodes::witnesses(alloc, count, header.sets, header.ways)?;
    with_fresh_witnesses(alloc, header, count, recoveries * header.f, witnesses)
}

/// So many masters that are there, and behind them fresh ones with the next numbers.
fn with_fresh_masters(
    alloc: Global,
    there: u32,
    fresh: u32,
    mut masters: Vec<MasterNode>,
) -> Result<Vec<MasterNode>, NoMemory>
    requires there { length masters.items ≡ there }
    requires few { there + fresh < 2 ^ 32 }
    requires numbers { HasNumbers masters.items }
    ensures states { IfOk result (λ nodes. states nodes.items ≡ states masters.items ++ replicate fresh Fresh) }
    ensures numbers { IfOk result (λ nodes. HasNumbers nodes.items) }
{
    for made in 0..fresh {
        masters.push(MasterNode::fresh(alloc, there + made + 1))?;
    }
    Ok(masters)
}

fn with_fresh_backups(
    alloc: Global,
    there: u32,
    fresh: u32,
    mut backups: Vec<BackupNode>,
) -> Result<Vec<BackupNode>, NoMemory>
    requires there { length backups.items ≡ there }
    requires few { there + fresh < 2 ^ 32 }
    requires numbers { HasNumbers backups.items }
    ensures states { IfOk result (λ nodes. states nodes.items ≡ states backups.items ++ replicate fresh fresh_backup) }
    ensures numbers { IfOk result (λ nodes. HasNumbers nodes.items) }
{
    for made in 0..fresh {
        backups.push(BackupNode::fresh(alloc, there + made + 1))?;
    }
    Ok(backups)
}

fn with_fresh_witnesses(
    alloc: Global,
    header: &Header,
    there: u32,
    fresh: u32,
    mut witnesses: Vec<WitnessNode>,
) -> Result<Vec<WitnessNode>, NoMemory>
    requires there { length witnesses.items ≡ there }
    requires few { there + fresh < 2 ^ 32 }
    requires numbers { HasNumbers witnesses.items }
    ensures states { IfOk result (λ nodes. states nodes.items
        ≡ states witnesses.items ++ replicate fresh (fresh_witness header.now.sets header.now.ways)) }
    ensures numbers { IfOk result (λ nodes. HasNumbers nodes.items) }
{
    for made in 0..fresh {
        witnesses.push(fresh_witness(alloc, header, there + made + 1)?)?;
    }
    Ok(witnesses)
}

/// The witness of that number that a recovery or a replacement starts, in the shape of the header's witnesses.
pub fn fresh_witness(alloc: Global, header: &Header, number: u32) -> Result<WitnessNode, NoMemory>
    ensures number { IfOk result (λ w. w.number ≡ number) }
    ensures state { IfOk result (λ w. w.state ≡ fresh_witness header.now.sets header.now.ways) }
{
    match WitnessNode::fresh(alloc, number, header.sets, header.ways) {
        Ok(witness) => Ok(witness),
        // The header's shape is in range.
        Err(BadShape) => Err(AllocError),
    }
}

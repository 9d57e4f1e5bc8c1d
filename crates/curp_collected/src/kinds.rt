//! The journals of each kind of node.
ghost use Rattle.std.specs.Prelude.{◌≡◌, ◌*◌, ◌+◌, ◌<◌, ◌^◌, length, IfOk, IfErr};
ghost use Rattle.curp_cmd.specs.declared.node.NodeKind.TheVariants as kind;
ghost use Rattle.curp_gather.specs.Journals.{IsBackupJournal, IsClientJournal, IsManagerJournal, IsMasterJournal, IsWitnessJournal};
ghost use Rattle.curp_model.specs.Backup.{fresh_backup};
ghost use Rattle.curp_model.specs.Client.{fresh_client};
ghost use Rattle.curp_model.specs.Manager.{opening_config};
ghost use Rattle.curp_model.specs.Recovery.{Fresh};
ghost use Rattle.curp_model.specs.Witness.{fresh_witness};
ghost use Rattle.curp_model.specs.World.{opening, opening_client, shape_of};
ghost use Rattle.curp_client.specs.Machine.{client_machine};
ghost use Rattle.curp_config.specs.Machine.{manager_machine};
ghost use Rattle.curp_base.specs.Failing.{IfBecause};
ghost use Rattle.curp_nodes.specs.Machines.{backup_machine, master_machine, witness_machine};
ghost use Rattle.curp_collected.specs.Causes.{IsCause};
ghost use Rattle.curp_collected.specs.Files.{AreOfHeader, contents_of};
ghost use Rattle.curp_collected.specs.Kinds.{AreBegun, AreOfKind, AreThere, IsManagerOf};

use crate::CollectError;
use crate::beginning::{Beginning, numbered};
use crate::files::{Files, next_number};
use crate::replaying::{journal_of, journals_of};
use curp_anew::fresh_witness;
use curp_base::{Failed, NoMemory};
use curp_cmd::{NodeId, NodeKind};
use curp_journal::Origin;
use curp_msg::Config;
use curp_nodes::{BackupNode, ClientNode, ManagerNode, MasterNode, WitnessNode};
use curp_seat::Kept;

/// The manager's journal.
pub(crate) fn manager(
    files: &Files<'_>,
    manager: ManagerNode,
) -> Result<Kept<ManagerNode>, Failed<CollectError>>
    requires files { AreOfHeader files.now }
    requires manager { manager ≡ (opening files.now.header).manager }
    ensures log { IfOk result
        (IsManagerOf (contents_of files.now.each.items) files.now.until files.now.header) }
    ensures cause { IfErr result (IfBecause (IsCause (contents_of files.now.each.items))) }
{
    let beginning = Beginning {
        id: NodeId::manager(),
        origin: Origin::Opening,
        node: manager,
    };
    match journal_of(files, beginning)? {
        Some(log) => Ok(log),
        None => unreachable!(),
    }
}

/// The journals of the clients, which all are there before any step.
pub(crate) fn clients(
    files: &Files<'_>,
    config: &Config,
) -> Result<Vec<Kept<ClientNode>>, Failed<CollectError>>
    requires files { AreOfHeader files.now }
    requires config { config.now ≡ opening_config (shape_of files.now.header) }
    ensures logs { IfOk result (λ logs. AreOfKind kind.Client client_machine (IsClientJournal files.now.header)
        (contents_of files.now.each.items) files.now.until files.now.header logs.items) }
    ensures cause { IfErr result (IfBecause (IsCause (contents_of files.now.each.items))) }
{
    let nodes = curp_nodes::clients(files.alloc, &files.header, config)?;
    let begun = numbered(files.alloc, NodeKind::Client, nodes)?;
    journals_of(files, begun)
}

/// The journals of the masters.
pub(crate) fn masters(
    files: &Files<'_>,
    config: &Config,
) -> Result<Vec<Kept<MasterNode>>, Failed<CollectError>>
    requires files { AreOfHeader files.now }
    requires config { config.now ≡ opening_config (shape_of files.now.header) }
    ensures logs { IfOk result (λ logs. AreOfKind kind.Master master_machine (IsMasterJournal files.now.header)
        (contents_of files.now.each.items) files.now.until files.now.header logs.items) }
    ensures cause { IfErr result (IfBecause (IsCause (contents_of files.now.each.items))) }
{
    let nodes = curp_nodes::masters(files.alloc, &files.header, config)?;
    let begun = numbered(files.alloc, NodeKind::Master, nodes)?;
    let begun = with_fresh_masters(files, files.header.parts, begun)?;
    journals_of(files, begun)
}

/// The journals of the backups.
pub(crate) fn backups(files: &Files<'_>) -> Result<Vec<Kept<BackupNode>>, Failed<CollectError>>
    requires { AreOfHeader files.now }
    ensures logs { IfOk result (λ logs. AreOfKind kind.Backup backup_machine (IsBackupJournal files.now.header)
        (contents_of files.now.each.items) files.now.until files.now.header logs.items) }
    ensures cause { IfErr result (IfBecause (IsCause (contents_of files.now.each.items))) }
{
    let count = files.header.parts * files.header.f;
    let nodes = curp_nodes::backups(files.alloc, count)?;
    let begun = numbered(files.alloc, NodeKind::Backup, nodes)?;
    let begun = with_fresh_backups(files, count, begun)?;
    journals_of(files, begun)
}

/// The journals of the witnesses.
pub(crate) fn witnesses(files: &Files<'_>) -> Result<Vec<Kept<WitnessNode>>, Failed<CollectError>>
    requires { AreOfHeader files.now }
    ensures logs { IfOk result (λ logs. AreOfKind kind.Witness witness_machine (IsWitnessJournal files.now.header)
        (contents_of files.now.each.items) files.now.until files.now.header logs.items) }
    ensures cause { IfErr result (IfBecause (IsCause (contents_of files.now.each.items))) }
{
    let header = &files.header;
    let count = header.parts * header.f;
    let nodes = curp_nodes::witnesses(files.alloc, count, header.sets, header.ways)?;
    let begun = numbered(files.alloc, NodeKind::Witness, nodes)?;
    let begun = with_fresh_witnesses(files, count, begun)?;
    journals_of(files, begun)
}

/// The masters that are there, and behind them those of which there are files.
fn with_fresh_masters(
    files: &Files<'_>,
    there: u32,
    mut begun: Vec<Beginning<MasterNode>>,
) -> Result<Vec<Beginning<MasterNode>>, NoMemory>
    requires files { AreOfHeader files.now }
    requires there { there ≡ length (opening files.now.header).masters }
    requires begun { AreThere kind.Master (opening files.now.header).masters begun.items }
    ensures { IfOk result (λ begun.
        AreBegun kind.Master (opening files.now.header).masters Fresh files.now.each.items begun.items) }
{
    let mut last = there;
    'numbers: loop {
        match next_number(&files.each, NodeKind::Master, last) {
            Some(number) => {
                let node = MasterNode::fresh(files.alloc, number);
                begun.push(fresh(NodeId::master(number), node))?;
                last = number;
            }
            None => return Ok(begun),
        }
    }
}

/// The backups that are there, and behind them those of which there are files.
fn with_fresh_backups(
    files: &Files<'_>,
    there: u32,
    mut begun: Vec<Beginning<BackupNode>>,
) -> Result<Vec<Beginning<BackupNode>>, NoMemory>
    requires files { AreOfHeader files.now }
    requires there { there ≡ length (opening files.now.header).backups }
    requires begun { AreThere kind.Backup (opening files.now.header).backups begun.items }
    ensures { IfOk result (λ begun.
        AreBegun kind.Backup (opening files.now.header).backups fresh_backup files.now.each.items begun.items) }
{
    let mut last = there;
    'numbers: loop {
        match next_number(&files.each, NodeKind::Backup, last) {
            Some(number) => {
                let node = BackupNode::fresh(files.alloc, number);
                begun.push(fresh(NodeId::backup(number), node))?;
                last = number;
            }
            None => return Ok(begun),
        }
    }
}

/// The witnesses that are there, and behind them those of which there are files.
fn with_fresh_witnesses(
    files: &Files<'_>,
    there: u32,
    mut begun: Vec<Beginning<WitnessNode>>,
) -> Result<Vec<Beginning<WitnessNode>>, NoMemory>
    requires files { AreOfHeader files.now }
    requires there { there ≡ length (opening files.now.header).witnesses }
    requires begun { AreThere kind.Witness (opening files.now.header).witnesses begun.items }
    ensures { IfOk result (λ begun. AreBegun kind.Witness (opening files.now.header).witnesses
        (fresh_witness files.now.header.sets files.now.header.ways) files.now.each.items begun.items) }
{
    let mut last = there;
    'numbers: loop {
        match next_number(&files.each, NodeKind::Witness, last) {
            Some(number) => {
                let node = fresh_witness(files.alloc, &files.header, number)?;
                begun.push(fresh(NodeId::witness(number), node))?;
                last = number;
            }
            None => return Ok(begun),
        }
    }
}

/// A node that isn't there before any step.
fn fresh<N>(id: NodeId, node: N) -> Beginning<N>
    ensures { result ≡ record { id = id; origin = Origin.Fresh; node = node } }
{
    Beginning {
        id,
        origin: Origin::Fresh,
        node,
    }
}

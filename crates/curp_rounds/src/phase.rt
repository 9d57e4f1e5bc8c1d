ghost use Rattle.std.specs.Prelude.{◌≡◌, ◌++◌, ◌||◌, ◌&&◌, not, filter, IfOk, OnOk};
ghost use Rattle.curp_cmd.specs.Node.{is_among};
ghost use Rattle.curp_model.specs.Master as master;
ghost use Rattle.curp_model.specs.Master.{all_have, fresh_backups};
ghost use Rattle.curp_rounds.specs.Phases.{phase_of, ready_version, told, told_version};

use crate::heard::Heard;
use curp_base::{Items, NoMemory};
use curp_cmd::NodeId;
use std::alloc::Global;

/// Whether the master is open to requests.
#[derive(Drop)]
pub enum MasterPhase {
    /// It is.
    Open,
    /// It takes up new lists.
    Switching(Switch),
}

/// The lists that a master takes up next.
#[derive(Drop)]
pub struct Switch {
    /// The lists' version.
    pub version: u32,
    /// The backups of the list.
    pub backups: Items<NodeId>,
    /// The witnesses of the list.
    pub witnesses: Items<NodeId>,
    /// The round that each of these backups has to acknowledge.
    pub round: u64,
    /// Whether the manager was told that they have the log.
    pub prepared: bool,
}

impl MasterPhase {
    /// Whether it is open.
    pub fn is_open(&self) -> bool
        ensures { result ≡ master.is_open (phase_of self.now) }
    {
        match self {
            MasterPhase::Open => true,
            MasterPhase::Switching(_) => false,
        }
    }

    /// Whether a round goes to the backup, where these are the backups of the list.
    pub fn stores_on(&self, backups: &[NodeId], backup: &NodeId) -> bool
        ensures { result ≡ is_among backup.now (backups.now ++ fresh_backups (phase_of self.now) backups.now) }
    {
        match self {
            MasterPhase::Open => is_among(backup, backups),
            MasterPhase::Switching(switch) => {
                is_among(backup, backups) || is_among(backup, switch.backups.as_slice())
            }
        }
    }

    /// The backups to which a round goes, where these are the backups of the list.
    pub fn stored_on(&self, alloc: Global, backups: &[NodeId]) -> Result<Vec<NodeId>, NoMemory>
        ensures { IfOk result (λ all. all.items ≡ backups.now ++ fresh_backups (phase_of self.now) backups.now) }
    {
        let mut all = Vec::from_slice(alloc, backups)?;
        if let MasterPhase::Switching(switch) = self {
            add_fresh(&mut all, switch.backups.as_slice(), backups)?;
        }
        Ok(all)
    }

    /// The version of the next list, if the manager was told that it has the log.
    pub fn told_version(&self) -> Option<u32>
        ensures { result ≡ told_version (phase_of self.now) }
    {
        match self {
            MasterPhase::Switching(switch) if switch.prepared => Some(switch.version),
            _ => None,
        }
    }

    /// The version of the next list, if each of its backups has a log of that length and the manager wasn't told so.
    pub fn ready_version(&self, long: u64, heard: &Heard<'_>) -> Option<u32>
        ensures { result ≡ ready_version long heard.now (phase_of self.now) }
    {
        match self {
            MasterPhase::Switching(switch) if switch.is_ready(long, heard) => Some(switch.version),
            _ => None,
        }
    }

    /// The manager was told that the next list has the log.
    pub fn note_prepared(&mut self)
        ensures { phase_of self.new ≡ told (phase_of self.old) }
    {
        if let MasterPhase::Switching(switch) = self {
            switch.prepared = true;
        }
    }
}

impl Switch {
    fn is_ready(&self, long: u64, heard: &Heard<'_>) -> bool
        ensures { result
            ≡ (not self.now.prepared && all_have heard.now self.now.backups long self.now.round) }
    {
        !self.prepared && heard.all_have(self.backups.as_slice(), long, self.round)
    }
}

// Adds those of the next list that aren't among the backups.
fn add_fresh(all: &mut Vec<NodeId>, next: &[NodeId], backups: &[NodeId]) -> Result<(), NoMemory>
    ensures { OnOk result (all.new.items ≡ all.old.items ++ filter (λ b. not (is_among b backups.now)) next.now) }
{
    for backup in next {
        if is_fresh(backup, backups) {
            all.push(*backup)?;
        }
    }
    Ok(())
}

fn is_among(node: &NodeId, nodes: &[NodeId]) -> bool
    ensures { result ≡ is_among node.now nodes.now }
{
    nodes.contains(node)
}

fn is_fresh(node: &NodeId, backups: &[NodeId]) -> bool
    ensures { result ≡ not (is_among node.now backups.now) }
{
    !backups.contains(node)
}

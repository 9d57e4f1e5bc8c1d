ghost use Rattle.std.specs.Prelude.{◌≡◌, IfOk};

use curp_base::{Items, NoMemory, TryCopy};
use curp_cmd::NodeId;
use curp_range::Spans;
use std::alloc::Global;

/// Which nodes serve which hashes. One with a higher serial is newer.
pub struct Config {
    pub serial: u32,
    pub parts: Items<PartConfig>,
}

impl Drop for Config {
    fn drop(self) {
        let Config {
            serial: _,
            parts: _,
        } = self;
    }
}

/// The nodes of a partition, and the hashes that it owns.
pub struct PartConfig {
    /// Partitions are numbered from 1.
    pub part: u32,
    pub epoch: u32,
    /// The version of the two lists.
    pub version: u32,
    pub master: NodeId,
    pub backups: Items<NodeId>,
    pub witnesses: Items<NodeId>,
    pub ranges: Spans,
}

impl Drop for PartConfig {
    fn drop(self) {
        let PartConfig {
            part: _,
            epoch: _,
            version: _,
            master: _,
            backups: _,
            witnesses: _,
            ranges: _,
        } = self;
    }
}

impl Config {
    pub fn copy(&self, alloc: Global) -> Result<Config, NoMemory>
        ensures { IfOk result (λ copy. copy ≡ self.now) }
    {
        Ok(Config {
            serial: self.serial,
            parts: self.parts.try_copy(alloc)?,
        })
    }
}

impl PartConfig {
    pub fn copy(&self, alloc: Global) -> Result<PartConfig, NoMemory>
        ensures { IfOk result (λ copy. copy ≡ self.now) }
    {
        Ok(PartConfig {
            part: self.part,
            epoch: self.epoch,
            version: self.version,
            master: self.master,
            backups: self.backups.copy(alloc)?,
            witnesses: self.witnesses.copy(alloc)?,
            ranges: self.ranges.copy(alloc)?,
        })
    }
}

impl TryCopy for PartConfig {
    fn try_copy(&self, alloc: Global) -> Result<PartConfig, NoMemory> {
        self.copy(alloc)
    }
}

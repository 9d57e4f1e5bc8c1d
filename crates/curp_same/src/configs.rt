//! Configurations, and what the manager sends with them.
use crate::Same;
use curp_msg::{Config, PartConfig, Prepare, Recover};

impl Same for PartConfig {
    fn same(&self, other: &PartConfig) -> bool {
        self.part == other.part
            && self.epoch == other.epoch
            && self.version == other.version
            && self.master.same(&other.master)
            && self.backups.same(&other.backups)
            && self.witnesses.same(&other.witnesses)
            && self.ranges.same(&other.ranges)
    }
}

impl Same for Config {
    fn same(&self, other: &Config) -> bool {
        self.serial == other.serial && self.parts.same(&other.parts)
    }
}

impl Same for Recover {
    fn same(&self, other: &Recover) -> bool {
        self.part == other.part
            && self.epoch == other.epoch
            && self.version == other.version
            && self.backup.same(&other.backup)
            && self.witness.same(&other.witness)
            && self.backups.same(&other.backups)
            && self.witnesses.same(&other.witnesses)
            && self.lo == other.lo
            && self.hi == other.hi
    }
}

impl Same for Prepare {
    fn same(&self, other: &Prepare) -> bool {
        self.version == other.version
            && self.backups.same(&other.backups)
            && self.witnesses.same(&other.witnesses)
    }
}

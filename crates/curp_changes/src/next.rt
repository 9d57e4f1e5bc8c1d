// The numbers that were never given.
ghost use Rattle.std.specs.Prelude.{◌≡◌, ◌+◌, ◌*◌, ◌<◌};
ghost use Rattle.curp_changes.specs.Work.{AreNext, after_migrate, after_recover};
ghost use Rattle.curp_model.specs.Manager as model;

use crate::Shape;
use curp_cmd::Keeper;
use std::marker::Model;

/// The next numbers. Each of them is given once.
pub struct Next {
    pub epoch: u32,
    pub version: u32,
    pub master: u32,
    pub backup: u32,
    pub witness: u32,
    pub migration: u32,
}

impl Drop for Next {
    fn drop(self) {
        let Next {
            epoch: _,
            version: _,
            master: _,
            backup: _,
            witness: _,
            migration: _,
        } = self;
    }
}

impl Model for Next {
    ghost use Rattle.curp_model.specs.Manager as model;

    ghost Value = { model.Next };

    ghost view = { λ n. record {
      epoch = n.epoch;
      version = n.version;
      master = n.master;
      backup = n.backup;
      witness = n.witness;
      migration = n.migration;
    } };
}

impl Next {
    /// The same numbers.
    pub fn copy(&self) -> Next
        ensures { result ≡ self.now }
    {
        Next {
            epoch: self.epoch,
            version: self.version,
            master: self.master,
            backup: self.backup,
            witness: self.witness,
            migration: self.migration,
        }
    }

    /// The numbers that the opening has left.
    pub fn opening(shape: &Shape) -> Next
        requires masters { shape.now.parts < u32.MAX }
        requires keepers { shape.now.parts * shape.now.f < u32.MAX }
        ensures { result ≡ (model.opening_manager shape.now).next }
    {
        let keepers = shape.parts * shape.f;
        Next {
            epoch: 2,
            version: 2,
            master: shape.parts + 1,
            backup: keepers + 1,
            witness: keepers + 1,
            migration: 1,
        }
    }

    /// The numbers that a recovery leaves, if there are enough.
    pub fn after_recover(&self, f: u32) -> Option<Next>
        ensures { AreNext self.now (after_recover self.now f) result }
    {
        Some(Next {
            epoch: self.epoch.checked_add(1)?,
            version: self.version.checked_add(1)?,
            master: self.master.checked_add(1)?,
            backup: self.backup.checked_add(f)?,
            witness: self.witness.checked_add(f)?,
            migration: self.migration,
        })
    }

    /// The numbers that a replacement leaves, if there are enough.
    pub fn after_replace(&self, kind: Keeper) -> Option<Next>
        ensures { AreNext self.now (model.after_replace_numbers self.now kind) result }
    {
        let version = self.version.checked_add(1)?;
        let (backup, witness) = match kind {
            Keeper::Backup => (self.backup.checked_add(1)?, self.witness),
            Keeper::Witness => (self.backup, self.witness.checked_add(1)?),
        };
        Some(Next {
            epoch: self.epoch,
            version,
            master: self.master,
            backup,
            witness,
            migration: self.migration,
        })
    }

    /// The numbers that a migration leaves, if there are enough.
    pub fn after_migrate(&self) -> Option<Next>
        ensures { AreNext self.now (after_migrate self.now) result }
    {
        Some(Next {
            epoch: self.epoch,
            version: self.version,
            master: self.master,
            backup: self.backup,
            witness: self.witness,
            migration: self.migration.checked_add(1)?,
        })
    }
}

// Migrations: how they are ordered, and how they end.
ghost use Rattle.std.specs.Prelude.{◌≡◌, ◌≤◌, OnOk, IfOk, IfErr, Ok, Err};
ghost use Rattle.std.specs.Option.{option_copied};
ghost use Rattle.curp_config.specs.Refusals.{NamesMigration, migrate_number};
ghost use Rattle.curp_changes.specs.Work.{AreNext, after_migrate};
ghost use Rattle.curp_config.specs.Work.{IsMove};
ghost use Rattle.curp_model.specs.Manager as model;
ghost use Rattle.curp_msg.specs.declared.machine.Local.TheVariants as local;
ghost use Rattle.curp_msg.specs.Moved.{Moves};
ghost use Rattle.curp_base.specs.Failing.{IfBecause};
ghost use Rattle.curp_msg.specs.Told.{Tells};

use crate::{Manager, MigrateError};
use curp_base::{Failed, NoMemory};
use curp_changes::messages::{give_message, one, take_message};
use curp_changes::{Migration, Next, move_range};
use curp_msg::{Done, Parcel, PartConfig};

impl Manager {
    /// The hashes from `lo` to `hi`, both counted, are to move to a partition. One migration is made at a time.
    #[tactic(auto, using(crate::proofs::Ordered::migrating))]
    pub fn migrate(&mut self, lo: u64, hi: u64, to: u32) -> Result<Done, Failed<MigrateError>>
        ensures moves { Moves self.old self.new result (model.manager_ordered self.old (local.Migrate lo hi to)) }
        ensures refused { Tells migrate_number (model.manager_ordered self.old (local.Migrate lo hi to)).refused result }
        ensures named { IfErr result (IfBecause (NamesMigration self.old.moving)) }
    {
        let next = self.numbers_after_migration();
        let (owner, target) = match self.movable(lo, hi, to) {
            Ok(parts) => parts,
            Err(why) => return Err(Failed::Because(why)),
        };
        let Some(next) = next else {
            return Ok(Done::quiet(self.alloc));
        };
        let number = self.fresh_migration();
        let migration = Migration {
            number,
            lo,
            hi,
            source: owner.part,
            target: target.part,
            moved: None,
        };
        let messages = one(self.alloc, take_message(owner, &migration))?;
        self.moving = Some(migration);
        self.next = next;
        Ok(Done::sends(messages))
    }

    fn numbers_after_migration(&self) -> Option<Next>
        ensures { AreNext self.now.next (after_migrate self.now.next) result }
    {
        self.next.after_migrate()
    }

    fn fresh_migration(&self) -> u32
        ensures { result ≡ self.now.next.migration }
    {
        self.next.migration
    }

    // The partition that owns a range, and the one to which it is to move.
    fn movable(&self, lo: u64, hi: u64, to: u32) -> Result<(&PartConfig, &PartConfig), MigrateError>
        ensures ordered { OnOk result (lo ≤ hi) }
        ensures ok { IfOk result (λ r. IsMove (model.move_for self.now lo hi to) lo hi r.0.now r.1.now) }
        ensures err { IfErr result (λ why. model.move_for self.now lo hi to ≡ Err (migrate_number why)) }
        ensures named { IfErr result (NamesMigration self.now.moving) }
    {
        if lo > hi {
            return Err(MigrateError::BadRange);
        }
        let target = self.part(to).ok_or(MigrateError::NoPart)?;
        if owns_range(target, lo, hi) {
            return Err(MigrateError::SameOwner);
        }
        let Some(owner) = self.owner_of_range(lo, hi) else {
            return Err(MigrateError::SplitOwner);
        };
        match &self.moving {
            Some(migration) => Err(MigrateError::Moving {
                id: migration.number,
            }),
            None => Ok((owner, target)),
        }
    }

    // The first partition that owns a whole range.
    fn owner_of_range(&self, lo: u64, hi: u64) -> Option<&PartConfig>
        ensures { option_copied result ≡ model.owner_of_range self.now lo hi }
    {
        let parts = self.config.parts.as_slice();
        parts.iter().find(|part| owns_range(part, lo, hi))
    }

    /// A master has given a range away. The package of the migration in work is kept, and goes to the target's master,
    /// each time that it comes.
    #[tactic(auto, using(crate::proofs::Ends::stands), unfolding(curp_model::specs::Manager::on_taken))]
    pub(crate) fn on_taken(&mut self, parcel: &Parcel) -> Result<Done, NoMemory>
        ensures { Moves self.old self.new result
            (model.unless_numbers_end self.old (model.on_taken self.old parcel.now)) }
    {
        let Some(migration) = &self.moving else {
            return Ok(Done::quiet(self.alloc));
        };
        if migration.number != parcel.migration {
            return Ok(Done::quiet(self.alloc));
        }
        let Some(target) = self.part(migration.target) else {
            return Ok(Done::quiet(self.alloc));
        };
        let message = give_message(self.alloc, target, migration.number, &parcel.package)?;
        let messages = one(self.alloc, message)?;
        let package = parcel.package.share()?;
        if let Some(migration) = &mut self.moving {
            migration.take(package);
        }
        Ok(Done::sends(messages))
    }

    /// A master has taken a range over. The range belongs to the target from then on.
    #[tactic(auto, using(crate::proofs::Ends::serial_rises), unfolding(curp_model::specs::Manager::on_given))]
    pub(crate) fn on_given(&mut self, number: u32) -> Result<Done, NoMemory>
        ensures { Moves self.old self.new result
            (model.unless_numbers_end self.old (model.on_given self.old number)) }
    {
        let Some(migration) = &self.moving else {
            return Ok(Done::quiet(self.alloc));
        };
        if migration.number != number {
            return Ok(Done::quiet(self.alloc));
        }
        let Some(serial) = self.config.serial.checked_add(1) else {
            return Ok(Done::quiet(self.alloc));
        };
        move_range(self.alloc, &mut self.config.parts, migration)?;
        self.config.serial = serial;
        self.moving = None;
        Ok(Done::quiet(self.alloc))
    }
}

// Whether a partition owns a whole range.
fn owns_range(part: &PartConfig, lo: u64, hi: u64) -> bool
    ensures { result ≡ model.owns_range lo hi part.now }
{
    let spans = part.ranges.as_slice();
    spans.iter().any(|span| span.0 <= lo && hi <= span.1)
}

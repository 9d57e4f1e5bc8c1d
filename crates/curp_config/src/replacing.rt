// Replacements: how they are ordered, and how they end.
ghost use Rattle.std.specs.Prelude.{◌≡◌, ◌≤◌, OnOk, IfOk, IfErr, IfSome, Ok, Err};
ghost use Rattle.std.specs.Option.{option_copied, option_map};
ghost use Rattle.curp_base.specs.Words.{numbered};
ghost use Rattle.curp_config.specs.Parts.{IsNumbered, prepared_part};
ghost use Rattle.curp_config.specs.Refusals.{NamesWork, replace_number};
ghost use Rattle.curp_changes.specs.Work.{AreNext};
ghost use Rattle.curp_config.specs.Work.{in_work, lists_of};
ghost use Rattle.curp_model.specs.Manager as model;
ghost use Rattle.curp_msg.specs.declared.machine.Local.TheVariants as local;
ghost use Rattle.curp_msg.specs.Moved.{Moves};
ghost use Rattle.curp_base.specs.Failing.{IfBecause};
ghost use Rattle.curp_msg.specs.Told.{Tells};

use crate::{Manager, ReplaceError};
use curp_base::{Failed, Items, NoMemory};
use curp_changes::messages::replace_messages;
use curp_changes::names::{numbered, put_numbered};
use curp_changes::{Doing, Next, Replacement, Work};
use curp_cmd::{Keeper, NodeId};
use curp_msg::{Done, PartConfig};

impl Manager {
    /// The backup or the witness at a place of a partition's adopted list, counted from 1, is to be replaced by a fresh
    /// one. One that takes its place isn't in the configuration before the partition's master has prepared for it.
    #[tactic(auto, using(crate::proofs::Ordered::replacing))]
    pub fn replace(
        &mut self,
        part: u32,
        kind: Keeper,
        place: u32,
    ) -> Result<Done, Failed<ReplaceError>>
        ensures moves { Moves self.old self.new result
            (model.manager_ordered self.old (local.Replace kind part place)) }
        ensures refused { Tells replace_number (model.manager_ordered self.old (local.Replace kind part place)).refused result }
        ensures named { IfErr result (IfBecause (NamesWork (numbered self.old.doing part))) }
    {
        let next = self.numbers_after_replacement(kind);
        let entry = match self.replaceable(part, kind, place) {
            Ok(entry) => entry,
            Err(why) => return Err(Failed::Because(why)),
        };
        let Some(next) = next else {
            return Ok(Done::quiet(self.alloc));
        };
        let lists = self.new_lists(entry, kind, place)?;
        let messages = replace_messages(self.alloc, entry, &lists)?;
        self.set_work(part, Work::replacing(lists));
        self.next = next;
        Ok(Done::sends(messages))
    }

    fn numbers_after_replacement(&self, kind: Keeper) -> Option<Next>
        ensures { AreNext self.now.next (model.after_replace_numbers self.now.next kind) result }
    {
        self.next.after_replace(kind)
    }

    // The adopted entry of a partition with that place, with which nothing is being done.
    fn replaceable(&self, part: u32, kind: Keeper, place: u32) -> Result<&PartConfig, ReplaceError>
        ensures ok { IfOk result (λ c. model.replacement_for self.now kind part place ≡ Ok c.now) }
        ensures numbered { OnOk result ((1 ≤ part) × (1 ≤ place)) }
        ensures err { IfErr result (λ why. model.replacement_for self.now kind part place ≡ Err (replace_number why)) }
        ensures named { IfErr result (NamesWork (numbered self.now.doing part)) }
    {
        let entry = self.part(part).ok_or(ReplaceError::NoPart)?;
        if numbered(keepers_of(entry, kind), place).is_none() {
            return Err(ReplaceError::NoPlace);
        }
        match self.work(part).map(|work| work.doing()) {
            Some(Doing::Recovering(attempt)) => Err(ReplaceError::Recovering {
                epoch: attempt.order.get().epoch,
            }),
            Some(Doing::Replacing(lists)) => Err(ReplaceError::Replacing {
                version: lists.version,
            }),
            _ => Ok(entry),
        }
    }

    // New lists with the next fresh node at a place.
    fn new_lists(
        &self,
        entry: &PartConfig,
        kind: Keeper,
        place: u32,
    ) -> Result<Replacement, NoMemory>
        requires { 1 ≤ place }
        ensures { IfOk result (λ lists. lists ≡ lists_of self.now entry.now kind place) }
    {
        let fresh = match kind {
            Keeper::Backup => NodeId::backup(self.next.backup),
            Keeper::Witness => NodeId::witness(self.next.witness),
        };
        let mut backups = Vec::from_slice(self.alloc, entry.backups.as_slice())?;
        let mut witnesses = Vec::from_slice(self.alloc, entry.witnesses.as_slice())?;
        match kind {
            Keeper::Backup => put_numbered(&mut backups, place, fresh),
            Keeper::Witness => put_numbered(&mut witnesses, place, fresh),
        }
        Ok(Replacement {
            kind,
            fresh,
            version: self.next.version,
            backups: Items::new(backups),
            witnesses: Items::new(witnesses),
        })
    }

    /// A master has its whole log on the backups of the lists of that version, whichever master says so.
    #[tactic(auto, using(crate::proofs::Ends::stands), unfolding(curp_model::specs::Manager::on_prepared))]
    pub(crate) fn on_prepared(&mut self, version: u32) -> Result<Done, NoMemory>
        ensures { Moves self.old self.new result
            (model.unless_numbers_end self.old (model.on_prepared self.old version)) }
    {
        match self.prepared_part(version)? {
            Some(entry) => self.adopt(entry.part, entry),
            None => self.tell_again(self.adopted_lists(version)),
        }
    }

    // The first partition whose adopted lists have that version.
    fn adopted_lists(&self, version: u32) -> Option<&PartConfig>
        ensures { option_copied result ≡ model.version_adopted self.now version }
    {
        let parts = self.config.parts.as_slice();
        parts.iter().find(|part| part.version == version)
    }

    // The entry of the first partition that is being given lists of that version, with the lists.
    fn prepared_part(&self, version: u32) -> Result<Option<PartConfig>, NoMemory>
        ensures part { IfOk result (λ found. found
            ≡ option_map prepared_part (model.version_in_work self.now version)) }
        ensures numbered { IfOk result (λ found. IfSome found (IsNumbered self.now.shape.parts)) }
    {
        for part in self.config.parts.as_slice() {
            if let Some(lists) = self.lists_of(part.part, version) {
                return Ok(Some(self.with_lists(part, lists)?));
            }
        }
        Ok(None)
    }

    // The lists of that version, if a partition is being given them.
    fn lists_of(&self, part: u32, version: u32) -> Option<&Replacement>
        ensures { (c : PartConfig) → option_map (in_work c) (option_copied result)
            ≡ model.lists_in_work version c (numbered self.now.doing part) }
    {
        match self.work(part)?.doing() {
            Doing::Replacing(lists) if lists.version == version => Some(lists),
            _ => None,
        }
    }

    // A partition's entry with new lists.
    fn with_lists(&self, part: &PartConfig, lists: &Replacement) -> Result<PartConfig, NoMemory>
        ensures { IfOk result (λ entry. entry ≡ prepared_part (in_work part.now lists.now)) }
    {
        Ok(PartConfig {
            part: part.part,
            epoch: part.epoch,
            version: lists.version,
            master: part.master,
            backups: lists.backups.copy(self.alloc)?,
            witnesses: lists.witnesses.copy(self.alloc)?,
            ranges: part.ranges.copy(self.alloc)?,
        })
    }
}

fn keepers_of(part: &PartConfig, kind: Keeper) -> &[NodeId]
    ensures { result.now ≡ model.keepers_of part.now kind }
{
    match kind {
        Keeper::Backup => part.backups.as_slice(),
        Keeper::Witness => part.witnesses.as_slice(),
    }
}

// Recoveries: how they are ordered, and how they end.
ghost use Rattle.std.specs.Prelude.{◌≡◌, ◌+◌, ◌≤◌, IfOk, IfErr, IfSome, Ok, Err};
ghost use Rattle.std.specs.Option.{option_copied, option_map};
ghost use Rattle.curp_base.specs.Words.{numbered};
ghost use Rattle.curp_config.specs.Parts.{IsNumbered};
ghost use Rattle.curp_config.specs.Refusals.{NamesPlaces, recover_number};
ghost use Rattle.curp_changes.specs.Work.{AreNext};
ghost use Rattle.curp_config.specs.Work.{attempted};
ghost use Rattle.curp_cmd.specs.Node.{master_node};
ghost use Rattle.curp_model.specs.Manager as model;
ghost use Rattle.curp_msg.specs.declared.machine.Local.TheVariants as local;
ghost use Rattle.curp_msg.specs.Moved.{Moves};
ghost use Rattle.curp_base.specs.Failing.{IfBecause};
ghost use Rattle.curp_msg.specs.Told.{Tells};

use crate::{Manager, RecoverError};
use curp_base::{Boxed, Failed, Items, NoMemory};
use curp_changes::messages::recover_messages;
use curp_changes::names::{backup_names, numbered, witness_names};
use curp_changes::{Attempt, Doing, Next, Work, opening_hashes};
use curp_cmd::NodeId;
use curp_msg::{Body, Done, Message, PartConfig, Recover, Recovered};

/// What a recovery reads: the partition's adopted entry, and one backup and one witness of it.
#[derive(Clone, Copy)]
pub(crate) struct Sources<'a> {
    pub(crate) part: &'a PartConfig,
    pub(crate) backup: NodeId,
    pub(crate) witness: NodeId,
}

impl Manager {
    /// A partition is to be recovered from the backup and the witness at these places of its adopted lists, counted
    /// from 1 (CURP: one backup and one witness are enough). A recovery or a replacement that isn't finished is given up.
    #[tactic(auto, using(crate::proofs::Ordered::recovering))]
    pub fn recover(
        &mut self,
        part: u32,
        backup: u32,
        witness: u32,
    ) -> Result<Done, Failed<RecoverError>>
        ensures moves { Moves self.old self.new result
            (model.manager_ordered self.old (local.Recover part backup witness)) }
        ensures refused { Tells recover_number
            (model.manager_ordered self.old (local.Recover part backup witness)).refused result }
        ensures named { IfErr result (IfBecause (NamesPlaces backup witness)) }
    {
        let next = self.numbers_after_recovery();
        let sources = match self.sources(part, backup, witness) {
            Ok(sources) => sources,
            Err(why) => return Err(Failed::Because(why)),
        };
        let Some(next) = next else {
            return Ok(Done::quiet(self.alloc));
        };
        let order = self.recover_order(&sources)?;
        let master = self.fresh_master();
        let messages = recover_messages(self.alloc, master, &order)?;
        self.set_work(part, Work::recovering(Attempt { master, order }));
        self.next = next;
        Ok(Done::sends(messages))
    }

    // What a recovery reads, or why there is none.
    fn sources(&self, part: u32, backup: u32, witness: u32) -> Result<Sources<'_>, RecoverError>
        ensures ok { IfOk result (λ s. model.recovery_for self.now part backup witness
            ≡ Ok (model.recover_order self.now s.part.now s.backup s.witness)) }
        ensures numbered { IfOk result (λ s. (1 ≤ part) × IsNumbered self.now.shape.parts s.part.now) }
        ensures err { IfErr result (λ why. model.recovery_for self.now part backup witness ≡ Err (recover_number why)) }
        ensures named { IfErr result (NamesPlaces backup witness) }
    {
        let part = self.part(part).ok_or(RecoverError::NoPart)?;
        let Some(from) = numbered(part.backups.as_slice(), backup) else {
            return Err(RecoverError::NoBackup { place: backup });
        };
        let Some(other) = numbered(part.witnesses.as_slice(), witness) else {
            return Err(RecoverError::NoWitness { place: witness });
        };
        Ok(Sources {
            part,
            backup: *from,
            witness: *other,
        })
    }

    fn numbers_after_recovery(&self) -> Option<Next>
        ensures { AreNext self.now.next (model.after_recover_numbers self.now) result }
    {
        self.next.after_recover(self.shape.f)
    }

    fn fresh_master(&self) -> NodeId
        ensures { result ≡ master_node self.now.next.master }
    {
        NodeId::master(self.next.master)
    }

    // The order to a fresh master, with the next numbers.
    fn recover_order(&self, sources: &Sources<'_>) -> Result<Boxed<Recover>, NoMemory>
        requires part { IsNumbered self.now.shape.parts sources.now.part.now }
        requires backups { self.now.next.backup + self.now.shape.f ≤ u32.MAX }
        requires witnesses { self.now.next.witness + self.now.shape.f ≤ u32.MAX }
        ensures { IfOk result (λ order. order
            ≡ model.recover_order self.now sources.now.part.now sources.now.backup sources.now.witness) }
    {
        let f = self.shape.f;
        let (lo, hi) = opening_hashes(self.shape.parts, sources.part.part);
        let order = Recover {
            part: sources.part.part,
            epoch: self.next.epoch,
            version: self.next.version,
            backup: sources.backup,
            witness: sources.witness,
            backups: Items::new(backup_names(self.alloc, self.next.backup, f)?),
            witnesses: Items::new(witness_names(self.alloc, self.next.witness, f)?),
            lo,
            hi,
        };
        Ok(Boxed::new(self.alloc, order)?)
    }

    /// A master has recovered a partition at an epoch. The newest attempt is adopted; an older one counts for nothing.
    #[tactic(auto, using(crate::proofs::Ends::stands), unfolding(curp_model::specs::Manager::on_recovered))]
    pub(crate) fn on_recovered(&mut self, recovered: &Recovered) -> Result<Done, NoMemory>
        ensures { Moves self.old self.new result
            (model.unless_numbers_end self.old (model.on_recovered self.old recovered.now)) }
    {
        let Some(part) = self.part(recovered.part) else {
            return Ok(Done::quiet(self.alloc));
        };
        let Some(attempt) = self.attempt_at(recovered) else {
            let adopted = Some(part).filter(|part| part.epoch == recovered.epoch);
            return self.tell_again(adopted);
        };
        let entry = self.recovered_part(part, attempt)?;
        self.adopt(recovered.part, entry)
    }

    /// The recovery that a message lets the manager adopt, if it does: its master and its order.
    pub fn adoption(&self, message: &Message) -> Option<(NodeId, &Recover)>
        ensures { option_map (λ a. record { master = a.0; order = a.1.now }) result
            ≡ model.adopted_by self.now message.now.body }
    {
        let Body::Recovered(recovered) = &message.body else {
            return None;
        };
        if self.config.serial == u32::MAX {
            return None;
        }
        let attempt = self.finished(recovered)?;
        Some((attempt.master, attempt.order.get()))
    }

    // The attempt that a master says is finished.
    fn finished(&self, recovered: &Recovered) -> Option<&Attempt>
        ensures { option_map attempted (option_copied result) ≡ model.finished self.now recovered.now }
    {
        let _part = self.part(recovered.part)?;
        self.attempt_at(recovered)
    }

    // The attempt that is being made at a partition, if it has that epoch.
    fn attempt_at(&self, recovered: &Recovered) -> Option<&Attempt>
        ensures { option_map attempted (option_copied result)
            ≡ model.attempt_at recovered.now.epoch (numbered self.now.doing recovered.now.part) }
    {
        match self.work(recovered.part)?.doing() {
            Doing::Recovering(attempt) if attempt.order.get().epoch == recovered.epoch => Some(
                attempt,
            ),
            _ => None,
        }
    }

    // The entry of a partition that was recovered.
    fn recovered_part(&self, part: &PartConfig, attempt: &Attempt) -> Result<PartConfig, NoMemory>
        ensures { IfOk result (λ entry. entry ≡ model.recovered_part part.now (attempted attempt.now)) }
    {
        let order = attempt.order.get();
        Ok(PartConfig {
            part: part.part,
            epoch: order.epoch,
            version: order.version,
            master: attempt.master,
            backups: order.backups.copy(self.alloc)?,
            witnesses: order.witnesses.copy(self.alloc)?,
            ranges: part.ranges.copy(self.alloc)?,
        })
    }
}

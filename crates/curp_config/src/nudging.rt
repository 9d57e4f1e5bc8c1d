// What may have been lost, sent again.
ghost use Rattle.std.specs.Prelude.{◌≡◌, ◌++◌, flat_map, Some, IfOk};
ghost use Rattle.std.specs.Option.{option_copied};
ghost use Rattle.curp_base.specs.Words.{numbered};
ghost use Rattle.curp_model.specs.Manager as model;
ghost use Rattle.curp_msg.specs.declared.machine.Local.TheVariants as local;
ghost use Rattle.curp_msg.specs.Moved.{Moves};

use crate::Manager;
use curp_base::{NoMemory, Shared};
use curp_changes::messages::{
    adopted_message, give_message, recover_messages, replace_messages, start_on, take_message,
};
use curp_changes::{Doing, Migration, Work};
use curp_cmd::Package;
use curp_msg::{Done, Message, PartConfig};
use std::alloc::Global;

impl Manager {
    /// Sends again what may have been lost: for each partition what is being done with it, then what the migration in
    /// work waits for, then which clients are gone.
    #[tactic(auto, using(crate::proofs::Ordered::nudge_made), unfolding(curp_model::specs::Manager::nudge))]
    pub fn nudge(&mut self) -> Result<Done, NoMemory>
        ensures moves { Moves self.old self.new result (model.manager_ordered self.old local.Nudge) }
    {
        let mut messages = self.nudge_parts()?;
        let mut again = self.nudge_moving()?;
        messages.append(&mut again)?;
        let mut gone = self.nudge_gone()?;
        messages.append(&mut gone)?;
        Ok(Done::sends(messages))
    }

    // What may have been lost of each partition.
    fn nudge_parts(&self) -> Result<Vec<Message>, NoMemory>
        ensures { IfOk result (λ messages. messages.items
            ≡ flat_map (λ (c : PartConfig). model.nudge_part c (numbered self.now.doing c.part))
            self.now.config.parts) }
    {
        let mut messages = Vec::new(self.alloc);
        for part in self.config.parts.as_slice() {
            let mut again = nudge_part(self.alloc, part, self.work(part.part))?;
            messages.append(&mut again)?;
        }
        Ok(messages)
    }

    // What the migration in work waits for.
    fn nudge_moving(&self) -> Result<Vec<Message>, NoMemory>
        ensures { IfOk result (λ messages. messages.items ≡ model.nudge_moving self.now self.now.moving) }
    {
        match &self.moving {
            None => Ok(Vec::new(self.alloc)),
            Some(migration) => self.nudge_migration(migration),
        }
    }

    // What a migration waits for: the take, or the give once the package is there.
    fn nudge_migration(&self, migration: &Migration) -> Result<Vec<Message>, NoMemory>
        ensures { IfOk result (λ messages. messages.items ≡ model.nudge_moving self.now (Some migration.now)) }
    {
        match &migration.moved {
            None => self.take_again(migration),
            Some(carried) => self.give_again(migration, carried),
        }
    }

    fn take_again(&self, migration: &Migration) -> Result<Vec<Message>, NoMemory>
        ensures { IfOk result (λ messages. messages.items ≡ model.nudge_give self.now migration.now None) }
    {
        let mut messages = Vec::new(self.alloc);
        for part in self.config.parts.as_slice() {
            if part.part == migration.source {
                messages.push(take_message(part, migration))?;
            }
        }
        Ok(messages)
    }

    fn give_again(
        &self,
        migration: &Migration,
        carried: &Shared<Package>,
    ) -> Result<Vec<Message>, NoMemory>
        ensures { IfOk result
            (λ messages. messages.items ≡ model.nudge_give self.now migration.now (Some carried.now)) }
    {
        let mut messages = Vec::new(self.alloc);
        for part in self.config.parts.as_slice() {
            if part.part == migration.target {
                messages.push(give_message(self.alloc, part, migration.number, carried)?)?;
            }
        }
        Ok(messages)
    }

    // Each partition's master is told of each client that is gone.
    fn nudge_gone(&self) -> Result<Vec<Message>, NoMemory>
        ensures { IfOk result
            (λ messages. messages.items ≡ flat_map (model.expire_messages self.now) self.now.gone) }
    {
        let mut messages = Vec::new(self.alloc);
        for client in &self.gone {
            let mut again = self.gone_messages(*client)?;
            messages.append(&mut again)?;
        }
        Ok(messages)
    }
}

fn nudge_part(
    alloc: Global,
    part: &PartConfig,
    work: Option<&Work>,
) -> Result<Vec<Message>, NoMemory>
    ensures { IfOk result
        (λ messages. messages.items ≡ model.nudge_part part.now (option_copied work.entry)) }
{
    match work.map(|work| work.doing()) {
        Some(Doing::Replacing(lists)) => replace_messages(alloc, part, lists),
        Some(Doing::Recovering(attempt)) => {
            recover_messages(alloc, attempt.master, &attempt.order)
        }
        _ => {
            let witnesses = part.witnesses.as_slice();
            let mut messages = start_on(alloc, part.part, part.epoch, witnesses)?;
            messages.push(adopted_message(part))?;
            Ok(messages)
        }
    }
}

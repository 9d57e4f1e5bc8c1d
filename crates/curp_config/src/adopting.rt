// Entries that are adopted, and told again.
ghost use Rattle.std.specs.Prelude.{◌≡◌, ◌-◌, ◌≤◌, slice_set, IfOk};
ghost use Rattle.std.specs.Option.{option_copied};
ghost use Rattle.curp_config.specs.Parts.{IsNumbered};
ghost use Rattle.curp_model.specs.Manager as model;
ghost use Rattle.curp_msg.specs.Moved.{Moves, done_of};

use crate::Manager;
use curp_base::{Items, NoMemory};
use curp_changes::Work;
use curp_changes::messages::{adopted_message, one};
use curp_changes::names::put_numbered;
use curp_msg::{Done, PartConfig};
use std::alloc::Global;
use std::mem;

impl Manager {
    /// A partition's new entry is adopted, and its master is told.
    #[tactic(auto, using(crate::proofs::Ends::serial_rises))]
    pub(crate) fn adopt(&mut self, part: u32, entry: PartConfig) -> Result<Done, NoMemory>
        requires part { 1 ≤ part }
        requires entry { IsNumbered self.old.shape.parts entry }
        ensures { Moves self.old self.new result
            (model.unless_numbers_end self.old (model.adopts self.old part entry)) }
    {
        let Some(serial) = self.config.serial.checked_add(1) else {
            return Ok(Done::quiet(self.alloc));
        };
        let messages = one(self.alloc, adopted_message(&entry))?;
        put_part(self.alloc, &mut self.config.parts, part, entry);
        self.config.serial = serial;
        self.set_work(part, Work::steady());
        Ok(Done::sends(messages))
    }

    /// What is adopted already is told again.
    pub(crate) fn tell_again(&self, adopted: Option<&PartConfig>) -> Result<Done, NoMemory>
        ensures { IfOk result (λ done. done ≡ done_of (model.tells_again self.now (option_copied adopted.entry))) }
    {
        match adopted {
            None => Ok(Done::quiet(self.alloc)),
            Some(part) => Ok(Done::sends(one(self.alloc, adopted_message(part))?)),
        }
    }
}

// Puts an entry into its place. It takes no memory.
fn put_part(alloc: Global, parts: &mut Items<PartConfig>, part: u32, entry: PartConfig)
    requires { 1 ≤ part }
    ensures { parts.new ≡ slice_set parts.old (part - 1) entry }
{
    let old = mem::replace(parts, Items::new(Vec::new(alloc)));
    let mut entries = old.into_vec();
    put_numbered(&mut entries, part, entry);
    *parts = Items::new(entries);
}

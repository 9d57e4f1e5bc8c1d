// A migration in work.
ghost use Rattle.std.specs.Prelude.{◌≡◌, ◌≤◌, IfOk};

use curp_base::{NoMemory, Shared};
use curp_cmd::Package;
use std::marker::Model;

/// A migration that isn't done.
#[derive(Drop)]
pub struct Migration {
    pub number: u32,
    pub lo: u64,
    pub hi: u64,
    pub source: u32,
    pub target: u32,
    // What was taken, once it is there.
    pub moved: Option<Shared<Package>>,
    pub ghost ordered: { lo ≤ hi },
}

impl Model for Migration {
    ghost use Rattle.curp_model.specs.Manager as model;

    ghost Value = { model.Migration };

    ghost view = { λ m. record {
      number = m.number;
      range = record { lo = m.lo; hi = m.hi; ordered = m.ordered };
      source = m.source;
      target = m.target;
      moved = m.moved;
    } };
}

impl Migration {
    /// The package was taken.
    pub fn take(&mut self, carried: Shared<Package>)
        ensures { self.new ≡ record self.old { moved = Some carried } }
    {
        self.moved = Some(carried);
    }

    /// The same migration. Both hold the package that was taken, which isn't copied.
    pub fn copy(&self) -> Result<Migration, NoMemory>
        ensures { IfOk result (λ copy. copy ≡ self.now) }
    {
        let moved = shared(&self.moved)?;
        Ok(Migration {
            number: self.number,
            lo: self.lo,
            hi: self.hi,
            source: self.source,
            target: self.target,
            moved,
        })
    }
}

fn shared(moved: &Option<Shared<Package>>) -> Result<Option<Shared<Package>>, NoMemory>
    ensures { IfOk result (λ same. same ≡ moved.now) }
{
    match moved {
        Some(package) => Ok(Some(package.share()?)),
        None => Ok(None),
    }
}

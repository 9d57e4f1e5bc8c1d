ghost use Rattle.std.specs.Prelude.{◌≡◌, ◌↔◌, IsTrue, IfOk, MatchOption};
ghost use Rattle.curp_gather.specs.Ruled.{AreRuled};
ghost use Rattle.curp_gather.specs.Journals.{journals_of};

use crate::{Journals, are_ruled, strands_of};
use curp_base::NoMemory;
use std::alloc::Global;
use std::marker::Model;

/// The journals of a run in which what each node took of each other is the prefix of what that sent to it. Contracts see
/// the journals.
#[derive(Drop)]
pub struct Ruled {
    journals: Journals,
}

impl Model for Ruled {
    ghost use Rattle.curp_gather.specs.Ruled.{AreRuled};
    ghost use Rattle.curp_gather.specs.Journals.{journals_of};
    ghost use Rattle.curp_gather.specs.declared.journals.Journals.{Journals};

    ghost Value = { Journals };

    ghost view = { λ ruled. ruled.journals };

    ghost invariant = { λ ruled. AreRuled (journals_of ruled.journals) };
}

impl Ruled {
    /// The journals, compared; none where they aren't ruled.
    pub fn new(alloc: Global, journals: Journals) -> Result<Option<Ruled>, NoMemory>
        ensures { IfOk result (λ made. MatchOption made (AreRuled (journals_of journals) → ⊥) (λ ruled. ruled ≡ journals)) }
    {
        if !is_ruled(alloc, &journals)? {
            return Ok(None);
        }
        Ok(Some(Ruled { journals }))
    }

    pub fn journals(&self) -> &Journals
        ensures journals { result.now ≡ self.now }
        ensures ruled { AreRuled (journals_of self.now) }
    {
        &self.journals
    }

    pub fn into_journals(self) -> Journals
        ensures { result ≡ self }
    {
        self.journals
    }
}

fn is_ruled(alloc: Global, journals: &Journals) -> Result<bool, NoMemory>
    ensures { IfOk result (λ ruled. IsTrue ruled ↔ AreRuled (journals_of journals.now)) }
{
    let strands = strands_of(alloc, journals)?;
    Ok(are_ruled(&strands))
}

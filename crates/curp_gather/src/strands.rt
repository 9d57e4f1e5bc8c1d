ghost use Rattle.std.specs.Prelude.{◌≡◌, ◌++◌, ◌∷◌, [], map, IfOk, OnOk};
ghost use Rattle.curp_base.specs.Words.{Each};
ghost use Rattle.curp_gather.specs.Journals.{journal_of, journals_of};
ghost use Rattle.curp_gather.specs.Replays.{AreReplayed, IsMadeAnew};

use crate::Journals;
use curp_base::NoMemory;
use curp_merge::Strand;
use curp_msg::Core;
use curp_seat::Kept;
use std::alloc::Global;

/// The journals of all nodes as strands: the manager's, the clients', the masters', the backups' and the witnesses'.
pub fn strands_of<'a>(alloc: Global, journals: &'a Journals) -> Result<Vec<Strand<'a>>, NoMemory>
    ensures strands { IfOk result (λ strands. strands.items ≡ journals_of journals.now) }
    ensures replayed { IfOk result (λ strands. AreReplayed journals.now) }
{
    let mut strands = Vec::new(alloc);
    strands.push(strand_of(&journals.manager))?;
    add_strands(&journals.clients, &mut strands)?;
    add_strands(&journals.masters, &mut strands)?;
    add_strands(&journals.backups, &mut strands)?;
    add_strands(&journals.witnesses, &mut strands)?;
    Ok(strands)
}

fn strand_of<N: Core>(kept: &Kept<N>) -> Strand<'_>
    ensures strand { result ≡ journal_of kept.now }
    ensures replayed { IsMadeAnew N.machine kept.now }
{
    Strand::new(kept.id(), kept.journal(), kept.ended())
}

fn add_strands<'a, N: Core>(
    kepts: &'a [Kept<N>],
    strands: &mut Vec<Strand<'a>>,
) -> Result<(), NoMemory>
    ensures strands { OnOk result (strands.new.items ≡ strands.old.items ++ map journal_of kepts.now) }
    ensures replayed { OnOk result (Each (IsMadeAnew N.machine) kepts.now) }
{
    for kept in kepts {
        strands.push(strand_of(kept))?;
    }
    Ok(())
}

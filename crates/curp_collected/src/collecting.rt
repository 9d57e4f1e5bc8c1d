ghost use Rattle.std.specs.Prelude.{map, IfOk, IfErr};
ghost use Rattle.curp_base.specs.Failing.{IfBecause};
ghost use Rattle.curp_collected.specs.Causes.{IsCause};
ghost use Rattle.curp_collected.specs.Collected.{AreCollected};
ghost use Rattle.curp_collected.specs.Files.{AreOfHeader, contents_of};

use crate::CollectError;
use crate::files::Files;
use crate::kinds::{backups, clients, manager, masters, witnesses};
use curp_base::Failed;
use curp_gather::Journals;
use curp_msg::Header;
use std::alloc::Global;

/// The header of the nodes whose journals these files are, and the journals: of each what it took up to the stamp
/// `until`, or all. Each file holds the bytes of one journal, in any order; its node may still write to it.
///
/// The inputs are given to nodes made anew, so it takes the time of the run again, and memory for what the nodes keep.
pub fn collect(
    alloc: Global,
    files: &[Vec<u8>],
    until: Option<u64>,
) -> Result<(Header, Journals), Failed<CollectError>>
    ensures collected { IfOk result
        (λ found. AreCollected (map (λ file. file.items) files.now) until found.0 found.1) }
    ensures cause { IfErr result (IfBecause (IsCause (map (λ file. file.items) files.now))) }
{
    let files = Files::read(alloc, files, until)?;
    let journals = journals_in(&files)?;
    Ok((files.header, journals))
}

/// The journals in files of a header's nodes.
#[tactic(auto, using(crate::proofs::Whole::collected))]
fn journals_in(files: &Files<'_>) -> Result<Journals, Failed<CollectError>>
    requires { AreOfHeader files.now }
    ensures collected { IfOk result
        (AreCollected (contents_of files.now.each.items) files.now.until files.now.header) }
    ensures cause { IfErr result (IfBecause (IsCause (contents_of files.now.each.items))) }
{
    let first = curp_nodes::manager(files.alloc, &files.header)?;
    let clients = clients(files, first.config())?;
    let masters = masters(files, first.config())?;
    let backups = backups(files)?;
    let witnesses = witnesses(files)?;
    let manager = manager(files, first)?;
    Ok(Journals {
        manager,
        clients,
        masters,
        backups,
        witnesses,
    })
}

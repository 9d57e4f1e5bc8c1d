//! What nodes took that isn't what its sender's journal holds.
ghost use Rattle.std.specs.Prelude.{◌<◌, length, IfOk, IfSome, MatchOption};
ghost use Rattle.curp_base.specs.Words.{At};
ghost use Rattle.curp_journal.specs.Turns.{Journal};
ghost use Rattle.curp_merge.specs.Held.{AllHeld, IsHeld, IsMismatch, IsOther, ItemsHeld};

use crate::Strand;
use crate::held::{is_held, kept_at};
use curp_base::NoMemory;
use curp_cmd::NodeId;
use curp_journal::{Arrived, Named};
use std::alloc::Global;

/// An item that took a message which isn't the one that its sender's journal holds by its name.
#[derive(Drop)]
pub(crate) struct Mismatch {
    pub(crate) node: NodeId,
    pub(crate) step: u64,
    pub(crate) got: Named,
    pub(crate) kept: Option<Named>,
}

/// The first such item, if there is one.
pub(crate) fn first_mismatch(
    alloc: Global,
    strands: &[Strand<'_>],
) -> Result<Option<Mismatch>, NoMemory>
    ensures { IfOk result (λ found. MatchOption found (AllHeld strands.now)
        (λ m. IsMismatch strands.now m.node m.step m.got m.kept)) }
{
    for at in 0..strands.len() {
        if let Some(mismatch) = mismatch_in(alloc, strands, at)? {
            return Ok(Some(mismatch));
        }
    }
    Ok(None)
}

fn mismatch_in(
    alloc: Global,
    strands: &[Strand<'_>],
    at: usize,
) -> Result<Option<Mismatch>, NoMemory>
    requires { at < length strands.now }
    ensures { IfOk result (λ found. MatchOption found
        ((j : Journal) → At strands.now at j → ItemsHeld strands.now j.items)
        (λ m. IsMismatch strands.now m.node m.step m.got m.kept)) }
{
    let strand = &strands[at];
    let items = strand.items();
    for index in 0..items.len() {
        let item = &items[index];
        if let Some((got, kept)) = other(alloc, strands, &item.input)? {
            return Ok(Some(Mismatch {
                node: strand.id(),
                step: index as u64 + 1,
                got,
                kept,
            }));
        }
    }
    Ok(None)
}

/// The message that came and what its sender's journal holds by its name, where these aren't the same.
fn other(
    alloc: Global,
    strands: &[Strand<'_>],
    input: &Arrived,
) -> Result<Option<(Named, Option<Named>)>, NoMemory>
    ensures { IfOk result (λ found. MatchOption found (IsHeld strands.now input.now)
        (λ other. IsOther strands.now input.now other.0 other.1)) }
{
    let Arrived::Message(named) = input else {
        return Ok(None);
    };
    if is_held(strands, named) {
        return Ok(None);
    }
    let kept = kept_at(alloc, strands, named)?;
    Ok(Some((named.copy(alloc)?, kept)))
}

ghost use Rattle.std.specs.Prelude.{◌≡◌, ◌++◌, drop, IfOk};

use curp_base::{NoMemory, copies_of, past};
use curp_cmd::Entry;
use curp_log::Log;
use std::alloc::Global;

/// What stands in the log from a base on, with more entries behind it.
pub fn suffix_with(
    alloc: Global,
    log: &Log,
    base: u64,
    more: &[Entry],
) -> Result<Vec<Entry>, NoMemory>
    ensures { IfOk result (λ entries. entries.items ≡ drop base (log.now.entries ++ more.now)) }
{
    let mut entries = log.suffix(base)?;
    let beyond = base.saturating_sub(log.len());
    let mut rest = copies_of(alloc, past(more, beyond))?;
    entries.append(&mut rest)?;
    Ok(entries)
}

//! What is packed of a tail of entries, and when.
ghost use Rattle.std.specs.Prelude.{◌≡◌, ◌↔◌, ◌≤◌, ◌++◌, IsTrue, take, drop, length, vec_capacity, IfNone, IfSome, OnErr, OnOk};
ghost use Rattle.curp_base.specs.Words.{Each};
ghost use Rattle.curp_cmd.specs.declared.entry.Entry.{Entry};
ghost use Rattle.curp_items.specs.Encoding.{HasEncoding};
ghost use Rattle.curp_entries.specs.EntryList.{AreLast, most_recent};
ghost use Rattle.curp_entries.specs.Packed.{IsShortTail, run};

use crate::encoded::has_encoding;
use crate::prefix::{Prefix, RUN};
use curp_base::{NoMemory, copies_of, past};
use curp_cmd::Entry;
use std::alloc::Global;

/// Packs the oldest entries of a tail, a run after the other, as long as the tail that is left isn't short, and tells how many
/// were packed, also where memory was wanting.
pub(crate) fn push_runs(prefix: &mut Prefix, tail: &[Entry]) -> (usize, Result<(), NoMemory>)
    ensures within { result.0 ≤ length tail.now }
    ensures prefix { prefix.new ≡ prefix.old ++ take result.0 tail.now }
    ensures short { OnOk result.1 (IsShortTail (drop result.0 tail.now)) }
{
    for runs in 0..tail.len() / RUN {
        let count = runs * RUN;
        let Some(run) = next_run(past(tail, count as u64)) else {
            return (count, Ok(()));
        };
        if let Err(error) = prefix.push_run(run) {
            return (count, Err(error));
        }
    }
    (tail.len() / RUN * RUN, Ok(()))
}

/// What is to be packed of a tail, if it isn't short.
fn next_run(tail: &[Entry]) -> Option<&[Entry]>
    ensures short { IfNone result (IsShortTail tail.now) }
    ensures oldest { IfSome result (λ oldest. oldest.now ≡ take run tail.now) }
    ensures length { IfSome result (λ oldest. length oldest.now ≡ run) }
    ensures encoded { IfSome result (λ oldest. Each HasEncoding oldest.now) }
{
    if tail.len() < 2 * RUN {
        return None;
    }
    let oldest = &tail[..RUN];
    if are_encoded(oldest) {
        Some(oldest)
    } else {
        None
    }
}

/// Whether each of the entries has an encoding.
fn are_encoded(entries: &[Entry]) -> bool
    ensures { IsTrue result ↔ Each HasEncoding entries.now }
{
    entries.iter().all(has_encoding)
}

/// How many of the packed entries are kept as they are too, at most: what is copied of them shares their requests, and what is
/// copied of older ones is decoded anew (this project's own choice).
const RECENT: usize = 16 * RUN;

/// Keeps copies of the last of the entries that were kept and of those that were packed behind them, or of none where memory
/// is wanting.
pub(crate) fn keep_recent(alloc: Global, recent: &mut Vec<Entry>, packed: &[Entry])
    ensures last { AreLast recent.new.items (recent.old.items ++ packed.now) }
    ensures few { length recent.new.items ≤ most_recent }
{
    if packed.len() >= RECENT {
        *recent = last_of(alloc, packed);
        return;
    }
    match add_copies(alloc, recent, packed) {
        Ok(()) => {
            let others = recent.len().saturating_sub(RECENT);
            leave(recent, others);
        }
        Err(_) => *recent = Vec::new(alloc),
    }
}

/// Copies of the last entries, as many as are kept, or of none where memory is wanting.
fn last_of(alloc: Global, entries: &[Entry]) -> Vec<Entry>
    ensures last { AreLast result.items entries.now }
    ensures few { length result.items ≤ most_recent }
{
    let others = entries.len().saturating_sub(RECENT);
    match copies_of(alloc, past(entries, others as u64)) {
        Ok(last) => last,
        Err(_) => Vec::new(alloc),
    }
}

/// Puts copies of entries behind others.
pub(crate) fn add_copies(
    alloc: Global,
    to: &mut Vec<Entry>,
    entries: &[Entry],
) -> Result<(), NoMemory>
    ensures ok { OnOk result (to.new.items ≡ to.old.items ++ entries.now) }
    ensures err { OnErr result (to.new.items ≡ to.old.items) }
{
    let mut copies = copies_of(alloc, entries)?;
    to.append(&mut copies)
}

/// The tail without its oldest entries, so many of them.
pub(crate) fn leave(tail: &mut Vec<Entry>, count: usize)
    requires { count ≤ length tail.old.items }
    ensures items { tail.new.items ≡ drop count tail.old.items }
    ensures capacity { vec_capacity tail.new ≡ vec_capacity tail.old }
{
    drop(tail.drain(..count));
}

//! What a journal holds by a message's name.
ghost use Rattle.std.specs.Prelude.{◌≡◌, ◌↔◌, Some, IsTrue, IfOk, find, option_and_then};
ghost use Rattle.std.specs.Option.{option_copied};
ghost use Rattle.curp_base.specs.Words.{numbered};
ghost use Rattle.curp_cmd.specs.Node.{same_node};
ghost use Rattle.curp_journal.specs.Turns.{Journal};
ghost use Rattle.curp_merge.specs.Held.{held_by, journal_of, kept_at};

use crate::Strand;
use curp_base::NoMemory;
use curp_cmd::NodeId;
use curp_journal::{Item, Named};
use curp_same::Same;
use std::alloc::Global;

/// Whether the sender's journal holds that message by its name.
pub(crate) fn is_held(strands: &[Strand<'_>], named: &Named) -> bool
    ensures { IsTrue result ↔ (kept_at strands.now named.now ≡ Some named.now) }
{
    match item_of(strands, named) {
        Some(item) => is_held_by(item, named),
        None => false,
    }
}

fn is_held_by(item: &Item, named: &Named) -> bool
    ensures { IsTrue result ↔ (held_by named.now.from named.now.step named.now.place item.now ≡ Some named.now) }
{
    match numbered(item.done.sent.as_slice(), named.place) {
        Some(message) => item.stamp == named.stamp && message.same(&named.message),
        None => false,
    }
}

/// What the sender's journal holds by the message's name, copied.
pub(crate) fn kept_at(
    alloc: Global,
    strands: &[Strand<'_>],
    named: &Named,
) -> Result<Option<Named>, NoMemory>
    ensures { IfOk result (λ kept. kept ≡ kept_at strands.now named.now) }
{
    match item_of(strands, named) {
        Some(item) => kept_by(alloc, item, named),
        None => Ok(None),
    }
}

fn kept_by(alloc: Global, item: &Item, named: &Named) -> Result<Option<Named>, NoMemory>
    ensures { IfOk result (λ kept. kept ≡ held_by named.now.from named.now.step named.now.place item.now) }
{
    let Some(message) = numbered(item.done.sent.as_slice(), named.place) else {
        return Ok(None);
    };
    Ok(Some(Named {
        from: named.from,
        step: named.step,
        place: named.place,
        stamp: item.stamp,
        message: message.copy(alloc)?,
    }))
}

/// The sender's item of the number that the message's name has.
fn item_of<'a>(strands: &'a [Strand<'_>], named: &Named) -> Option<&'a Item>
    ensures { option_copied result
        ≡ option_and_then (λ (j : Journal). numbered j.items named.now.step) (journal_of strands.now named.now.from) }
{
    numbered(strand_of(strands, named.from)?.items(), named.step)
}

fn strand_of<'a, 'b>(strands: &'a [Strand<'b>], node: NodeId) -> Option<&'a Strand<'b>>
    ensures { option_copied result ≡ journal_of strands.now node }
{
    strands.iter().find(|strand| strand.id() == node)
}

/// The item of that number, counted from 1.
fn numbered<T>(items: &[T], number: u64) -> Option<&T>
    ensures { option_copied result ≡ numbered items.now number }
{
    items.get(number.checked_sub(1)? as usize)
}

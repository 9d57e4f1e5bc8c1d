//! How much journals hold.
ghost use Rattle.std.specs.Prelude.{◌≡◌, ◌-◌, ◌^◌, min, map, length};
ghost use Rattle.std.specs.List.{sum};
ghost use Rattle.curp_journal.specs.Turns.{turns_of};
ghost use Rattle.curp_msg.specs.Weight.{weight_of};
ghost use Rattle.curp_merge.specs.Merging.{turn_count, turn_weight, weight_sent};

use crate::Strand;
use curp_journal::Item;
use curp_msg::{Message, weight};

/// How many items and last stops there are. It stands still at 2^64 - 1.
pub(crate) fn turn_count(strands: &[Strand<'_>]) -> u64
    ensures { result ≡ min (turn_count strands.now) (2 ^ 64 - 1) }
{
    let mut total: u64 = 0;
    for strand in strands {
        total = total.saturating_add(turns_in(strand));
    }
    total
}

fn turns_in(strand: &Strand<'_>) -> u64
    ensures { result ≡ min (length (turns_of strand.now)) (2 ^ 64 - 1) }
{
    (strand.items().len() as u64).saturating_add(u64::from(strand.ended()))
}

/// How much all that was sent weighs. It stands still at 2^64 - 1.
pub(crate) fn weight_sent(strands: &[Strand<'_>]) -> u64
    ensures { result ≡ min (weight_sent strands.now) (2 ^ 64 - 1) }
{
    let mut total: u64 = 0;
    for strand in strands {
        total = total.saturating_add(strand_weight(strand));
    }
    total
}

fn strand_weight(strand: &Strand<'_>) -> u64
    ensures { result ≡ min (sum (map turn_weight (turns_of strand.now))) (2 ^ 64 - 1) }
{
    items_weight(strand.items())
}

fn items_weight(items: &[Item]) -> u64
    ensures { result ≡ min (sum (map (λ (item : Item). sum (map weight_of item.done.sent)) items.now)) (2 ^ 64 - 1) }
{
    let mut total: u64 = 0;
    for item in items {
        total = total.saturating_add(messages_weight(item.done.sent.as_slice()));
    }
    total
}

fn messages_weight(messages: &[Message]) -> u64
    ensures { result ≡ min (sum (map weight_of messages.now)) (2 ^ 64 - 1) }
{
    let mut total: u64 = 0;
    for message in messages {
        total = total.saturating_add(weight(message));
    }
    total
}

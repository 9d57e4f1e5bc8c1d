//! What a node took of another, compared with what that sent to it, in one pass over both.
ghost use Rattle.std.specs.Prelude.{◌≡◌, ◌↔◌, ◌∷◌, [], IsTrue};
ghost use Rattle.curp_base.specs.Words.{IsPrefix};
ghost use Rattle.curp_journal.specs.Sending.{named_of};
ghost use Rattle.curp_gather.specs.Prefixes.{IsPrefixBy};
ghost use Rattle.curp_gather.specs.Ruled.{sent_to, taken_of, to_node};

use crate::next::next_taken;
use crate::prefix::Prefix;
use curp_cmd::NodeId;
use curp_journal::{Item, Named};
use curp_msg::Message;
use curp_same::Same;

/// The place of a message in its sender's journal.
#[derive(Clone, Copy)]
struct SentPlace {
    from: NodeId,
    step: u64,
    stamp: u64,
    place: u64,
}

/// Whether what these items took of a node is the prefix of what that node's items sent to them.
pub(crate) fn took_prefix(to: NodeId, items: &[Item], from: NodeId, others: &[Item]) -> bool
    ensures { IsTrue result ↔ IsPrefix (taken_of from items.now) (sent_to to from 1 others.now) }
{
    if none_taken(items, from) {
        return true;
    }
    let mut rest = items;
    let mut step = 1;
    for other in others {
        match after_item(to, rest, from, step, other) {
            Prefix::More(left) => rest = left,
            Prefix::Whole => return true,
            Prefix::Differs => return false,
        }
        step += 1;
    }
    none_taken(rest, from)
}

fn none_taken(items: &[Item], from: NodeId) -> bool
    ensures { IsTrue result ↔ (taken_of from items.now ≡ []) }
{
    next_taken(items, from).is_none()
}

/// Compares what these items took first of a node with what an item of it, of that number, sent to them.
fn after_item<'a>(
    to: NodeId,
    items: &'a [Item],
    from: NodeId,
    step: u64,
    other: &Item,
) -> Prefix<'a>
    ensures { IsPrefixBy from items.now (to_node to (named_of from step other.now.stamp 1 other.now.done.sent)) result }
{
    let mut rest = items;
    let mut place = 1;
    for message in other.done.sent.as_slice() {
        let name = SentPlace {
            from,
            step,
            stamp: other.stamp,
            place,
        };
        match after_message(to, rest, name, message) {
            Prefix::More(left) => rest = left,
            Prefix::Whole => return Prefix::Whole,
            Prefix::Differs => return Prefix::Differs,
        }
        place += 1;
    }
    Prefix::More(rest)
}

/// The same for one message.
fn after_message<'a>(to: NodeId, items: &'a [Item], at: SentPlace, message: &Message) -> Prefix<'a>
    ensures { IsPrefixBy at.from items.now
        (to_node to (record { from = at.from; step = at.step; place = at.place; stamp = at.stamp; message = message.now } ∷ []))
        result }
{
    if message.to != to {
        return Prefix::More(items);
    }
    let Some(taken) = next_taken(items, at.from) else {
        return Prefix::Whole;
    };
    if is_named(taken.named, at, message) {
        Prefix::More(taken.left)
    } else {
        Prefix::Differs
    }
}

/// Whether it is that message of that place.
fn is_named(named: &Named, at: SentPlace, message: &Message) -> bool
    ensures { IsTrue result ↔ (named.now
        ≡ record { from = at.from; step = at.step; place = at.place; stamp = at.stamp; message = message.now }) }
{
    named.from == at.from
        && named.step == at.step
        && named.place == at.place
        && named.stamp == at.stamp
        && named.message.same(message)
}

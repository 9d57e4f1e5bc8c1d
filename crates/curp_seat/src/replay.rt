ghost use Rattle.std.specs.Prelude.{◌≡◌, ◌↔◌, IfOk, IsTrue};
ghost use Rattle.curp_journal.specs.Journal.{after};
ghost use Rattle.curp_seat.specs.Making.{DoesAll};

use crate::making::give;
use curp_base::NoMemory;
use curp_journal::Item;
use curp_msg::{Completed, Core, Done};
use curp_same::Same;

/// Gives a node the inputs of these items. Whether it does by each input what the item says.
pub(crate) fn does_all<N: Core>(node: &mut N, items: &[Item]) -> Result<bool, NoMemory>
    ensures all { IfOk result (λ all. IsTrue all ↔ DoesAll N.machine node.old items.now) }
    ensures state { IfOk result (λ all. IsTrue all → node.new ≡ after N.machine node.old items.now) }
{
    for item in items {
        let done = give(node, &item.input)?;
        if !is_same(&done, &item.done) {
            return Ok(false);
        }
    }
    Ok(true)
}

fn is_same(one: &Done, other: &Done) -> bool
    ensures { IsTrue result ↔ (one.now ≡ other.now) }
{
    one.refused == other.refused
        && one.sent.same(&other.sent)
        && one.invoked.same(&other.invoked)
        && completes_same(&one.completed, &other.completed)
}

fn completes_same(one: &Option<Completed>, other: &Option<Completed>) -> bool
    ensures { IsTrue result ↔ (one.now ≡ other.now) }
{
    match (one, other) {
        (Some(one), Some(other)) => {
            one.id == other.id && one.answer.same(&other.answer) && one.by == other.by
        }
        (None, None) => true,
        _ => false,
    }
}

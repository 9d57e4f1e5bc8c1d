// Whether journals, of two items each at most, can be merged.
ghost use Rattle.std.specs.Prelude.{◌≡◌, ◌≢◌, IsTrue};
ghost use Rattle.curp_base.specs.Words.{Each};
ghost use Rattle.curp_journal.specs.Journal.{Stamped, next_stamp};
ghost use Rattle.curp_journal.specs.declared.item.Item.{Item};
ghost use Rattle.curp_journal.specs.Own.{IsOwn};
ghost use Rattle.curp_test_journals.specs.Lines.{IsLine};

use curp_cmd::{NodeId, NodeKind};
use curp_journal::{Item, is_own};
use curp_merge::Strand;

pub(crate) fn are_apart(first: &Strand<'_>, second: &Strand<'_>) -> bool
    ensures { IsTrue result → first.now.id ≢ second.now.id }
{
    first.id() != second.id()
}

// Whether a node that isn't the manager can have the journal.
pub(crate) fn is_line(strand: &Strand<'_>) -> bool
    ensures { IsTrue result → IsLine strand.now }
{
    strand.id().kind != NodeKind::Manager
        && are_stamped(strand.items())
        && are_own(strand.id(), strand.items())
}

fn are_stamped(items: &[Item]) -> bool
    ensures { IsTrue result → Stamped 0 items.now }
{
    match items {
        [] => true,
        [one] => follows(0, one),
        [one, two] => follows(0, one) && follows(one.stamp, two),
        _ => false,
    }
}

// Whether the item has the stamp that it is to have behind this one.
fn follows(last: u64, item: &Item) -> bool
    ensures { IsTrue result → item.now.stamp ≡ next_stamp last item.now.input }
{
    item.stamp.checked_sub(1) == Some(last.max(item.input.stamp()))
}

fn are_own(id: NodeId, items: &[Item]) -> bool
    ensures { IsTrue result → Each (λ (item : Item). IsOwn id item.input) items.now }
{
    match items {
        [] => true,
        [one] => is_own(id, &one.input),
        [one, two] => is_own(id, &one.input) && is_own(id, &two.input),
        _ => false,
    }
}

ghost use Rattle.std.specs.Prelude.{◌≡◌, ◌↔◌, ◌+◌, ◌<◌, ◌^◌, ◌++◌, false, true, length, Some, IfOk, IfSome, IsSomeAnd, IsTrue};
ghost use Rattle.curp_law_weave.specs.Run.{TakesFirst};
ghost use Rattle.curp_anew.specs.Opening.{AreAnew, AreTaken, IsAdded, IsAnew, IsTakenOf, all_handed_out, handed_out};

use crate::own::all_own;
use curp_base::NoMemory;
use curp_cmd::{NodeId, NodeKind};
use curp_journal::{Arrived, Item};
use curp_msg::Core;
use curp_seat::Kept;
use std::alloc::Global;

/// The nodes of a kind, of which so many are there before any step and the others are fresh, and the journals that were
/// taken of them.
pub type OfKind<N> = (NodeKind, usize, Vec<N>, Vec<Kept<N>>);

/// The same journals of nodes of a kind, begun with these nodes. One of a fresh node that took nothing is left out.
/// None where one isn't that of a node.
pub(crate) fn all_anew<N: Core + Drop>(
    alloc: Global,
    kind: NodeKind,
    there: usize,
    nodes: Vec<N>,
    taken: Vec<Kept<N>>,
) -> Result<Option<Vec<Kept<N>>>, NoMemory>
    requires { length nodes.items + 1 < 2 ^ 32 }
    ensures anew { IfOk result (λ made. IfSome made (λ logs. AreAnew kind there nodes.items logs.items)) }
    ensures same { AreTaken kind there nodes.items taken.items
        → IfOk result (λ made. IsSomeAnd made (λ logs. logs.items ≡ all_handed_out there taken.items)) }
{
    if taken.len() != nodes.len() {
        return Ok(None);
    }
    let mut logs = Vec::with_capacity(alloc, nodes.len())?;
    let mut place: usize = 0;
    for (node, kept) in nodes.into_iter().zip(taken) {
        let number = place as u32 + 1;
        if !add_anew(
            NodeId { kind, number },
            place < there,
            node,
            kept,
            &mut logs,
        )? {
            return Ok(None);
        }
        place += 1;
    }
    Ok(Some(logs))
}

/// Adds the same journal, begun with this node, which is there before any step or fresh. A fresh node that took nothing
/// has none. Whether it is that node's.
fn add_anew<N: Core + Drop>(
    id: NodeId,
    is_there: bool,
    node: N,
    taken: Kept<N>,
    logs: &mut Vec<Kept<N>>,
) -> Result<bool, NoMemory>
    ensures added { IfOk result (λ is. IsTrue is → IsAdded id is_there node logs.old.items logs.new.items) }
    ensures same { IsTakenOf id is_there node taken → IfOk result (λ is. is ≡ true) }
    ensures whole { IsTakenOf id is_there node taken
        → IfOk result (λ _. logs.new.items ≡ logs.old.items ++ handed_out is_there taken) }
{
    if !is_there && taken.journal().is_empty() {
        return Ok(true);
    }
    let Some(log) = anew(id, node, taken)? else {
        return Ok(false);
    };
    if !is_there && !takes_first(log.journal()) {
        return Ok(false);
    }
    logs.push(log)?;
    Ok(true)
}

/// Whether there is a first item, and it took a message, as that of a node that isn't there before any step.
pub fn takes_first(items: &[Item]) -> bool
    ensures { IsTrue result ↔ TakesFirst items.now }
{
    match items {
        [first, ..] => matches!(&first.input, Arrived::Message(_)),
        [] => false,
    }
}

/// The same journals of two kinds of nodes. None where one isn't that of a node.
pub(crate) fn both_anew<N: Core + Drop, M: Core + Drop>(
    alloc: Global,
    first: OfKind<N>,
    second: OfKind<M>,
) -> Result<Option<(Vec<Kept<N>>, Vec<Kept<M>>)>, NoMemory>
    requires first { length first.2.items + 1 < 2 ^ 32 }
    requires second { length second.2.items + 1 < 2 ^ 32 }
    ensures first { IfOk result
        (λ made. IfSome made (λ logs. AreAnew first.0 first.1 first.2.items logs.0.items)) }
    ensures second { IfOk result
        (λ made. IfSome made (λ logs. AreAnew second.0 second.1 second.2.items logs.1.items)) }
    ensures same { AreTaken first.0 first.1 first.2.items first.3.items
        → AreTaken second.0 second.1 second.2.items second.3.items
        → IfOk result (λ made. IsSomeAnd made (λ logs. (logs.0.items ≡ all_handed_out first.1 first.3.items)
        × (logs.1.items ≡ all_handed_out second.1 second.3.items))) }
{
    let Some(one) = all_anew(alloc, first.0, first.1, first.2, first.3)? else {
        return Ok(None);
    };
    let Some(other) = all_anew(alloc, second.0, second.1, second.2, second.3)? else {
        return Ok(None);
    };
    Ok(Some((one, other)))
}

/// The same journal, begun with this node, with a last stop where that one has one. None where it isn't that node's:
/// where it has another name, the node does otherwise on what came, or something came that isn't its own.
pub(crate) fn anew<N: Core + Drop>(
    id: NodeId,
    node: N,
    taken: Kept<N>,
) -> Result<Option<Kept<N>>, NoMemory>
    ensures anew { IfOk result (λ made. IfSome made (λ log. IsAnew id node log)) }
    ensures items { IfOk result (λ made. IfSome made (λ log. log.items ≡ taken.items)) }
    ensures ended { IfOk result (λ made. IfSome made (λ log. log.ended ≡ taken.ended)) }
    ensures same { IsAnew id node taken → IfOk result (λ made. made ≡ Some taken) }
{
    if taken.id() != id {
        return Ok(None);
    }
    if !all_own(id, taken.journal()) {
        return Ok(None);
    }
    taken.begun_with(node)
}

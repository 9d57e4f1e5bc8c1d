// Where the requests of a history were invoked, and where those of an order stand.
ghost use Rattle.std.specs.Prelude.{◌≡◌, length, None, IfOk, IfSome};
ghost use Rattle.std.specs.BTreeMap.{get};
ghost use Rattle.curp_cmd.specs.RequestId.{id_cmp};
ghost use Rattle.curp_check.specs.Found.{FindsInvocations, FindsPlaces, StandsTwice};

use crate::events::{Mark, PackedEvents};
use crate::order::PackedOrder;
use curp_base::NoMemory;
use curp_cmd::RequestId;
use std::alloc::Global;
use std::collections::BTreeMap;

/// Places by the requests that are found there.
pub(crate) type Places = BTreeMap<RequestId, usize>;

/// Where each request was invoked.
pub(crate) fn invocations_in(alloc: Global, history: &PackedEvents) -> Result<Places, NoMemory>
    ensures { IfOk result (λ found. FindsInvocations (length history.now) (get id_cmp found) history.now) }
{
    let mut found = BTreeMap::new(alloc);
    for at in 0..history.len() {
        if let Mark::Invoke { id } = history.mark(at) {
            found.insert(id, at)?;
        }
    }
    Ok(found)
}

/// Where each request of an order stands, or none where one stands twice.
pub(crate) fn places_in(alloc: Global, order: &PackedOrder) -> Result<Option<Places>, NoMemory>
    ensures found { IfOk result (λ found.
        IfSome found (λ places. FindsPlaces (length order.now) (get id_cmp places) order.now)) }
    ensures twice { IfOk result (λ found. found ≡ None → StandsTwice order.now) }
{
    let mut places = BTreeMap::new(alloc);
    for at in 0..order.len() {
        if places.insert(order.id(at), at)?.is_some() {
            return Ok(None);
        }
    }
    Ok(Some(places))
}

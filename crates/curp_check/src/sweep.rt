// Real time: one sweep over the history, with the greatest place of what has completed so far.
ghost use Rattle.std.specs.Prelude.{◌≡◌, ◌↔◌, length, IsTrue};
ghost use Rattle.std.specs.BTreeMap.{get};
ghost use Rattle.curp_cmd.specs.RequestId.{id_cmp};
ghost use Rattle.curp_check.specs.Found.{AreInTime, is_up_to, later_of};

use crate::events::{Mark, PackedEvents};
use crate::places::Places;
use curp_cmd::RequestId;

/// Whether what completed before another was invoked is found before it.
pub(crate) fn are_in_time(history: &PackedEvents, places: &Places) -> bool
    ensures { IsTrue result ↔ AreInTime (length history.now) (get id_cmp places.now) history.now }
{
    let mut latest = None;
    for at in 0..history.len() {
        match history.mark(at) {
            Mark::Complete { id } => latest = later_of(place_of(places, &id), latest),
            Mark::Invoke { id } => {
                if is_up_to(latest, place_of(places, &id)) {
                    return false;
                }
            }
        }
    }
    true
}

fn place_of(places: &Places, id: &RequestId) -> Option<usize>
    ensures { result ≡ get id_cmp places.now id.now }
{
    places.get(id).copied()
}

/// The later of two places, where there are two.
fn later_of(place: Option<usize>, latest: Option<usize>) -> Option<usize>
    ensures { result ≡ later_of place latest }
{
    match (place, latest) {
        (Some(place), Some(latest)) => Some(place.max(latest)),
        (Some(place), None) => Some(place),
        (None, latest) => latest,
    }
}

/// Whether there is a place, and it is no later than the latest.
fn is_up_to(latest: Option<usize>, place: Option<usize>) -> bool
    ensures { result ≡ is_up_to latest place }
{
    match (latest, place) {
        (Some(latest), Some(place)) => place <= latest,
        _ => false,
    }
}

//! The epochs of adoptions: one at the place of each in the list of all. Those of a partition ascend from place to place.
ghost use Rattle.std.specs.Prelude.{◌≡◌, ◌+◌, ◌≤◌, ◌++◌, ◌∷◌, [], if◌then◌else◌, ℕ, Bool, map};
ghost use Rattle.curp_line.specs.Cuts.{ArePlaced, EpochsAscend, epochs_of, how_many, is_epoch_of, is_epoch_to, part_of};

use crate::reserved_map::ReservedMap;
use curp_base::Reserved;

/// The partition and the epoch of an adoption.
#[derive(Clone, Copy)]
pub struct CutEpoch {
    pub part: u32,
    pub epoch: u32,
}

/// The place of each epoch, by its partition and how many of that stand before it.
pub type EpochPlaces = ReservedMap<(u32, usize), usize>;

/// How many epochs the partition has, of so many in all, that are no higher than that. It is a binary search.
pub fn count_to(places: &EpochPlaces, epochs: &[CutEpoch], count: usize, top: CutEpoch) -> usize
    requires placed { ArePlaced places.now.items epochs.now }
    requires count { count ≡ how_many (is_epoch_of top.part) epochs.now }
    requires ascend { EpochsAscend (epochs_of top.part epochs.now) }
    ensures { result ≡ how_many (is_epoch_to top.part top.epoch) epochs.now }
{
    let mut low = 0;
    let mut high = count;
    while low < high {
        let middle = low + (high - low) / 2;
        let at = places.value_of(&(top.part, middle)).unwrap();
        if epochs[at].epoch <= top.epoch {
            low = middle + 1;
        } else {
            high = middle;
        }
    }
    low
}

/// Adds an epoch, where the partition has so many. It takes no memory. Each higher one of the partition goes to the place
/// of the next, and the last of them behind all.
pub fn add_epoch(
    places: &EpochPlaces,
    epochs: &mut Reserved<CutEpoch>,
    count: usize,
    added: CutEpoch,
)
    requires room { 1 ≤ epochs.old.spare }
    requires placed { ArePlaced places.now.items epochs.old.items }
    requires count { count ≡ how_many (is_epoch_of added.part) epochs.old.items }
    requires ascend { (part : ℕ) → EpochsAscend (epochs_of part epochs.old.items) }
    ensures parts { map part_of epochs.new.items ≡ map part_of epochs.old.items ++ added.part ∷ [] }
    ensures counted { (test : CutEpoch → Bool)
        → how_many test epochs.new.items ≡ how_many test epochs.old.items + (if test added then 1 else 0) }
    ensures ascend { (part : ℕ) → EpochsAscend (epochs_of part epochs.new.items) }
    ensures spare { epochs.new.spare + 1 ≡ epochs.old.spare }
{
    let mut carried = added;
    let mut rank = count_to(places, epochs, count, added);
    while rank < count {
        let at = places.value_of(&(added.part, rank)).unwrap();
        let higher = epochs[at];
        epochs.set(at, carried);
        carried = higher;
        rank += 1;
    }
    epochs.push(carried);
}

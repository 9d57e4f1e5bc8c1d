ghost use Rattle.std.specs.Prelude.{◌≡◌, ◌+◌, ◌≤◌, ◌++◌, ◌∷◌, [], if◌then◌else◌, Bool, length, map, max, OnOk};
ghost use Rattle.curp_line.specs.Cuts.{epoch_place, how_many, is_epoch_of, is_epoch_to, part_of};

use crate::epochs::{CutEpoch, EpochPlaces, add_epoch, count_to};
use crate::reserved_map::ReservedMap;
use curp_base::{NoMemory, Reserved};
use std::alloc::Global;
use std::marker::Model;

/// The epochs of adoptions. Contracts see them with their partitions, for how many more there is room, and for how many in the
/// list or map that has the most of it: the partitions stand as they came, and the epochs of one partition in ascending
/// order.
///
/// That no partition's epochs move those of another is this project's own choice.
#[derive(Drop)]
pub struct CutEpochs {
    epochs: Reserved<CutEpoch>,
    places: EpochPlaces,
    // How many each partition has.
    counts: ReservedMap<u32, usize>,
}

impl Model for CutEpochs {
    ghost use Rattle.std.specs.Prelude.{◌==◌, max, min};
    ghost use Rattle.std.specs.Map.{lookup};
    ghost use Rattle.curp_line.specs.Content.{Epochs};
    ghost use Rattle.curp_line.specs.Cuts.{AreRanked};

    ghost Value = { Epochs };

    ghost view = { λ c. record {
      epochs = c.epochs.items;
      spare = min c.epochs.spare (min c.places.spare c.counts.spare);
      most = max c.epochs.spare (max c.places.spare c.counts.spare);
    } };

    ghost invariant = { λ c. AreRanked (λ part. lookup (λ key. part == key) c.counts.items) c.places.items c.epochs.items };
}

impl CutEpochs {
    /// No epochs. It takes no memory.
    pub fn new(alloc: Global) -> CutEpochs
        ensures epochs { result.epochs ≡ [] }
        ensures no_room { result.most ≡ 0 }
    {
        CutEpochs {
            epochs: Reserved::new(alloc),
            places: ReservedMap::new(alloc),
            counts: ReservedMap::new(alloc),
        }
    }

    /// Makes room for so many more epochs, of whatever partitions, or for as many as there are where that is more.
    pub fn reserve(&mut self, epochs: usize) -> Result<(), NoMemory>
        ensures epochs { self.new.epochs ≡ self.old.epochs }
        ensures room { OnOk result (epochs ≤ self.new.spare) }
        ensures kept { self.old.spare ≤ self.new.spare }
        ensures no_more { self.new.most ≤ max self.old.most (max epochs (length self.old.epochs)) }
    {
        self.epochs.reserve(epochs as u64)?;
        self.places.reserve(epochs)?;
        self.counts.reserve(epochs)
    }

    /// How many epochs the partition has.
    pub fn count_of(&self, part: u32) -> usize
        ensures { result ≡ how_many (is_epoch_of part) self.now.epochs }
    {
        self.counts.value_of(&part).unwrap_or(0)
    }

    /// How many epochs the partition has that are no higher than that.
    pub fn count_to(&self, part: u32, epoch: u32) -> usize
        ensures { result ≡ how_many (is_epoch_to part epoch) self.now.epochs }
    {
        let count = self.count_of(part);
        count_to(&self.places, &self.epochs, count, CutEpoch { part, epoch })
    }

    /// The place of the partition's epoch behind so many others of its own, if there is one.
    pub fn place_of(&self, part: u32, rank: usize) -> Option<usize>
        ensures { result ≡ epoch_place part rank self.now.epochs }
    {
        self.places.value_of(&(part, rank))
    }

    /// Adds an epoch. It takes no memory, since there is room, and moves those of the partition alone that are higher.
    pub fn add(&mut self, added: CutEpoch)
        requires { 1 ≤ self.old.spare }
        ensures parts { map part_of self.new.epochs ≡ map part_of self.old.epochs ++ added.part ∷ [] }
        ensures counted { (test : CutEpoch → Bool)
            → how_many test self.new.epochs ≡ how_many test self.old.epochs + (if test added then 1 else 0) }
        ensures spare { self.old.spare ≤ self.new.spare + 1 }
    {
        let count = self.count_of(added.part);
        add_epoch(&self.places, &mut self.epochs, count, added);
        let place = self.epochs.len() - 1;
        self.places.put((added.part, count), place);
        self.counts.put(added.part, count + 1);
    }
}

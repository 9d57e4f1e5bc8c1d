ghost use Rattle.std.specs.Prelude.{◌≡◌, ◌+◌, ◌≤◌, [], ◌∷◌, ◌++◌, length, max, OnOk};
ghost use Rattle.std.specs.List.{position_or_len};
ghost use Rattle.curp_line.specs.Cuts.{how_many, is_cut_at, is_cut_of, is_cut_to};

use crate::cut_epochs::CutEpochs;
use crate::epochs::CutEpoch;
use crate::term::Term;
use curp_base::{NoMemory, Reserved};
use std::alloc::Global;
use std::marker::Model;

/// An adoption, before or behind which marks stand. It is of no request.
#[derive(Clone, Copy)]
pub struct Cut {
    pub term: Term,
    /// How often the partition was adopted before.
    pub earlier: usize,
    /// The length of the log that was recovered.
    pub length: u64,
}

/// The adoptions, in the order in which they came. Contracts see them, for how many more there is room, and for how many in
/// the list or map that has the most of it.
///
/// That one is found by its number, and how many there are up to an epoch by a binary search, is this project's own
/// choice. An adoption moves the epochs of its partition that are above its own, and those of no other: where a
/// partition's epochs rise, none.
#[derive(Drop)]
pub struct Cuts {
    list: Reserved<Cut>,
    epochs: CutEpochs,
}

impl Model for Cuts {
    ghost use Rattle.std.specs.Prelude.{max, min};
    ghost use Rattle.curp_line.specs.Content.{Adoptions};
    ghost use Rattle.curp_line.specs.Cuts.{AreFound};

    ghost Value = { Adoptions };

    ghost view = { λ c. record {
      cuts = c.list.items;
      spare = min c.list.spare c.epochs.spare;
      most = max c.list.spare c.epochs.most;
    } };

    ghost invariant = { λ c. AreFound c.epochs.epochs c.list.items };
}

impl Cuts {
    /// No adoptions. It takes no memory.
    pub fn new(alloc: Global) -> Cuts
        ensures cuts { result.cuts ≡ [] }
        ensures no_room { result.most ≡ 0 }
    {
        Cuts {
            list: Reserved::new(alloc),
            epochs: CutEpochs::new(alloc),
        }
    }

    /// Makes room for so many more adoptions, or for as many as there are where that is more.
    pub fn reserve(&mut self, cuts: usize) -> Result<(), NoMemory>
        ensures cuts { self.new.cuts ≡ self.old.cuts }
        ensures room { OnOk result (cuts ≤ self.new.spare) }
        ensures kept { self.old.spare ≤ self.new.spare }
        ensures no_more { self.new.most ≤ max self.old.most (max cuts (length self.old.cuts)) }
    {
        self.list.reserve(cuts as u64)?;
        self.epochs.reserve(cuts)
    }

    /// How many adoptions there are.
    pub fn len(&self) -> usize
        ensures { result ≡ length self.now.cuts }
    {
        self.list.len()
    }

    /// Adds an adoption of the partition behind the others. It takes no memory, since there is room.
    pub fn add(&mut self, term: Term, length: u64)
        requires { 1 ≤ self.old.spare }
        ensures cuts { self.new.cuts ≡ self.old.cuts ++ record {
          term = term;
          earlier = how_many (is_cut_of term.part) self.old.cuts;
          length = length;
        } ∷ [] }
        ensures spare { self.old.spare ≤ self.new.spare + 1 }
    {
        let Term { part, epoch, .. } = term;
        let earlier = self.epochs.count_of(part);
        self.epochs.add(CutEpoch { part, epoch });
        self.list.push(Cut {
            term,
            earlier,
            length,
        });
    }

    /// The place of the partition's first adoption behind as many as it has up to that epoch, or behind all where there
    /// is none.
    pub fn place_behind(&self, part: u32, epoch: u32) -> usize
        ensures { result
            ≡ position_or_len (is_cut_at part (how_many (is_cut_to part epoch) self.now.cuts)) self.now.cuts }
    {
        let earlier = self.epochs.count_to(part, epoch);
        let place = self.epochs.place_of(part, earlier);
        place.unwrap_or(self.list.len())
    }
}

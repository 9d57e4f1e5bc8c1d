ghost use Rattle.std.specs.Prelude.{◌≡◌, ◌+◌, ◌<◌, ◌≤◌, nat_lt, not, [], ◌∷◌, ◌++◌, length, max, slice_index, filter};
ghost use Rattle.std.specs.Prelude.{IfOk, IfErr, OnOk};
ghost use Rattle.std.specs.BTreeSet.{insert_key};
ghost use Rattle.std.specs.List.Sorted.{IsNonDecreasing};
ghost use Rattle.std.specs.Ordering.{nat_cmp};
ghost use Rattle.curp_base.specs.Words.{Each};
ghost use Rattle.curp_model.specs.Master.{has};
ghost use Rattle.curp_rounds.specs.Indexes.{IsBetween};

use curp_base::{NoMemory, Reserved};
use std::alloc::Global;
use std::marker::Model;

/// Indexes of entries, in ascending order. Contracts see them, and for how many more there is room.
pub struct Indexes {
    numbers: Reserved<u64>,
}

impl Drop for Indexes {
    fn drop(self) {
        let Indexes { numbers: _ } = self;
    }
}

impl Model for Indexes {
    ghost use Rattle.std.specs.List.Sorted.{IsNonDecreasing};
    ghost use Rattle.curp_rounds.specs.Indexes.{IndexList};

    ghost Value = { IndexList };

    ghost view = { λ i. record { numbers = i.numbers.items; spare = i.numbers.spare } };

    ghost invariant = { λ i. IsNonDecreasing i.numbers.items };
}

impl Indexes {
    /// None at first. It takes no memory.
    pub fn new(alloc: Global) -> Indexes
        ensures { result.numbers ≡ [] }
    {
        Indexes {
            numbers: Reserved::new(alloc),
        }
    }

    /// Makes room for so many more.
    pub fn reserve(&mut self, more: u64) -> Result<(), NoMemory>
        ensures numbers { self.new.numbers ≡ self.old.numbers }
        ensures room { OnOk result (more ≤ self.new.spare) }
        ensures no_more { self.new.spare ≤ max self.old.spare (max more (length self.old.numbers)) }
    {
        self.numbers.reserve(more)
    }

    /// Puts an index at its place, unless it is there.
    pub fn insert(&mut self, index: u64)
        requires { 1 ≤ self.old.spare }
        ensures { self.new.numbers ≡ insert_key nat_cmp self.old.numbers index }
    {
        if let Err(at) = place(&self.numbers, index) {
            self.numbers.insert(at, index);
        }
    }

    /// Adds an index that stands behind all others.
    pub fn push(&mut self, index: u64)
        requires room { 1 ≤ self.old.spare }
        requires last { Each (λ number. number < index) self.old.numbers }
        ensures numbers { self.new.numbers ≡ self.old.numbers ++ index ∷ [] }
        ensures spare { self.old.spare ≤ self.new.spare + 1 }
    {
        self.numbers.push(index);
    }

    /// Whether the index is among them.
    pub fn contains(&self, index: u64) -> bool
        ensures { result ≡ has index self.now.numbers }
    {
        place(&self.numbers, index).is_ok()
    }

    /// Those below a limit.
    pub fn below(&self, limit: u64) -> &[u64]
        ensures { result.now ≡ filter (λ number. nat_lt number limit) self.now.numbers }
    {
        let count = self.numbers.partition_point(|number| *number < limit);
        &self.numbers.as_slice()[..count]
    }

    /// Takes those below a limit out.
    pub fn remove_below(&mut self, limit: u64)
        ensures { self.new.numbers ≡ filter (λ number. not (nat_lt number limit)) self.old.numbers }
    {
        let count = self.numbers.partition_point(|number| *number < limit);
        self.numbers.drop_run(0, count);
    }
}

/// Where a number stands, or else would stand, among ascending ones.
fn place(numbers: &[u64], number: u64) -> Result<usize, usize>
    requires { IsNonDecreasing numbers.now }
    ensures found { IfOk result (λ at. (at < length numbers.now) × (slice_index numbers.now at ≡ number)) }
    ensures absent { IfErr result (IsBetween numbers.now number) }
{
    numbers.binary_search(&number)
}

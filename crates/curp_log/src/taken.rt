//! The last package that was taken, which a log lends also where it has packed it.
ghost use Rattle.std.specs.Prelude.{◌≡◌, ◌≤◌, slice_get, IfOk, OnErr, OnOk};
ghost use Rattle.curp_log.specs.State.{IsKept, IsNewest, take_after, take_of, take_told};
ghost use Rattle.curp_log.specs.Taken.{taken_of};

use crate::log::TakenPackage;
use curp_base::{NoMemory, Shared};
use curp_cmd::{Entry, Package};
use curp_entries::PackedEntries;
use std::alloc::Global;

/// Where the last package that was taken is found.
pub enum LatestTake {
    /// None was taken.
    Never,
    /// In the log, where it isn't packed, at that index.
    Newest {
        index: u64,
    },
    /// In a copy of the entry with that index.
    Copied {
        index: u64,
        migration: u32,
        package: Shared<Package>,
    },
}

impl Drop for LatestTake {
    fn drop(self) {
        match self {
            LatestTake::Never => {}
            LatestTake::Newest { index: _ } => {}
            LatestTake::Copied {
                index: _,
                migration: _,
                package: _,
            } => {}
        }
    }
}

impl LatestTake {
    /// An entry with that index comes.
    pub fn follow(&mut self, index: u64, entry: &Entry)
        ensures { self.new ≡ take_after self.old index entry.now }
    {
        if let Entry::Take { .. } = entry {
            *self = LatestTake::Newest { index };
        }
    }

    /// The package is copied before the log may pack it.
    pub fn keep(&mut self, alloc: Global, entries: &PackedEntries) -> Result<(), NoMemory>
        requires { IsNewest entries.now.packed entries.now.entries self.old }
        ensures kept { OnOk result (IsKept self.new) }
        ensures told { take_told entries.now.entries self.new ≡ take_told entries.now.entries self.old }
        ensures err { OnErr result (self.new ≡ self.old) }
    {
        if let LatestTake::Newest { index } = self {
            let copy = copied(alloc, entries, *index)?;
            *self = copy;
        }
        Ok(())
    }

    /// The package, if one was taken.
    pub fn lend<'a>(&'a self, entries: &'a PackedEntries) -> Option<TakenPackage<'a>>
        requires { IsNewest entries.now.packed entries.now.entries self.now }
        ensures { taken_of result ≡ take_told entries.now.entries self.now }
    {
        match self {
            LatestTake::Never => None,
            LatestTake::Newest { index } => lent(entries, *index),
            LatestTake::Copied {
                index,
                migration,
                package,
            } => Some(TakenPackage {
                migration: *migration,
                package,
                index: *index,
            }),
        }
    }
}

// The package of the Take with that index, which isn't packed.
fn lent(entries: &PackedEntries, index: u64) -> Option<TakenPackage<'_>>
    requires { entries.now.packed ≤ index }
    ensures { taken_of result ≡ take_of index (slice_get entries.now.entries index) }
{
    match entries.newest(index) {
        Some(Entry::Take { migration, package }) => Some(TakenPackage {
            migration: *migration,
            package,
            index,
        }),
        _ => None,
    }
}

// A copy of it.
fn copied(alloc: Global, entries: &PackedEntries, index: u64) -> Result<LatestTake, NoMemory>
    requires { entries.now.packed ≤ index }
    ensures kept { IfOk result IsKept }
    ensures told { IfOk result (λ take. take_told entries.now.entries take
        ≡ take_of index (slice_get entries.now.entries index)) }
{
    match lent(entries, index) {
        None => Ok(LatestTake::Never),
        Some(taken) => Ok(LatestTake::Copied {
            index,
            migration: taken.migration,
            package: taken.package.share()?,
        }),
    }
}

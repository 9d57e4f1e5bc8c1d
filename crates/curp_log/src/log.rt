ghost use Rattle.std.specs.Prelude.{◌≡◌, ◌+◌, ◌-◌, ◌<◌, ◌≤◌, ◌^◌, nat_lt, if◌then◌else◌, true, [], ◌∷◌, ◌++◌, None, is_some, length, take, drop, slice_get, IfOk, IfSome, OnOk};
ghost use Rattle.std.specs.FinMap as map;
ghost use Rattle.std.specs.List.{filter, list_all};
ghost use Rattle.std.specs.Option.{option_copied};
ghost use Rattle.curp_cmd.specs.Entry.{room_of};
ghost use Rattle.curp_cmd.specs.Hash.{hashes};
ghost use Rattle.curp_cmd.specs.declared.entry.Entry.TheVariants.{Take};
ghost use Rattle.curp_range.specs.Spans.{is_owned};
ghost use Rattle.curp_model.specs.Log.{IsLog, fits_at, is_log, is_pair_in, meaning};
ghost use Rattle.curp_model.specs.Ranges.{owns_all};
ghost use Rattle.curp_model.specs.Table.{check, packed};
ghost use Rattle.curp_entries.specs.Packed.{IsPackedPart, IsShortTail};
ghost use Rattle.curp_entries.specs.Requests.{request_at};
ghost use Rattle.curp_log.specs.Ops.{answer_at};
ghost use Rattle.curp_log.specs.State.{given_of};
ghost use Rattle.curp_log.specs.Taken.{taken_of};

use crate::packing::{pairs_in, same_package};
use crate::state::{LatestGive, State};
use crate::taken::LatestTake;
use curp_base::{NoMemory, Shared};
use curp_cmd::{Answer, Command, Entry, Hashes, Package, Request, RequestId, Store, room};
use curp_entries::PackedEntries;
use curp_model::Check;
use curp_range::Ranges;
use curp_range::laws::one_span_covers;
use curp_rifl::Table;
use std::alloc::Global;
use std::marker::Model;

/// The log of a master, with what it means: the store, the reply table, the owned hashes, the last package taken and the
/// last migration given; and the answer to each of its Ops. Contracts see the range that the master began with, the
/// entries, how many of them are packed, and for how much more there is room, in the units of `curp_cmd::room`.
pub struct Log {
    alloc: Global,
    lo: u64,
    hi: u64,
    entries: PackedEntries,
    // Of each entry, in their order; only Ops have one.
    answers: Vec<Option<Answer>>,
    state: State,
    taken: LatestTake,
}

impl Drop for Log {
    fn drop(self) {
        let Log {
            alloc: _,
            lo: _,
            hi: _,
            entries: _,
            answers: _,
            state: _,
            taken: _,
        } = self;
    }
}

/// The last package that was taken: the migration, the package, and the index of its entry.
#[derive(Clone, Copy)]
pub struct TakenPackage<'a> {
    pub migration: u32,
    pub package: &'a Shared<Package>,
    pub index: u64,
}

impl Model for Log {
    ghost use Rattle.std.specs.Prelude.{◌-◌, min, vec_len, vec_capacity};
    ghost use Rattle.curp_log.specs.Content.{Content};
    ghost use Rattle.curp_log.specs.State.{IsKeptLog, room_in};

    ghost Value = { Content };

    ghost view = { λ l. record {
      lo = l.lo;
      hi = l.hi;
      entries = l.entries.entries;
      packed = l.entries.packed;
      spare = min l.entries.spare (min (vec_capacity l.answers - vec_len l.answers) (room_in l.state));
    } };

    ghost invariant = { λ l. IsKeptLog l.lo l.hi l.entries.entries l.entries.packed l.answers.items l.state l.taken };
}

impl Log {
    /// The log of a master that begins with the hashes from `lo` to `hi`, both counted.
    pub fn begin(alloc: Global, lo: u64, hi: u64) -> Result<Log, NoMemory>
        requires { lo ≤ hi }
        ensures lo { IfOk result (λ log. log.lo ≡ lo) }
        ensures hi { IfOk result (λ log. log.hi ≡ hi) }
        ensures entries { IfOk result (λ log. log.entries ≡ []) }
    {
        Ok(Log {
            alloc,
            lo,
            hi,
            entries: PackedEntries::new(alloc),
            answers: Vec::new(alloc),
            state: State::begin(alloc, lo, hi)?,
            taken: LatestTake::Never,
        })
    }

    /// The log with these entries, if a master that began with the hashes from `lo` to `hi` could have pushed them.
    pub fn from_entries(
        alloc: Global,
        lo: u64,
        hi: u64,
        entries: &[Entry],
    ) -> Result<Option<Log>, NoMemory>
        requires ordered { lo ≤ hi }
        ensures is_log { IfOk result (λ made. is_some made ≡ is_log lo hi entries.now) }
        ensures lo { IfOk result (λ made. IfSome made (λ log. log.lo ≡ lo)) }
        ensures hi { IfOk result (λ made. IfSome made (λ log. log.hi ≡ hi)) }
        ensures entries { IfOk result (λ made. IfSome made (λ log. log.entries ≡ entries.now)) }
    {
        let mut log = Log::begin(alloc, lo, hi)?;
        for entry in entries {
            let fits = log.fits(entry)?;
            if !fits {
                return Ok(None);
            }
            log.reserve(room(entry))?;
            log.push(entry.copy(alloc)?);
        }
        Ok(Some(log))
    }

    /// Makes room for entries that take so much, by `curp_cmd::room`. The oldest entries are packed first, so that fewer than
    /// 128 aren't, or else one of the first 64 of those has no encoding.
    pub fn reserve(&mut self, units: u64) -> Result<(), NoMemory>
        ensures lo { self.new.lo ≡ self.old.lo }
        ensures hi { self.new.hi ≡ self.old.hi }
        ensures entries { self.new.entries ≡ self.old.entries }
        ensures short { OnOk result (IsShortTail (drop self.new.packed self.new.entries)) }
        ensures room { OnOk result (units ≤ self.new.spare) }
        ensures kept { self.old.spare ≤ self.new.spare }
    {
        // What is lent isn't packed.
        self.taken.keep(self.alloc, &self.entries)?;
        self.entries.reserve(units)?;
        self.answers.reserve(units as usize)?;
        self.state.reserve(units)
    }

    /// Adds an entry at the end, and tells its index. It takes no memory, since there is room.
    pub fn push(&mut self, entry: Entry) -> u64
        requires room { room_of entry ≤ self.old.spare }
        requires fits { fits_at (meaning self.old.lo self.old.hi self.old.entries) entry ≡ true }
        ensures index { result ≡ length self.old.entries }
        ensures entries { self.new.entries ≡ self.old.entries ++ entry ∷ [] }
        ensures packed { self.new.packed ≡ self.old.packed }
        ensures lo { self.new.lo ≡ self.old.lo }
        ensures hi { self.new.hi ≡ self.old.hi }
        ensures spare { self.old.spare ≤ self.new.spare + room_of entry }
    {
        let index = self.entries.len();
        self.taken.follow(index, &entry);
        self.state.apply(index, &entry, &mut self.answers);
        self.entries.push(entry);
        index
    }

    /// The number of entries.
    pub fn len(&self) -> u64
        ensures value { result ≡ length self.now.entries }
        ensures small { length self.now.entries < 2 ^ 63 }
    {
        self.entries.len()
    }

    /// How many of the oldest entries are packed, and their encodings, one behind the other.
    pub fn packed(&self) -> (u64, &[u8])
        ensures count { result.0 ≡ self.now.packed }
        ensures part { IsPackedPart self.now.entries result.0 result.1.now }
    {
        self.entries.packed()
    }

    /// The entry at that index, if one stands there that isn't packed.
    pub fn newest(&self, index: u64) -> Option<&Entry>
        ensures { option_copied result
            ≡ (if nat_lt index self.now.packed then None else slice_get self.now.entries index) }
    {
        self.entries.newest(index)
    }

    /// The request of the Op at that index, if one stands there. It takes no memory.
    pub fn request(&self, index: u64) -> Option<Request>
        ensures { result ≡ request_at (slice_get self.now.entries index) }
    {
        self.entries.request(index)
    }

    /// A copy of the entry at that index, if one stands there.
    pub fn entry(&self, index: u64) -> Result<Option<Entry>, NoMemory>
        ensures { IfOk result (λ entry. entry ≡ slice_get self.now.entries index) }
    {
        self.entries.entry(index)
    }

    /// Copies of the entries from that index on, of which there are none past the end.
    pub fn suffix(&self, start: u64) -> Result<Vec<Entry>, NoMemory>
        ensures value { IfOk result (λ entries. entries.items ≡ drop start self.now.entries) }
        ensures is_log { IsLog self.now.lo self.now.hi self.now.entries }
        ensures ordered { self.now.lo ≤ self.now.hi }
    {
        self.entries.suffix(start)
    }

    /// Copies of the entries from an index on, as far as another.
    pub fn between(&self, start: u64, end: u64) -> Result<Vec<Entry>, NoMemory>
        ensures { IfOk result (λ entries. entries.items ≡ take (end - start) (drop start self.now.entries)) }
    {
        self.entries.between(start, end)
    }

    /// The duplicate check (RIFL). It makes no more than three binary searches.
    pub fn check(&self, id: &RequestId) -> Check
        ensures { result ≡ check (meaning self.now.lo self.now.hi self.now.entries).table id.now }
    {
        self.state.table.check(id)
    }

    /// Whether the master owns the hash of each key that the command names.
    pub fn owns(&self, command: &Command) -> bool
        ensures { result ≡ owns_all (meaning self.now.lo self.now.hi self.now.entries).owned (hashes command.now) }
    {
        owns_each(&self.state.ranges, &Hashes::of(command))
    }

    // Whether the entry could be pushed.
    fn fits(&self, entry: &Entry) -> Result<bool, NoMemory>
        ensures { IfOk result (λ fits. fits ≡ fits_at (meaning self.now.lo self.now.hi self.now.entries) entry.now) }
    {
        match entry {
            Entry::Op { request, .. } => {
                Ok(self.check(&request.id) == Check::New && self.owns(&request.command))
            }
            Entry::Take { package, .. } => self.fits_package(package),
            Entry::Give { .. } | Entry::Expire { .. } => Ok(true),
        }
    }

    // Whether a Take of that package could be pushed.
    fn fits_package(&self, taken: &Package) -> Result<bool, NoMemory>
        ensures { IfOk result (λ fits. fits
            ≡ fits_at (meaning self.now.lo self.now.hi self.now.entries) (Take 0 taken.now)) }
    {
        one_span_covers();
        let _spans = self.state.ranges.spans();
        if !self.state.ranges.covers(taken.lo, taken.hi) {
            return Ok(false);
        }
        let own = self.pack(taken.lo, taken.hi)?;
        Ok(same_package(taken, &own))
    }

    /// What a Take of the range from `lo` to `hi` would carry: the pairs of the range, and the whole reply table.
    pub fn pack(&self, lo: u64, hi: u64) -> Result<Package, NoMemory>
        requires { lo ≤ hi }
        ensures lo { IfOk result (λ part. part.lo ≡ lo) }
        ensures hi { IfOk result (λ part. part.hi ≡ hi) }
        ensures pairs { IfOk result (λ part. part.pairs
            ≡ filter (is_pair_in lo hi) (map.entries (meaning self.now.lo self.now.hi self.now.entries).store)) }
        ensures table { IfOk result (λ part. part.table
            ≡ packed (meaning self.now.lo self.now.hi self.now.entries).table) }
    {
        let all = self.state.store.pairs(self.alloc)?;
        Ok(Package {
            lo,
            hi,
            pairs: pairs_in(self.alloc, all.as_slice(), lo, hi)?,
            table: self.state.table.pack()?,
        })
    }

    /// What was answered to the Op at that index, if one stands there.
    pub fn answer(&self, index: u64) -> Option<Answer>
        ensures { result ≡ answer_at self.now.lo self.now.hi self.now.entries index }
    {
        match self.answers.get(index as usize) {
            Some(answer) => *answer,
            None => None,
        }
    }

    /// The store behind the entries.
    pub fn store(&self) -> &Store
        ensures { result.now.map ≡ (meaning self.now.lo self.now.hi self.now.entries).store }
    {
        &self.state.store
    }

    /// The reply table behind the entries.
    pub fn table(&self) -> &Table
        ensures { result.now.table ≡ (meaning self.now.lo self.now.hi self.now.entries).table }
    {
        &self.state.table
    }

    /// The hashes that the master owns behind the entries.
    pub fn ranges(&self) -> &Ranges
        ensures { result.now.spans ≡ (meaning self.now.lo self.now.hi self.now.entries).owned }
    {
        &self.state.ranges
    }

    /// The last package that was taken, if one was.
    pub fn package(&self) -> Option<TakenPackage<'_>>
        ensures { taken_of result ≡ (meaning self.now.lo self.now.hi self.now.entries).taken }
    {
        self.taken.lend(&self.entries)
    }

    /// The last migration that was given, if one was.
    pub fn given(&self) -> Option<LatestGive>
        ensures { given_of result ≡ (meaning self.now.lo self.now.hi self.now.entries).given }
    {
        self.state.given
    }
}

/// Whether each of the hashes is owned.
fn owns_each(ranges: &Ranges, hashes: &Hashes) -> bool
    ensures { result ≡ list_all (is_owned ranges.now.spans) hashes.now }
{
    hashes.as_slice().iter().all(|hash| ranges.owns(*hash))
}

ghost use Rattle.std.specs.Prelude.{◌≡◌, ℕ, ◌+◌, ◌*◌, ◌<◌, ◌≤◌, ◌^◌, ◌==◌, nat_le, nat_eq, if◌then◌else◌, [], ◌∷◌, ◌++◌, length, drop, filter, Some, OnOk, OnErr};
ghost use Rattle.std.specs.HashMap.{get, spare};
ghost use Rattle.std.specs.List.{list_any};
ghost use Rattle.std.specs.VecDeque.{deque_capacity};
ghost use Rattle.curp_base.specs.Words.{Each};
ghost use Rattle.curp_cmd.specs.Hash.{hashes};
ghost use Rattle.curp_range.specs.Spans.{is_in};
ghost use Rattle.curp_tail.specs.Tail.{IndexesRise, is_dirty, tail_from, touched_of};
ghost use Rattle.curp_tail.specs.Kept.{LastsAre, is_this, moved_of, names, ranges_in, without_last};

use crate::Touched;
use curp_base::{NoMemory, Reserved};
use curp_cmd::{Command, Entry, Hashes};
use std::alloc::{AllocError, Global};
use std::collections::{HashMap, VecDeque};
use std::marker::Model;

/// What is kept of an entry: its place in the log, counted from 0, and what it touches.
#[derive(Drop)]
pub struct TailEntry {
    pub index: u64,
    pub touched: Touched,
}

/// A whole range that an entry moves, both ends counted, and the entry's place.
#[derive(Clone, Copy)]
pub struct Moved {
    pub index: u64,
    pub lo: u64,
    pub hi: u64,
}

impl Moved {
    fn covers(&self, hash: u64) -> bool
        ensures { result ≡ is_in self.now.lo self.now.hi hash }
    {
        self.lo <= hash && hash <= self.hi
    }
}

/// The entries of a log that aren't synced, by what they touch: those that were added and not forgotten, in the order
/// of their places. Contracts see them, and for how many more hashes there is room; an entry has four at most.
pub struct Tail {
    entries: VecDeque<TailEntry>,
    // Of each hash that a command of an entry names, the last such entry.
    lasts: HashMap<u64, u64>,
    ranges: Reserved<Moved>,
}

impl Drop for Tail {
    fn drop(self) {
        let Tail {
            entries: _,
            lasts: _,
            ranges: _,
        } = self;
    }
}

impl Model for Tail {
    ghost use Rattle.std.specs.Prelude.{◌-◌, min, nat_eq, length};
    ghost use Rattle.std.specs.HashMap.{get, spare};
    ghost use Rattle.std.specs.VecDeque.{deque_capacity};
    ghost use Rattle.curp_tail.specs.Kept.{TailContent, IsTail};

    ghost Value = { TailContent };

    ghost view = { λ t. record {
      entries = t.entries.items;
      spare = min (deque_capacity t.entries - length t.entries.items)
          (min t.ranges.spare (spare t.lasts));
    } };

    ghost invariant = { λ t. IsTail t.entries.items (get nat_eq t.lasts) t.ranges.items };
}

impl Tail {
    /// A tail without entries. It takes no memory.
    pub fn new(alloc: Global) -> Tail
        ensures { result.entries ≡ [] }
    {
        Tail {
            entries: VecDeque::new(alloc),
            lasts: HashMap::new(alloc),
            ranges: Reserved::new(alloc),
        }
    }

    /// Whether some entry touches the hash. It takes no memory, and looks at no entry but those that move a range.
    pub fn is_dirty(&self, hash: u64) -> bool
        ensures { result ≡ is_dirty self.now.entries hash }
    {
        self.lasts.contains_key(&hash) || covers(&self.ranges, hash)
    }

    /// Whether some entry touches a hash of the command. It takes no memory.
    pub fn covers_dirty(&self, command: &Command) -> bool
        ensures { result ≡ list_any (is_dirty self.now.entries) (hashes command.now) }
    {
        Hashes::of(command)
            .as_slice()
            .iter()
            .any(|hash| self.is_dirty(*hash))
    }

    /// Makes room for so many more entries.
    pub fn reserve(&mut self, entries: u64) -> Result<(), NoMemory>
        ensures entries { self.new.entries ≡ self.old.entries }
        ensures room { OnOk result (4 * entries ≤ self.new.spare) }
    {
        // No command names more than four keys.
        let hashes = (entries as usize).checked_mul(4).ok_or(AllocError)?;
        self.entries.reserve(hashes)?;
        self.ranges.reserve(hashes as u64)?;
        self.lasts.reserve(hashes)
    }

    /// Adds entries that stand from that index on, all or none.
    pub fn add(&mut self, entries: &[Entry], index: u64) -> Result<(), NoMemory>
        requires below { Each (λ entry. entry.index < index) self.old.entries }
        requires fits { index + length entries.now < 2 ^ 64 }
        ensures added { OnOk result (self.new.entries ≡ self.old.entries ++ tail_from index entries.now) }
        ensures err { OnErr result (self.new.entries ≡ self.old.entries) }
    {
        self.reserve(entries.len() as u64)?;
        self.add_reserved(entries, index);
        Ok(())
    }

    /// Adds entries that stand from that index on. It takes no memory, since there is room.
    pub fn add_reserved(&mut self, entries: &[Entry], index: u64)
        requires room { 4 * length entries.now ≤ self.old.spare }
        requires below { Each (λ entry. entry.index < index) self.old.entries }
        requires fits { index + length entries.now < 2 ^ 64 }
        ensures added { self.new.entries ≡ self.old.entries ++ tail_from index entries.now }
        ensures spare { self.old.spare ≤ self.new.spare + 4 * length entries.now }
    {
        keep_all(
            &mut self.entries,
            &mut self.lasts,
            &mut self.ranges,
            entries,
            index,
        );
    }

    /// Forgets the entries below that length of the log, which is synced. It takes no memory.
    pub fn synced(&mut self, length: u64)
        ensures { self.new.entries ≡ filter (λ entry. nat_le length entry.index) self.old.entries }
    {
        let forgotten = self.entries.partition_point(|entry| entry.index < length);
        forget_prefix(&mut self.entries, &mut self.lasts, forgotten);
        self.ranges.retain(|moved| moved.index >= length);
    }
}

fn covers(ranges: &[Moved], hash: u64) -> bool
    ensures { result ≡ list_any (λ moved. is_in moved.lo moved.hi hash) ranges.now }
{
    ranges.iter().any(|moved| moved.covers(hash))
}

/// Keeps entries that stand from that index on. It takes no memory.
fn keep_all(
    kept: &mut VecDeque<TailEntry>,
    lasts: &mut HashMap<u64, u64>,
    ranges: &mut Reserved<Moved>,
    entries: &[Entry],
    index: u64,
)
    requires fits { index + length entries.now < 2 ^ 64 }
    requires kept_room { length kept.old.items + length entries.now ≤ deque_capacity kept.old }
    requires ranges_room { length entries.now ≤ ranges.old.spare }
    requires lasts_room { 4 * length entries.now ≤ spare lasts.old }
    requires lasts_are { LastsAre (get nat_eq lasts.old) kept.old.items }
    requires ranges_are { ranges.old.items ≡ ranges_in kept.old.items }
    ensures items { kept.new.items ≡ kept.old.items ++ tail_from index entries.now }
    ensures lasts { LastsAre (get nat_eq lasts.new) kept.new.items }
    ensures ranges { ranges.new.items ≡ ranges_in kept.new.items }
    ensures kept_capacity { deque_capacity kept.new ≡ deque_capacity kept.old }
    ensures ranges_spare { ranges.old.spare ≤ ranges.new.spare + length entries.now }
    ensures lasts_spare { spare lasts.old ≤ spare lasts.new + 4 * length entries.now }
{
    for (at, entry) in entries.iter().enumerate() {
        keep(kept, lasts, ranges, entry, index + at as u64);
    }
}

/// Keeps an entry behind the others.
fn keep(
    kept: &mut VecDeque<TailEntry>,
    lasts: &mut HashMap<u64, u64>,
    ranges: &mut Reserved<Moved>,
    entry: &Entry,
    index: u64,
)
    requires kept_room { length kept.old.items < deque_capacity kept.old }
    requires ranges_room { 1 ≤ ranges.old.spare }
    requires lasts_room { 4 ≤ spare lasts.old }
    ensures items { kept.new.items ≡ kept.old.items ++ record { index = index; touched = touched_of entry.now } ∷ [] }
    ensures kept_capacity { deque_capacity kept.new ≡ deque_capacity kept.old }
    ensures ranges { ranges.new.items ≡ ranges.old.items ++ moved_of index (touched_of entry.now) }
    ensures ranges_spare { ranges.old.spare ≤ ranges.new.spare + 1 }
    ensures lasts { (hash : ℕ) → get nat_eq lasts.new hash
        ≡ (if names hash (touched_of entry.now) then Some index else get nat_eq lasts.old hash) }
    ensures lasts_spare { spare lasts.old ≤ spare lasts.new + 4 }
{
    let touched = Touched::of(entry);
    keep_beside(lasts, ranges, &touched, index);
    kept.push_back_reserved(TailEntry { index, touched });
}

fn keep_beside(
    lasts: &mut HashMap<u64, u64>,
    ranges: &mut Reserved<Moved>,
    touched: &Touched,
    index: u64,
)
    requires ranges_room { 1 ≤ ranges.old.spare }
    requires lasts_room { 4 ≤ spare lasts.old }
    ensures ranges { ranges.new.items ≡ ranges.old.items ++ moved_of index touched.now }
    ensures ranges_spare { ranges.old.spare ≤ ranges.new.spare + 1 }
    ensures lasts { (hash : ℕ) → get nat_eq lasts.new hash
        ≡ (if names hash touched.now then Some index else get nat_eq lasts.old hash) }
    ensures lasts_spare { spare lasts.old ≤ spare lasts.new + 4 }
{
    match touched {
        Touched::Hashes(hashes) => note_all(lasts, hashes, index),
        Touched::Range { lo, hi } => ranges.push(Moved {
            index,
            lo: *lo,
            hi: *hi,
        }),
        Touched::Nothing => {}
    }
}

/// The entry at that index is the last one that names each of the hashes.
fn note_all(lasts: &mut HashMap<u64, u64>, hashes: &Hashes, index: u64)
    requires { 4 ≤ spare lasts.old }
    ensures lasts { (hash : ℕ) → get nat_eq lasts.new hash
        ≡ (if list_any (λ h. h == hash) hashes.now then Some index else get nat_eq lasts.old hash) }
    ensures spare { spare lasts.old ≤ spare lasts.new + 4 }
{
    for at in 0..hashes.count() {
        note(lasts, hashes.as_slice()[at], index);
    }
}

fn note(lasts: &mut HashMap<u64, u64>, hash: u64, index: u64)
    requires { 1 ≤ spare lasts.old }
    ensures lasts { (other : ℕ) → get nat_eq lasts.new other
        ≡ (if hash == other then Some index else get nat_eq lasts.old other) }
    ensures spare { spare lasts.old ≤ spare lasts.new + 1 }
{
    let noted: Result<_, _> = lasts.insert(hash, index);
    noted.unwrap();
}

/// Forgets so many of the first entries.
fn forget_prefix(entries: &mut VecDeque<TailEntry>, lasts: &mut HashMap<u64, u64>, count: usize)
    requires within { count ≤ length entries.old.items }
    requires rise { IndexesRise entries.old.items }
    requires lasts { LastsAre (get nat_eq lasts.old) entries.old.items }
    ensures items { entries.new.items ≡ drop count entries.old.items }
    ensures lasts { LastsAre (get nat_eq lasts.new) entries.new.items }
{
    for _ in 0..count {
        forget_first(entries, lasts);
    }
}

fn forget_first(entries: &mut VecDeque<TailEntry>, lasts: &mut HashMap<u64, u64>)
    requires rise { IndexesRise entries.old.items }
    requires lasts { LastsAre (get nat_eq lasts.old) entries.old.items }
    ensures items { entries.new.items ≡ drop 1 entries.old.items }
    ensures lasts { LastsAre (get nat_eq lasts.new) entries.new.items }
{
    if let Some(entry) = entries.pop_front() {
        forget(lasts, &entry.touched, entry.index);
    }
}

/// The entry at that index is gone: it is the last one for none of its hashes any more.
fn forget(lasts: &mut HashMap<u64, u64>, touched: &Touched, index: u64)
    ensures { (hash : ℕ) → get nat_eq lasts.new hash
        ≡ without_last (names hash touched.now) index (get nat_eq lasts.old hash) }
{
    if let Touched::Hashes(hashes) = touched {
        forget_all(lasts, hashes.as_slice(), index);
    }
}

fn forget_all(lasts: &mut HashMap<u64, u64>, hashes: &[u64], index: u64)
    ensures { (hash : ℕ) → get nat_eq lasts.new hash
        ≡ without_last (list_any (λ h. h == hash) hashes.now) index (get nat_eq lasts.old hash) }
{
    for hash in hashes {
        forget_one(lasts, *hash, index);
    }
}

fn forget_one(lasts: &mut HashMap<u64, u64>, hash: u64, index: u64)
    ensures { (other : ℕ) → get nat_eq lasts.new other
        ≡ without_last (hash == other) index (get nat_eq lasts.old other) }
{
    if is_last(lasts, hash, index) {
        lasts.remove(&hash);
    }
}

fn is_last(lasts: &HashMap<u64, u64>, hash: u64, index: u64) -> bool
    ensures { result ≡ is_this index (get nat_eq lasts.now hash) }
{
    match lasts.get(&hash).copied() {
        Some(last) => last == index,
        None => false,
    }
}

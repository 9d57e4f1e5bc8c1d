ghost use Rattle.std.specs.Prelude.{◌≡◌, ◌+◌, ◌-◌, ◌<◌, ◌≤◌, ◌^◌, ◌∷◌, ◌++◌, [], take, drop, length, max, slice_get, nat_lt, if◌then◌else◌, None, IfOk, OnErr, OnOk};
ghost use Rattle.std.specs.Option.{option_copied};
ghost use Rattle.curp_entries.specs.Packed.{IsPackedPart, IsShortTail};
ghost use Rattle.curp_entries.specs.Requests.{request_at};
ghost use Rattle.curp_items.specs.Encoding.{request_of};

use crate::prefix::Prefix;
use crate::runs::{add_copies, keep_recent, leave, push_runs};
use curp_base::{NoMemory, make_room, past};
use curp_cmd::{Entry, Request};
use std::alloc::{AllocError, Global};
use std::marker::Model;

/// The entries of a log: the oldest as their encodings, the newest as they are. Contracts see all entries, how many of them
/// are packed, and for how many more there is room.
pub struct PackedEntries {
    alloc: Global,
    prefix: Prefix,
    // The last of those that are packed as they were before, so that copies of them share what they share.
    recent: Vec<Entry>,
    tail: Vec<Entry>,
}

impl Drop for PackedEntries {
    fn drop(self) {
        let PackedEntries {
            alloc: _,
            prefix: _,
            recent: _,
            tail: _,
        } = self;
    }
}

impl Model for PackedEntries {
    ghost use Rattle.std.specs.Prelude.{◌-◌, ◌^◌, ◌++◌, length, min, vec_capacity, vec_len};
    ghost use Rattle.curp_entries.specs.EntryList.{AreHeld, EntryList};

    ghost Value = { EntryList };

    ghost view = { λ e. record {
      entries = e.prefix ++ e.tail.items;
      packed = length e.prefix;
      spare = min (vec_capacity e.tail - vec_len e.tail) (2 ^ 63 - 1 - length (e.prefix ++ e.tail.items));
    } };

    ghost invariant = { λ e. AreHeld e.prefix e.recent.items e.tail.items };
}

impl PackedEntries {
    /// No entries. It takes no memory.
    pub fn new(alloc: Global) -> PackedEntries
        ensures { result.entries ≡ [] }
    {
        PackedEntries {
            alloc,
            prefix: Prefix::new(alloc),
            recent: Vec::new(alloc),
            tail: Vec::new(alloc),
        }
    }

    /// Packs what is to be packed, and makes room for so many more entries. Where memory is wanting fewer may be packed.
    pub fn reserve(&mut self, spare: u64) -> Result<(), NoMemory>
        ensures entries { self.new.entries ≡ self.old.entries }
        ensures short { OnOk result (IsShortTail (drop self.new.packed self.new.entries)) }
        ensures room { OnOk result (spare ≤ self.new.spare) }
        ensures kept { self.old.spare ≤ self.new.spare }
        ensures no_more { self.new.spare ≤ max spare (self.old.spare + length (drop self.old.packed self.old.entries)) }
    {
        self.pack()?;
        self.hold(spare)?;
        make_room(&mut self.tail, spare as usize)
    }

    /// Packs as many of the oldest entries as leave a short tail. Where memory is wanting fewer may be packed.
    pub fn pack(&mut self) -> Result<(), NoMemory>
        ensures entries { self.new.entries ≡ self.old.entries }
        ensures short { OnOk result (IsShortTail (drop self.new.packed self.new.entries)) }
        ensures packed { self.old.packed ≤ self.new.packed }
        ensures kept { self.old.spare ≤ self.new.spare }
        ensures no_more { self.new.spare ≤ self.old.spare + length (drop self.old.packed self.old.entries) }
    {
        let (count, packed) = push_runs(&mut self.prefix, &self.tail);
        if count > 0 {
            keep_recent(self.alloc, &mut self.recent, &self.tail[..count]);
            leave(&mut self.tail, count);
        }
        packed
    }

    /// Adds an entry behind the others. It takes no memory, since there is room.
    pub fn push(&mut self, entry: Entry)
        requires { 1 ≤ self.old.spare }
        ensures entries { self.new.entries ≡ self.old.entries ++ entry ∷ [] }
        ensures packed { self.new.packed ≡ self.old.packed }
        ensures spare { self.new.spare + 1 ≡ self.old.spare }
    {
        self.tail.push_reserved(entry);
    }

    /// Adds copies of entries behind the others.
    pub fn extend(&mut self, entries: &[Entry]) -> Result<(), NoMemory>
        ensures ok { OnOk result (self.new.entries ≡ self.old.entries ++ entries.now) }
        ensures err { OnErr result (self.new.entries ≡ self.old.entries) }
        ensures packed { self.new.packed ≡ self.old.packed }
    {
        self.hold(entries.len() as u64)?;
        add_copies(self.alloc, &mut self.tail, entries)
    }

    pub fn len(&self) -> u64
        ensures value { result ≡ length self.now.entries }
        ensures small { length self.now.entries < 2 ^ 63 }
        ensures packed { self.now.packed ≤ length self.now.entries }
    {
        self.prefix.len() + self.tail.len() as u64
    }

    /// How many of the oldest entries are packed, and their encodings, one behind the other.
    pub fn packed(&self) -> (u64, &[u8])
        ensures count { result.0 ≡ self.now.packed }
        ensures part { IsPackedPart self.now.entries result.0 result.1.now }
    {
        (self.prefix.len(), self.prefix.as_bytes())
    }

    /// An entry that isn't packed, if one stands at that index.
    pub fn newest(&self, index: u64) -> Option<&Entry>
        ensures { option_copied result
            ≡ (if nat_lt index self.now.packed then None else slice_get self.now.entries index) }
    {
        let behind = index.checked_sub(self.prefix.len())?;
        self.tail.get(behind as usize)
    }

    /// The request of the Op at that index, if one stands there. It takes no memory.
    pub fn request(&self, index: u64) -> Option<Request>
        ensures { result ≡ request_at (slice_get self.now.entries index) }
    {
        match index.checked_sub(self.prefix.len()) {
            None => self.prefix.request(index),
            Some(behind) => request_of(self.tail.get(behind as usize)?),
        }
    }

    /// A copy of the entry at that index, if one stands there.
    pub fn entry(&self, index: u64) -> Result<Option<Entry>, NoMemory>
        ensures { IfOk result (λ entry. entry ≡ slice_get self.now.entries index) }
    {
        let Some(behind) = index.checked_sub(self.prefix.len()) else {
            return self.prefix.entry(index);
        };
        match self.tail.get(behind as usize) {
            Some(entry) => Ok(Some(entry.copy(self.alloc)?)),
            None => Ok(None),
        }
    }

    /// Copies of the entries from that index on, of which there are none past the end.
    pub fn suffix(&self, start: u64) -> Result<Vec<Entry>, NoMemory>
        ensures { IfOk result (λ entries. entries.items ≡ drop start self.now.entries) }
    {
        self.between(start, self.len())
    }

    /// Copies of the entries from an index on, as far as another.
    pub fn between(&self, start: u64, end: u64) -> Result<Vec<Entry>, NoMemory>
        ensures { IfOk result (λ entries. entries.items ≡ take (end - start) (drop start self.now.entries)) }
    {
        let packed = self.prefix.len();
        let first = packed - self.recent.len() as u64;
        let recent = part(&self.recent, first, start, end);
        let tail = part(&self.tail, packed, start, end);
        let spare = recent.len().saturating_add(tail.len());
        let mut entries = self.prefix.between(start, end.min(first), spare)?;
        add_copies(self.alloc, &mut entries, recent)?;
        add_copies(self.alloc, &mut entries, tail)?;
        Ok(entries)
    }

    // No memory holds 2^63 entries.
    fn hold(&self, more: u64) -> Result<(), NoMemory>
        ensures { OnOk result (length self.now.entries + more < 2 ^ 63) }
    {
        if more < (1 << 63) - self.len() {
            Ok(())
        } else {
            Err(AllocError)
        }
    }
}

/// The entries from an index on, as far as another, of which the first has that index.
fn part(entries: &[Entry], first: u64, start: u64, end: u64) -> &[Entry]
    ensures { result.now ≡ take ((end - first) - (start - first)) (drop (start - first) entries.now) }
{
    let rest = past(entries, start.saturating_sub(first));
    let count = end.saturating_sub(start.max(first)).min(rest.len() as u64);
    &rest[..count as usize]
}

fn request_of(entry: &Entry) -> Option<Request>
    ensures { result ≡ request_of entry.now }
{
    match entry {
        Entry::Op { request, .. } => Some(**request),
        _ => None,
    }
}

//! Entries that are kept as their encodings.
ghost use Rattle.std.specs.Prelude.{◌≡◌, ◌-◌, ◌*◌, ◌<◌, ◌≤◌, ◌^◌, ◌++◌, ℕ, List, [], length, take, drop, slice_get, IfNone, IfOk, IfSome, OnErr, OnOk, OnSome};
ghost use Rattle.curp_base.specs.Words.{Each};
ghost use Rattle.curp_cmd.specs.declared.entry.Entry.{Entry};
ghost use Rattle.curp_items.specs.Encoding.{HasEncoding, IsEntry, encoding};
ghost use Rattle.curp_entries.specs.Packed.{IsPackedPart, run, encodings};
ghost use Rattle.curp_entries.specs.Requests.{request_at};

use curp_base::{NoMemory, past};
use curp_cmd::{Entry, Request};
use curp_items::{encoded, pack_entry, read_entry, read_request};
use std::alloc::{AllocError, Global};
use std::marker::Model;

/// How many entries are packed at once.
pub(crate) const RUN: usize = 64;

/// Entries as their encodings, one behind the other, a multiple of 64. Contracts see the entries.
#[derive(Drop)]
pub(crate) struct Prefix {
    alloc: Global,
    bytes: Vec<u8>,
    // Where each 64th of them begins.
    places: Vec<u64>,
}

impl Model for Prefix {
    ghost use Rattle.std.specs.Prelude.{◌*◌, List, length};
    ghost use Rattle.curp_cmd.specs.declared.entry.Entry.{Entry};
    ghost use Rattle.curp_items.specs.Encoding.{start_of};
    ghost use Rattle.curp_entries.specs.Packed.{ArePacked, run, unpacked};

    ghost Value = { List Entry };

    ghost view = { λ f. unpacked (run * length f.places.items) (start_of f.bytes.items) };

    ghost invariant = { λ f. ArePacked (unpacked (run * length f.places.items) (start_of f.bytes.items)) f.places.items f.bytes.items };
}

impl Prefix {
    /// No entries. It takes no memory.
    pub(crate) fn new(alloc: Global) -> Prefix
        ensures { result ≡ [] }
    {
        Prefix {
            alloc,
            bytes: Vec::new(alloc),
            places: Vec::new(alloc),
        }
    }

    pub(crate) fn len(&self) -> u64
        ensures value { result ≡ length self.now }
        ensures small { length self.now < 2 ^ 63 }
    {
        (RUN * self.places.len()) as u64
    }

    /// Their encodings, one behind the other.
    pub(crate) fn as_bytes(&self) -> &[u8]
        ensures { IsPackedPart self.now (length self.now) result.now }
    {
        &self.bytes
    }

    /// Packs as many entries as are packed at once, behind the others.
    pub(crate) fn push_run(&mut self, entries: &[Entry]) -> Result<(), NoMemory>
        requires length { length entries.now ≡ run }
        requires encoded { Each HasEncoding entries.now }
        ensures ok { OnOk result (self.new ≡ self.old ++ entries.now) }
        ensures err { OnErr result (self.new ≡ self.old) }
    {
        let mut bytes = encodings_of(self.alloc, entries)?;
        let place = self.bytes.len() as u64;
        self.places.reserve(1)?;
        // The one change comes last, so that nothing has changed where memory is wanting.
        self.bytes.append(&mut bytes)?;
        self.places.push_reserved(place);
        Ok(())
    }

    /// The request of the Op at that index, if one stands there. It takes no memory.
    pub(crate) fn request(&self, index: u64) -> Option<Request>
        ensures { result ≡ request_at (slice_get self.now index) }
    {
        read_request(self.from(index)?)
    }

    /// A copy of the entry at that index, if one stands there.
    pub(crate) fn entry(&self, index: u64) -> Result<Option<Entry>, NoMemory>
        ensures { IfOk result (λ entry. entry ≡ slice_get self.now index) }
    {
        match self.from(index) {
            Some(bytes) => Ok(Some(next_entry(self.alloc, bytes)?.0)),
            None => Ok(None),
        }
    }

    /// Copies of the entries from an index on, as far as another, with room for so many more behind them.
    pub(crate) fn between(&self, start: u64, end: u64, spare: usize) -> Result<Vec<Entry>, NoMemory>
        ensures { IfOk result (λ entries. entries.items ≡ take (end - start) (drop start self.now)) }
    {
        let count = end.min(self.len()).saturating_sub(start);
        let mut entries = Vec::with_capacity(self.alloc, spare.saturating_add(count as usize))?;
        if end <= start {
            return Ok(entries);
        }
        let Some(mut rest) = self.from(start) else {
            return Ok(entries);
        };
        for _ in 0..count {
            let (entry, length) = next_entry(self.alloc, rest)?;
            entries.push(entry)?;
            rest = past(rest, length as u64);
        }
        Ok(entries)
    }

    /// The encodings of the entries from that index on, if one stands there.
    fn from(&self, index: u64) -> Option<&[u8]>
        ensures none { IfNone result (length self.now ≤ index) }
        ensures within { OnSome result (index < length self.now) }
        ensures bytes { IfSome result (λ bytes. bytes.now ≡ encodings (drop index self.now)) }
        ensures encoded { OnSome result (Each IsEntry self.now) }
    {
        if index >= self.len() {
            return None;
        }
        let mut rest = self.from_run((index / RUN as u64) as usize);
        for _ in 0..index % RUN as u64 {
            rest = past(rest, encoded(rest)?);
        }
        Some(rest)
    }

    /// The encodings of the entries from the run with that number on.
    fn from_run(&self, run: usize) -> &[u8]
        requires { 64 * run < length self.now }
        ensures bytes { result.now ≡ encodings (drop (64 * run) self.now) }
        ensures encoded { Each IsEntry self.now }
    {
        past(&self.bytes, self.places[run])
    }
}

/// The encodings of entries, one behind the other.
fn encodings_of(alloc: Global, entries: &[Entry]) -> Result<Vec<u8>, NoMemory>
    requires { Each HasEncoding entries.now }
    ensures bytes { IfOk result (λ bytes. bytes.items ≡ encodings entries.now) }
    ensures encoded { OnOk result (Each IsEntry entries.now) }
{
    let mut bytes = Vec::new(alloc);
    for entry in entries {
        pack_entry(entry, &mut bytes)?;
    }
    Ok(bytes)
}

/// The entry whose encoding the bytes begin with, and its length.
fn next_entry(alloc: Global, bytes: &[u8]) -> Result<(Entry, usize), NoMemory>
    ensures { (entry : Entry) (rest : List ℕ) → IsEntry entry → bytes.now ≡ encoding entry ++ rest
        → IfOk result (λ read. read ≡ (entry, length (encoding entry))) }
{
    match read_entry(alloc, bytes) {
        Ok(read) => Ok(read),
        // Running out of memory: what is packed is encoded.
        Err(_) => Err(AllocError),
    }
}

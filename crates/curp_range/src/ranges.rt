ghost use Rattle.std.specs.Prelude.{◌≡◌, ℕ, ◌+◌, ◌≤◌, ◌&&◌, ◌||◌, not, IsTrue, IsFalse, ◌↔◌};
ghost use Rattle.std.specs.Prelude.{[], ◌∷◌, length, max, IfOk, OnOk, OnErr};
ghost use Rattle.curp_range.specs.Spans.{is_in, is_owned, without, with_range, SpansAscend, Covers, Lacks, Meets};

use crate::{Spans, spans};
use curp_base::{NoMemory, Reserved};
use std::alloc::Global;
use std::marker::Model;
use thiserror::Error;

/// A set of hashes of 64 bits. Contracts see its spans, and for how many more spans it has room.
/// A range from `lo` to `hi` has both of them.
#[derive(Drop)]
pub struct Ranges {
    spans: Reserved<(u64, u64)>,
}

impl Model for Ranges {
    ghost use Rattle.curp_range.specs.Spans.{RangeSet, SpansAscend};

    ghost Value = { RangeSet };

    ghost view = { λ r. record { spans = r.spans.items; spare = r.spans.spare } };

    ghost invariant = { λ r. SpansAscend r.spans.items };
}

/// Why a range is not taken out.
#[derive(Clone, Copy, Debug, PartialEq, Eq, Error)]
pub enum TakeError {
    /// Some hash of the range is not owned.
    #[error("some hash of the range isn't owned")]
    NotOwned,
}

/// Why a range is not put in.
#[derive(Clone, Copy, Debug, PartialEq, Eq, Error)]
pub enum PutError {
    /// Some hash of the range is owned already.
    #[error("some hash of the range is owned already")]
    Overlap,
}

impl Ranges {
    /// The hashes of one range.
    pub fn new(alloc: Global, lo: u64, hi: u64) -> Result<Ranges, NoMemory>
        requires { lo ≤ hi }
        ensures { IfOk result (λ ranges. ranges.spans ≡ (lo, hi) ∷ []) }
    {
        let spans = Vec::from_slice(alloc, &[(lo, hi)])?;
        Ok(Ranges {
            spans: Reserved::from_vec(spans),
        })
    }

    /// The hashes of these spans. It takes no memory.
    pub fn from_spans(spans: Spans) -> Ranges
        ensures { result.spans ≡ spans }
    {
        Ranges {
            spans: Reserved::from_vec(spans.into_vec()),
        }
    }

    /// Whether the hash is owned.
    pub fn owns(&self, hash: u64) -> bool
        ensures { result ≡ is_owned self.now.spans hash }
    {
        spans::covers(&self.spans, hash, hash)
    }

    /// Whether each hash of the range is owned. Where `hi` is below `lo` there is none in it, and so it is.
    pub fn covers(&self, lo: u64, hi: u64) -> bool
        ensures covered { IsTrue result ↔ Covers self.now.spans lo hi }
        ensures lacking { IsFalse result ↔ Lacks self.now.spans lo hi }
    {
        hi < lo || spans::covers(&self.spans, lo, hi)
    }

    /// The spans of the owned hashes: each has a first and a last hash, and the next begins at least two above the
    /// last.
    pub fn spans(&self) -> &[(u64, u64)]
        ensures value { result.now ≡ self.now.spans }
        ensures ascend { SpansAscend self.now.spans }
    {
        &self.spans
    }

    // The spans, given back. It takes no memory.
    pub(crate) fn into_vec(self) -> Vec<(u64, u64)>
        ensures spans { result.items ≡ self.spans }
        ensures ascend { SpansAscend self.spans }
    {
        self.spans.into_vec()
    }

    /// A value that owns the same hashes.
    pub fn copy(&self, alloc: Global) -> Result<Ranges, NoMemory>
        ensures { IfOk result (λ copy. copy.spans ≡ self.now.spans) }
    {
        let spans = Vec::from_slice(alloc, &self.spans)?;
        Ok(Ranges {
            spans: Reserved::from_vec(spans),
        })
    }

    /// Makes room for so many more spans.
    pub fn reserve(&mut self, spare: u64) -> Result<(), NoMemory>
        ensures spans { self.new.spans ≡ self.old.spans }
        ensures room { OnOk result (spare ≤ self.new.spare) }
        ensures kept { self.old.spare ≤ self.new.spare }
        ensures no_more { self.new.spare ≤ max self.old.spare (max spare (length self.old.spans)) }
        ensures err { OnErr result (self.new ≡ self.old) }
    {
        self.spans.reserve(spare)
    }

    /// Owns the hashes of the range no longer, if it owned each of them. It takes no memory.
    pub fn take_out(&mut self, lo: u64, hi: u64) -> Result<(), TakeError>
        requires ordered { lo ≤ hi }
        requires room { 1 ≤ self.old.spare }
        ensures ok { OnOk result
            ((h : ℕ) → is_owned self.new.spans h ≡ (is_owned self.old.spans h && not (is_in lo hi h))) }
        ensures spans { OnOk result (self.new.spans ≡ without self.old.spans lo hi) }
        ensures not_owned { (result ≡ Err TakeError.NotOwned) ↔ Lacks self.old.spans lo hi }
        ensures err { OnErr result (self.new ≡ self.old) }
        ensures spare { self.old.spare ≤ self.new.spare + 1 }
    {
        if !spans::covers(&self.spans, lo, hi) {
            return Err(TakeError::NotOwned);
        }
        spans::cut(&mut self.spans, lo, hi);
        Ok(())
    }

    /// Owns the hashes of the range too, if it owned none of them. It takes no memory.
    pub fn put_in(&mut self, lo: u64, hi: u64) -> Result<(), PutError>
        requires ordered { lo ≤ hi }
        requires room { 1 ≤ self.old.spare }
        ensures ok { OnOk result
            ((h : ℕ) → is_owned self.new.spans h ≡ (is_owned self.old.spans h || is_in lo hi h)) }
        ensures spans { OnOk result (self.new.spans ≡ with_range self.old.spans lo hi) }
        ensures overlap { (result ≡ Err PutError.Overlap) ↔ Meets self.old.spans lo hi }
        ensures err { OnErr result (self.new ≡ self.old) }
        ensures spare { self.old.spare ≤ self.new.spare + 1 }
    {
        if spans::meets(&self.spans, lo, hi) {
            return Err(PutError::Overlap);
        }
        self.unite(lo, hi);
        Ok(())
    }

    /// Owns the hashes of the range, whatever of it was owned before. It takes no memory.
    pub fn unite(&mut self, lo: u64, hi: u64)
        requires ordered { lo ≤ hi }
        requires room { 1 ≤ self.old.spare }
        ensures owned { (h : ℕ) → is_owned self.new.spans h ≡ (is_owned self.old.spans h || is_in lo hi h) }
        ensures spans { self.new.spans ≡ with_range self.old.spans lo hi }
        ensures spare { self.old.spare ≤ self.new.spare + 1 }
    {
        spans::join(&mut self.spans, lo, hi);
    }
}

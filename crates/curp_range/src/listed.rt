ghost use Rattle.std.specs.Prelude.{◌≡◌, length, IfOk};
ghost use Rattle.curp_range.specs.Spans.{SpansAscend};

use crate::Ranges;
use curp_base::NoMemory;
use std::alloc::Global;
use std::marker::Model;

/// The spans of a set of hashes, as plain data: each has a first and a last hash, and the next begins at least two
/// above the last. Contracts see the list.
#[derive(Drop)]
pub struct Spans {
    spans: Vec<(u64, u64)>,
}

impl Model for Spans {
    ghost use Rattle.std.specs.Prelude.{ℕ, List};
    ghost use Rattle.curp_range.specs.Spans.{SpansAscend};

    ghost Value = { List (ℕ × ℕ) };

    ghost view = { λ s. s.spans.items };

    ghost invariant = { λ s. SpansAscend s.spans.items };
}

impl Spans {
    /// The spans of a set of hashes. It takes no memory.
    pub fn new(ranges: Ranges) -> Spans
        ensures { result ≡ ranges.spans }
    {
        Spans {
            spans: ranges.into_vec(),
        }
    }

    // The spans, given back. It takes no memory.
    pub(crate) fn into_vec(self) -> Vec<(u64, u64)>
        ensures spans { result.items ≡ self }
        ensures ascend { SpansAscend self }
    {
        self.spans
    }

    pub fn as_slice(&self) -> &[(u64, u64)]
        ensures value { result.now ≡ self.now }
        ensures ascend { SpansAscend self.now }
    {
        &self.spans
    }

    pub fn len(&self) -> usize
        ensures { result ≡ length self.now }
    {
        self.spans.len()
    }

    pub fn copy(&self, alloc: Global) -> Result<Spans, NoMemory>
        ensures { IfOk result (λ copy. copy ≡ self.now) }
    {
        let spans = Vec::from_slice(alloc, &self.spans)?;
        Ok(Spans { spans })
    }
}

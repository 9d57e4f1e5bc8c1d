ghost use Rattle.std.specs.Prelude.{◌≡◌, ◌++◌, [], ◌∷◌, length, replicate, OnOk, OnErr, IfOk};

use curp_base::NoMemory;
use std::alloc::Global;
use std::marker::Model;

/// How many messages were sent before each turn that was taken of a journal. Contracts see the list of these numbers.
#[derive(Drop)]
pub(crate) struct Track {
    befores: Vec<u64>,
}

impl Model for Track {
    ghost use Rattle.std.specs.Prelude.{ℕ, List};

    ghost Value = { List ℕ };

    ghost view = { λ track. track.befores.items };
}

impl Track {
    pub(crate) fn new(alloc: Global) -> Track
        ensures { result ≡ [] }
    {
        Track {
            befores: Vec::new(alloc),
        }
    }

    pub(crate) fn as_slice(&self) -> &[u64]
        ensures { result.now ≡ self.now }
    {
        &self.befores
    }

    /// How many turns were taken.
    pub(crate) fn len(&self) -> usize
        ensures { result ≡ length self.now }
    {
        self.befores.len()
    }

    /// One more turn was taken, when so many messages were sent.
    pub(crate) fn push(&mut self, before: u64) -> Result<(), NoMemory>
        ensures ok { OnOk result (self.new ≡ self.old ++ before ∷ []) }
        ensures err { OnErr result (self.new ≡ self.old) }
    {
        self.befores.push(before)?;
        Ok(())
    }
}

/// So many empty tracks.
pub(crate) fn tracks(alloc: Global, count: usize) -> Result<Vec<Track>, NoMemory>
    ensures { IfOk result (λ tracks. tracks.items ≡ replicate count []) }
{
    let mut tracks = Vec::with_capacity(alloc, count)?;
    for _ in 0..count {
        tracks.push(Track::new(alloc))?;
    }
    Ok(tracks)
}

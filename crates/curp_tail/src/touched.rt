ghost use Rattle.std.specs.Prelude.{◌≡◌};
ghost use Rattle.curp_tail.specs.Tail.{touched_of, touches};

use curp_cmd::{Entry, Hashes};

/// What an entry of a log has to do with hashes.
#[derive(Drop)]
pub enum Touched {
    /// These, of the command of an Op.
    Hashes(Hashes),
    /// Those of a whole range, both ends counted, which a Take or a Give moves.
    Range { lo: u64, hi: u64 },
    /// None.
    Nothing,
}

impl Touched {
    /// What that entry touches. It takes no memory.
    pub fn of(entry: &Entry) -> Touched
        ensures { result ≡ touched_of entry.now }
    {
        match entry {
            Entry::Op { request, .. } => Touched::Hashes(Hashes::of(&request.command)),
            Entry::Take { package, .. } | Entry::Give { package, .. } => Touched::Range {
                lo: package.lo,
                hi: package.hi,
            },
            Entry::Expire { .. } => Touched::Nothing,
        }
    }

    /// Whether the hash is touched.
    pub fn touches(&self, hash: u64) -> bool
        ensures { result ≡ touches self.now hash }
    {
        match self {
            Touched::Hashes(hashes) => hashes.as_slice().contains(&hash),
            Touched::Range { lo, hi } => *lo <= hash && hash <= *hi,
            Touched::Nothing => false,
        }
    }
}

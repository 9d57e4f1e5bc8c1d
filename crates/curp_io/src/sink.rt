ghost use Rattle.std.specs.Prelude.{◌≡◌, ◌≢◌, ℕ, ◌≤◌, Bool, true, List};
ghost use Rattle.curp_io.specs.Streams.{MovesOn, Puts, Rose, SameCount, flushed_after_flush, flushed_after_put};

/// What a call of `put` did.
#[derive(Clone, Copy, PartialEq, Eq)]
pub enum Put {
    /// So many bytes at the start of the piece were taken.
    Took(usize),
    /// The sink failed, and counted that as a fault.
    Failed,
    NoMemory,
}

/// What a call of `flush` did.
#[derive(Clone, Copy, PartialEq, Eq)]
pub enum Flushed {
    Done,
    /// The sink failed, and counted that as a fault.
    Failed,
}

/// Where bytes go. It means the bytes that it holds, where it tells them, and a count of its faults.
pub trait Sink {
    /// Whether `held` is what the sink holds.
    ghost tells: { Self → Bool };

    ghost held: { Self → List ℕ };

    ghost faults: { Self → ℕ };

    /// Whether all bytes that it took were passed on: a flush was done after the last of them.
    ghost flushed: { Self → Bool };

    /// Takes bytes at the start of the piece: at least one, if there is one.
    fn put(&mut self, bytes: &[u8]) -> Put
        ensures moves_on { MovesOn result bytes.now }
        ensures bytes { tells self.old ≡ true → Puts (held self.old) (held self.new) result bytes.now }
        ensures flushed { flushed self.new ≡ flushed_after_put (flushed self.old) result }
        ensures tells { tells self.old ≡ true → tells self.new ≡ true }
        ensures cause { result ≡ Put.Failed → Rose (faults self.old) (faults self.new) }
        ensures told { result ≢ Put.Failed → SameCount (faults self.old) (faults self.new) }
        ensures never_falls { faults self.old ≤ faults self.new };

    /// Passes on what it holds back, if anything.
    fn flush(&mut self) -> Flushed
        ensures bytes { tells self.old ≡ true → held self.new ≡ held self.old }
        ensures flushed { flushed self.new ≡ flushed_after_flush (flushed self.old) result }
        ensures tells { tells self.old ≡ true → tells self.new ≡ true }
        ensures cause { result ≡ Flushed.Failed → Rose (faults self.old) (faults self.new) }
        ensures told { result ≢ Flushed.Failed → SameCount (faults self.old) (faults self.new) }
        ensures never_falls { faults self.old ≤ faults self.new };
}

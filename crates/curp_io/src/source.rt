ghost use Rattle.std.specs.Prelude.{◌≡◌, ◌≢◌, ℕ, ◌≤◌, Bool, true, List};
ghost use Rattle.curp_io.specs.Streams.{FitsBuffer, Rose, SameCount, Takes};

/// What a call of `take` did.
#[derive(Clone, Copy, PartialEq, Eq)]
pub enum Taken {
    /// So many bytes stand at the start of the buffer. None for a buffer that isn't empty is the end.
    Bytes(usize),
    /// The source failed, and counted that as a fault.
    Failed,
}

/// Where bytes come from. It means the bytes that are left, where it tells them, and a count of its faults.
pub trait Source {
    /// Whether `left` is what the source has left. One that doesn't tell may give any bytes.
    ghost tells: { Self → Bool };

    ghost left: { Self → List ℕ };

    ghost faults: { Self → ℕ };

    /// Takes bytes into the start of the buffer.
    fn take(&mut self, buf: &mut [u8]) -> Taken
        ensures fits { FitsBuffer result buf.new }
        ensures bytes { tells self.old ≡ true → Takes (left self.old) (left self.new) result buf.new }
        ensures tells { tells self.old ≡ true → tells self.new ≡ true }
        ensures cause { result ≡ Taken.Failed → Rose (faults self.old) (faults self.new) }
        ensures told { result ≢ Taken.Failed → SameCount (faults self.old) (faults self.new) }
        ensures never_falls { faults self.old ≤ faults self.new };
}

ghost use Rattle.std.specs.Prelude.{◌≡◌, ◌≢◌, ◌≤◌, Bool, List, ℕ, length, true};
ghost use Rattle.curp_io.specs.Streams.{Rose, SameCount};
ghost use Rattle.curp_disk.specs.Disk.{CrashesFollow, Elapses, GivesBytes, HasLength, IsWithin, Narrows};
ghost use Rattle.curp_disk.specs.Disk.{Synced, Torn, Wrote};
ghost use Rattle.curp_disk.specs.declared.disk.Did.{Did};

/// What a call of `read`, `write_at` or `sync` did.
#[derive(Clone, Copy, PartialEq, Eq)]
pub enum Did {
    /// It was done, on so many bytes.
    Done(usize),
    /// The disk failed, and counted that as a fault.
    Failed,
    NoMemory,
}

/// What a call of `length` found.
#[derive(Clone, Copy, PartialEq, Eq)]
pub enum Long {
    Bytes(u64),
    /// The disk failed, and counted that as a fault.
    Failed,
}

/// Bytes that outlive a crash, as far as they were synced.
///
/// It means the bytes that it reads as, what a crash may leave of them, and a count of its faults. "At any moment in a
/// call, or between two" is said by a clock: `left_since` has what a crash at some moment from a given one on may have
/// left, so a clause on the disk after a call speaks of each moment in the call.
pub trait Disk {
    /// Whether disks of this kind tell what they read as. Of the others, as of a file, no clause says which bytes they
    /// have; their counts of faults mean the same.
    ghost tells: { Bool };

    /// The bytes that it reads as.
    ghost seen: { Self → List ℕ };

    /// What a crash now may leave.
    ghost may_leave: { Self → List ℕ → Type 0 };

    /// The moment, as a number that doesn't fall.
    ghost moment: { Self → ℕ };

    /// What a crash at some moment from that one on may have left, in a call or between two.
    ghost left_since: { Self → ℕ → List ℕ → Type 0 };

    ghost faults: { Self → ℕ };

    /// No call fails from now on.
    ghost sound: { Self → Type 0 };

    /// What more is known of a write on this kind of disk: of the disk before, the place, the bytes, the answer, and
    /// the disk after.
    ghost wrote: { Self → ℕ → List ℕ → Did → Self → Type 0 };

    /// What more is known of a sync on this kind of disk.
    ghost synced: { Self → Did → Self → Type 0 };

    /// Reads as many bytes as there are from a place on, up to the buffer's length.
    fn read(&mut self, at: u64, buf: &mut [u8]) -> Did
        ensures within { IsWithin result (length buf.new) }
        ensures bytes { tells ≡ true → GivesBytes (seen self.old) at result buf.new }
        ensures seen { seen self.new ≡ seen self.old }
        ensures crash { Narrows (may_leave self.old) (may_leave self.new) }
        ensures time { Elapses (moment self.old) (moment self.new) (left_since self.old) (left_since self.new)
            (may_leave self.new) }
        ensures sound { sound self.old → (result ≢ Did.Failed) × sound self.new }
        ensures cause { result ≡ Did.Failed → Rose (faults self.old) (faults self.new) }
        ensures told { result ≢ Did.Failed → SameCount (faults self.old) (faults self.new) }
        ensures never_falls { faults self.old ≤ faults self.new };

    /// How many bytes it reads as.
    fn length(&mut self) -> Long
        ensures bytes { tells ≡ true → HasLength (seen self.old) result }
        ensures seen { seen self.new ≡ seen self.old }
        ensures crash { Narrows (may_leave self.old) (may_leave self.new) }
        ensures time { Elapses (moment self.old) (moment self.new) (left_since self.old) (left_since self.new)
            (may_leave self.new) }
        ensures sound { sound self.old → (result ≢ Long.Failed) × sound self.new }
        ensures cause { result ≡ Long.Failed → Rose (faults self.old) (faults self.new) }
        ensures told { result ≢ Long.Failed → SameCount (faults self.old) (faults self.new) }
        ensures never_falls { faults self.old ≤ faults self.new };

    /// Writes over what is there, and past the end. Until a sync, a crash may leave any bytes in the range and past
    /// the old end.
    fn write_at(&mut self, at: u64, bytes: &[u8]) -> Did
        requires { tells ≡ true → at ≤ length (seen self.old) }
        ensures bytes { tells ≡ true → Wrote (seen self.old) at bytes.now result (seen self.new) }
        ensures crash { CrashesFollow (Torn at (length bytes.now)) (may_leave self.old) (may_leave self.new) }
        ensures time { Elapses (moment self.old) (moment self.new) (left_since self.old) (left_since self.new)
            (may_leave self.new) }
        ensures whole { wrote self.old at bytes.now result self.new }
        ensures sound { sound self.old → (result ≢ Did.Failed) × sound self.new }
        ensures cause { result ≡ Did.Failed → Rose (faults self.old) (faults self.new) }
        ensures told { result ≢ Did.Failed → SameCount (faults self.old) (faults self.new) }
        ensures never_falls { faults self.old ≤ faults self.new };

    /// After it, a crash leaves what the disk reads as.
    fn sync(&mut self) -> Did
        ensures durable { tells ≡ true → Synced (seen self.old) result (may_leave self.new) }
        ensures seen { seen self.new ≡ seen self.old }
        ensures crash { Narrows (may_leave self.old) (may_leave self.new) }
        ensures time { Elapses (moment self.old) (moment self.new) (left_since self.old) (left_since self.new)
            (may_leave self.new) }
        ensures whole { synced self.old result self.new }
        ensures sound { sound self.old → (result ≢ Did.Failed) × sound self.new }
        ensures cause { result ≡ Did.Failed → Rose (faults self.old) (faults self.new) }
        ensures told { result ≢ Did.Failed → SameCount (faults self.old) (faults self.new) }
        ensures never_falls { faults self.old ≤ faults self.new };

    /// A crash may leave what the disk reads as.
    ghost reads_now: { (d : Self) → may_leave d (seen d) };

    /// This moment is one of those since an earlier one.
    ghost counts_now: { (d : Self) (t : ℕ) (c : List ℕ) → t ≤ moment d → may_leave d c → left_since d t c };

    /// Since this moment there is no other.
    ghost only_now: { (d : Self) (c : List ℕ) → left_since d (moment d) c → may_leave d c };
}

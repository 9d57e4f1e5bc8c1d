//! Records behind commit bytes.
ghost use Rattle.std.specs.Prelude.{◌≡◌, ◌≢◌, ◌+◌, ◌^◌, ◌<◌, ◌≤◌, [], ◌∷◌, length, true};
ghost use Rattle.curp_disk.specs.Disk.{LeavesOnly, Only, over};
ghost use Rattle.curp_io.specs.Streams.{Rose};
ghost use Rattle.curp_durable.specs.Appending.{ShutOrStaged, TornFrom};
ghost use Rattle.curp_durable.specs.Running.{RunsCalls, appending, keeping};

use curp_disk::{Did, Disk};

/// What became of bytes that were to be kept.
#[derive(Clone, Copy, Debug, PartialEq, Eq)]
pub(crate) enum Kept {
    Kept,
    Failed,
    NoMemory,
}

/// Writes bytes and syncs.
pub(crate) fn keep<D: Disk>(disk: &mut D, at: u64, bytes: &[u8]) -> Kept
    requires at { D.tells ≡ true → at ≤ length (D.seen disk.old) }
    ensures seen { D.tells ≡ true → result ≡ Kept.Kept → D.seen disk.new ≡ over (D.seen disk.old) at bytes.now }
    ensures durable { D.tells ≡ true → result ≡ Kept.Kept → Only (D.seen disk.new) (D.may_leave disk.new) }
    ensures any_moment { LeavesOnly D.moment D.left_since disk.old disk.new
        (TornFrom at (length bytes.now) (D.may_leave disk.old)) }
    ensures ran { RunsCalls D.wrote D.synced (keeping at bytes.now) disk.old result disk.new }
    ensures sound { D.sound disk.old → (result ≢ Kept.Failed) × D.sound disk.new }
    ensures cause { result ≡ Kept.Failed → Rose (D.faults disk.old) (D.faults disk.new) }
    ensures never_falls { D.faults disk.old ≤ D.faults disk.new }
{
    match disk.write_at(at, bytes) {
        Did::Done(_) => match disk.sync() {
            Did::Done(_) => Kept::Kept,
            Did::Failed => Kept::Failed,
            Did::NoMemory => Kept::NoMemory,
        },
        Did::Failed => Kept::Failed,
        Did::NoMemory => Kept::NoMemory,
    }
}

/// Writes a record behind a commit byte, and then opens the commit byte.
pub(crate) fn append<D: Disk>(disk: &mut D, commit: u64, piece: &[u8]) -> Kept
    requires commit { D.tells ≡ true → commit < length (D.seen disk.old) }
    requires place { commit + 1 < 2 ^ 64 }
    requires durable { D.tells ≡ true → Only (D.seen disk.old) (D.may_leave disk.old) }
    ensures seen { D.tells ≡ true → result ≡ Kept.Kept
        → D.seen disk.new ≡ over (over (D.seen disk.old) (commit + 1) piece.now) commit (1 ∷ []) }
    ensures durable { D.tells ≡ true → result ≡ Kept.Kept → Only (D.seen disk.new) (D.may_leave disk.new) }
    ensures any_moment { D.tells ≡ true → LeavesOnly D.moment D.left_since disk.old disk.new
        (ShutOrStaged (D.seen disk.old) commit piece.now) }
    ensures ran { RunsCalls D.wrote D.synced (appending commit piece.now) disk.old result disk.new }
    ensures sound { D.sound disk.old → (result ≢ Kept.Failed) × D.sound disk.new }
    ensures cause { result ≡ Kept.Failed → Rose (D.faults disk.old) (D.faults disk.new) }
    ensures never_falls { D.faults disk.old ≤ D.faults disk.new }
{
    match keep(disk, commit + 1, piece) {
        Kept::Kept => keep(disk, commit, &[1]),
        refused => refused,
    }
}

ghost use Rattle.std.specs.Prelude.{◌≡◌, ◌≢◌, ◌+◌, ◌<◌, ◌≤◌, ◌++◌, ◌∷◌, [], true, length, IfOk, OnOk};
ghost use Rattle.curp_disk.specs.Disk.{LeavesOnly, Only};
ghost use Rattle.curp_io.specs.Streams.{Rose};
ghost use Rattle.curp_durable.specs.Appending.{LeavesAtMost, Quiet, TornFrom};
ghost use Rattle.curp_durable.specs.Journal.{HoldsJournal, HoldsUpTo};

use crate::error::FormatError;
use crate::writing::{Kept, keep};
use curp_base::{Failed, NoMemory};
use curp_disk::{Disk, Long};
use std::alloc::Global;

/// Writes a journal with no input on a disk that has no more bytes than that, and syncs it. Any other disk is left as it
/// is. After a crash or an error it may be called again.
pub fn format<D: Disk>(alloc: Global, disk: &mut D, title: &[u8]) -> Result<(), Failed<FormatError>>
    ensures ok { D.tells ≡ true → OnOk result (HoldsJournal (D.seen disk.new) title.now []) }
    ensures commit { D.tells ≡ true → OnOk result (HoldsUpTo (D.seen disk.new) title.now [] (length title.now)) }
    ensures durable { D.tells ≡ true → OnOk result (Only (D.seen disk.new) (D.may_leave disk.new)) }
    ensures empty { D.tells ≡ true → OnOk result (length (D.seen disk.old) ≤ length title.now + 1) }
    ensures spares { D.tells ≡ true → length title.now + 1 < length (D.seen disk.old)
        → Quiet D.seen D.may_leave D.moment D.left_since disk.old disk.new }
    ensures refused { result ≡ Err (Failed.Because FormatError.NotEmpty)
        → Quiet D.seen D.may_leave D.moment D.left_since disk.old disk.new }
    ensures any_moment { LeavesOnly D.moment D.left_since disk.old disk.new
        (TornFrom 0 (length title.now + 1) (D.may_leave disk.old)) }
    ensures again { LeavesAtMost (length title.now + 1) (D.may_leave disk.old)
        → LeavesAtMost (length title.now + 1) (D.may_leave disk.new) }
    ensures not_empty { D.tells ≡ true → result ≡ Err (Failed.Because FormatError.NotEmpty)
        → length title.now + 1 < length (D.seen disk.old) }
    ensures cause { result ≡ Err (Failed.Because FormatError.DiskFault) → Rose (D.faults disk.old) (D.faults disk.new) }
    ensures sound { D.sound disk.old → (result ≢ Err (Failed.Because FormatError.DiskFault)) × D.sound disk.new }
    ensures never_falls { D.faults disk.old ≤ D.faults disk.new }
{
    let Ok(bytes) = opening_bytes(alloc, title) else {
        return Err(Failed::NoMemory);
    };
    match disk.length() {
        Long::Bytes(size) => {
            if size > bytes.len() as u64 {
                return Err(Failed::Because(FormatError::NotEmpty));
            }
        }
        Long::Failed => return Err(Failed::Because(FormatError::DiskFault)),
    }
    match keep(disk, 0, &bytes) {
        Kept::Kept => Ok(()),
        Kept::Failed => Err(Failed::Because(FormatError::DiskFault)),
        Kept::NoMemory => Err(Failed::NoMemory),
    }
}

/// The title, and a shut commit byte.
fn opening_bytes(alloc: Global, title: &[u8]) -> Result<Vec<u8>, NoMemory>
    ensures { IfOk result (λ bytes. bytes.items ≡ title.now ++ 0 ∷ []) }
{
    let mut bytes = Vec::from_slice(alloc, title)?;
    bytes.push(0)?;
    Ok(bytes)
}

// An empty journal is written again where it wasn't at first, and over no journal.
use crate::build::{backup, begin, disk_failing, disk_of, has_bytes, must_hold, opened, write};
use crate::damage::{JOURNAL, written};
use curp_base::Failed;
use curp_disk::MemoryDisk;
use curp_durable::FormatError;
use std::alloc::Global;
use std::process::Abort;

const EMPTY: &[u8] = b"node\x00";

/// The disk has an empty journal, also after a crash.
fn must_be_empty(rt: &impl Abort, alloc: Global, mut disk: MemoryDisk) {
    disk.crash(false);
    let durable = opened(alloc, disk, backup(alloc)).expect(rt, "no journal");
    must_hold(rt, "no input", durable.count() == 0);
    must_hold(rt, "these bytes", has_bytes(durable.into_disk(), EMPTY));
}

fn must_format(rt: &impl Abort, alloc: Global, mut disk: MemoryDisk) {
    must_hold(rt, "written", begin(alloc, &mut disk) == None);
    must_be_empty(rt, alloc, disk);
}

/// Refused, the disk has its bytes, also after a crash.
fn must_refuse(
    rt: &impl Abort,
    alloc: Global,
    mut disk: MemoryDisk,
    why: FormatError,
    bytes: &[u8],
) {
    let error = begin(alloc, &mut disk);
    must_hold(rt, "why", error == Some(Failed::Because(why)));
    disk.crash(true);
    must_hold(rt, "as it was", has_bytes(disk, bytes));
}

/// The disk after an empty journal wasn't written on it, since it failed at this call.
fn faulted(rt: &impl Abort, alloc: Global, failing: u64) -> MemoryDisk {
    let mut disk = disk_failing(rt, alloc, &[failing]);
    let error = begin(alloc, &mut disk);
    let fault = Some(Failed::Because(FormatError::DiskFault));
    must_hold(rt, "a fault", error == fault);
    disk
}

/// It asks for the length, writes and syncs.
#[test]
fn a_journal_is_written_after_a_fault(rt: HostRuntime) {
    for failing in 1..=3 {
        must_format(&rt, rt.alloc(), faulted(&rt, rt.alloc(), failing));
        for kept in [false, true] {
            let mut disk = faulted(&rt, rt.alloc(), failing);
            disk.crash(kept);
            must_format(&rt, rt.alloc(), disk);
        }
    }
}

/// A crash in the write may leave any bytes, of any length up to an empty journal's.
#[test]
fn a_journal_is_written_over_what_was_torn(rt: HostRuntime) {
    let torn = [1, 7, 0, 255, 1, 7];
    for length in 0..=5 {
        must_format(&rt, rt.alloc(), disk_of(&rt, rt.alloc(), &torn[..length]));
    }
    let longer = disk_of(&rt, rt.alloc(), &torn);
    must_refuse(&rt, rt.alloc(), longer, FormatError::NotEmpty, &torn);
}

#[test]
fn a_journal_is_written_over_none(rt: HostRuntime) {
    let disk = written(&rt, rt.alloc());
    must_refuse(&rt, rt.alloc(), disk, FormatError::NotEmpty, &JOURNAL);
}

/// A disk that doesn't tell its length keeps its journal too.
#[test]
fn a_journal_of_no_length_is_left(rt: HostRuntime) {
    let mut disk = disk_failing(&rt, rt.alloc(), &[2]);
    write(&rt, &mut disk, &JOURNAL);
    must_refuse(&rt, rt.alloc(), disk, FormatError::DiskFault, &JOURNAL);
}

// A disk that fails at one of its calls, at each in turn: at those that read it and ask for its length too.
use crate::build::{add, answered, backup, begin, disk_failing, must_hold, opened};
use crate::damage::fence;
use curp_base::Failed;
use curp_disk::MemoryDisk;
use curp_durable::{Durable, DurableError, FormatError, OpenError};
use curp_journal::Arrived;
use curp_nodes::BackupNode;
use std::alloc::Global;
use std::process::Abort;

/// Which call of a journal answers that its disk failed.
#[derive(Clone, Copy, PartialEq, Eq)]
enum Told {
    ByFormat,
    ByOpen,
    ByBatch,
    ByNone,
}

/// An empty journal is written, opened, and given a batch, on a disk that fails at the call of this number.
fn told_by_format(rt: &impl Abort, alloc: Global, failing: u64) -> Told {
    let mut disk = disk_failing(rt, alloc, &[failing]);
    match begin(alloc, &mut disk) {
        None => told_by_open(rt, alloc, disk),
        Some(error) => {
            let why = Failed::Because(FormatError::DiskFault);
            must_hold(rt, "formatting", error == why);
            drop(disk);
            Told::ByFormat
        }
    }
}

fn told_by_open(rt: &impl Abort, alloc: Global, disk: MemoryDisk) -> Told {
    match opened(alloc, disk, backup(alloc)) {
        Ok(durable) => told_by_batch(rt, alloc, durable),
        Err(error) => {
            let why = Failed::Because(OpenError::DiskFault);
            must_hold(rt, "opening", error == why);
            Told::ByOpen
        }
    }
}

/// Three fences.
fn fences(rt: &impl Abort, alloc: Global) -> Vec<Arrived> {
    let mut inputs = Vec::new(alloc);
    for _ in 0..3 {
        add(rt, &mut inputs, fence());
    }
    inputs
}

fn told_by_batch(
    rt: &impl Abort,
    alloc: Global,
    mut durable: Durable<BackupNode, MemoryDisk>,
) -> Told {
    let kept = answered(&mut durable, fences(rt, alloc));
    drop(durable);
    match kept {
        Ok(count) => {
            must_hold(rt, "three answers", count == 3);
            Told::ByNone
        }
        Err(error) => {
            let why = Failed::Because(DurableError::DiskFault);
            must_hold(rt, "a batch", error == why);
            Told::ByBatch
        }
    }
}

/// Writing the journal asks for the length, writes and syncs; opening it syncs, asks for the length and reads; a batch is
/// written and synced, and then its commit byte.
#[test]
fn each_call_of_a_disk_that_fails_is_told(rt: HostRuntime) {
    for failing in 1..=11 {
        let wanted = match failing {
            1..=3 => Told::ByFormat,
            4..=6 => Told::ByOpen,
            7..=10 => Told::ByBatch,
            _ => Told::ByNone,
        };
        let told = told_by_format(&rt, rt.alloc(), failing);
        must_hold(&rt, "who tells", told == wanted);
    }
}

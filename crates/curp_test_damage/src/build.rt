//! What the tests build alike, by calls of which they know nothing. A test ends where something isn't built.
use curp_base::Failed;
use curp_disk::{Did, Disk, MemoryDisk};
use curp_durable::{Durable, DurableError, FormatError, OpenError, OpenFailed, SIZE_LIMIT, format};
use curp_journal::Arrived;
use curp_msg::Core;
use curp_nodes::BackupNode;
use std::alloc::Global;
use std::process::Abort;

/// The title of each journal.
const TITLE: &[u8] = b"node";

/// Ends a test in which that doesn't hold.
pub(crate) fn must_hold(rt: &impl Abort, what: &str, holds: bool) {
    if !holds {
        rt.panic(what)
    }
}

// ---- disks

/// A disk that fails at these of its calls.
pub(crate) fn disk_failing(rt: &impl Abort, alloc: Global, failing: &[u64]) -> MemoryDisk {
    MemoryDisk::new(alloc, failing).expect(rt, "no memory")
}

/// A disk of these bytes.
pub(crate) fn disk_of(rt: &impl Abort, alloc: Global, bytes: &[u8]) -> MemoryDisk {
    let mut disk = disk_failing(rt, alloc, &[]);
    write(rt, &mut disk, bytes);
    disk
}

pub(crate) fn write(rt: &impl Abort, disk: &mut MemoryDisk, bytes: &[u8]) {
    let did = disk.write_at(0, bytes);
    must_hold(rt, "written", did == Did::Done(bytes.len()));
}

fn is_read(disk: &mut MemoryDisk, buf: &mut [u8], count: usize) -> bool {
    disk.read(0, buf) == Did::Done(count)
}

/// Whether the disk has just these bytes.
pub(crate) fn has_bytes(mut disk: MemoryDisk, bytes: &[u8]) -> bool {
    let mut buf = [0; 200];
    let is_read = is_read(&mut disk, &mut buf, bytes.len());
    drop(disk);
    is_read && buf.starts_with(bytes)
}

// ---- journals

/// Why an empty journal isn't written.
pub(crate) fn begin(alloc: Global, disk: &mut MemoryDisk) -> Option<Failed<FormatError>> {
    format(alloc, disk, TITLE).err()
}

fn why(failed: OpenFailed<MemoryDisk>) -> Failed<OpenError> {
    let error = failed.error;
    drop(failed);
    error
}

/// The journal of a disk, with its node.
pub(crate) fn opened<N: Core + Drop>(
    alloc: Global,
    disk: MemoryDisk,
    node: N,
) -> Result<Durable<N, MemoryDisk>, Failed<OpenError>> {
    match Durable::open(alloc, disk, TITLE, node, SIZE_LIMIT) {
        Ok(durable) => Ok(durable),
        Err(failed) => Err(why(failed)),
    }
}

pub(crate) fn backup(alloc: Global) -> BackupNode {
    BackupNode::new(alloc, 1, 1)
}

/// How many of the inputs are answered.
pub(crate) fn answered<N: Core + Drop>(
    durable: &mut Durable<N, MemoryDisk>,
    inputs: Vec<Arrived>,
) -> Result<usize, Failed<DurableError>> {
    let answers = durable.on_all(inputs)?;
    let count = answers.len();
    drop(answers);
    Ok(count)
}

pub(crate) fn add(rt: &impl Abort, inputs: &mut Vec<Arrived>, input: Arrived) {
    inputs.push(input).expect(rt, "no memory")
}

// A disk over a file of the system, which no clause knows.
use crate::build::{must, must_hold};
use curp_disk::{Did, Disk, FileDisk, FileError, Long};
use std::fs;
use std::process::Abort;
use std::test::Fail;

const KEPT: &str = "curp_test_files_kept";

const REFUSED: &str = "curp_test_files_refused";

/// A file of which the system knows no sync and no length, and which no other process has.
const NEVER_SYNCED: &str = "/proc/self/comm";

fn try_length(rt: &impl Abort, disk: &mut FileDisk, length: Long) {
    must_hold(rt, "its length", disk.length() == length);
}

fn try_write(rt: &impl Abort, disk: &mut FileDisk, at: u64, bytes: &[u8], did: Did) {
    must_hold(rt, "a write", disk.write_at(at, bytes) == did);
}

fn try_read(rt: &impl Abort, disk: &mut FileDisk, at: u64, buf: &mut [u8], did: Did) {
    must_hold(rt, "a read", disk.read(at, buf) == did);
}

fn try_sync(rt: &impl Abort, disk: &mut FileDisk, did: Did) {
    must_hold(rt, "a sync", disk.sync() == did);
}

fn write(rt: &impl Abort, disk: &mut FileDisk) {
    try_length(rt, disk, Long::Bytes(0));
    try_write(rt, disk, 0, b"abc", Did::Done(3));
    try_write(rt, disk, 2, b"xyz", Did::Done(3));
    try_sync(rt, disk, Did::Done(0));
}

fn read(rt: &impl Abort, disk: &mut FileDisk) {
    let mut bytes = [7; 6];
    try_length(rt, disk, Long::Bytes(5));
    try_read(rt, disk, 1, &mut bytes, Did::Done(4));
    must_hold(rt, "its bytes", bytes == *b"bxyz\x07\x07");
    try_read(rt, disk, 5, &mut bytes, Did::Done(0));
    try_write(rt, disk, u64::MAX, b"a", Did::Failed);
}

#[test]
fn what_is_written_stands_in_the_file(rt: HostRuntime) -> Result<(), Fail> {
    let _ = fs::remove_file(&rt, KEPT);
    let mut disk = FileDisk::make(&rt, KEPT)?;
    write(&rt, &mut disk);
    drop(disk);
    let mut disk = FileDisk::open(&rt, KEPT)?;
    read(&rt, &mut disk);
    drop(disk);
    fs::remove_file(&rt, KEPT)?;
    Ok(())
}

#[test]
fn a_file_is_refused_by_its_cause(rt: HostRuntime) -> Result<(), Fail> {
    let _ = fs::remove_file(&rt, REFUSED);
    assert!(rt; matches!(FileDisk::open(&rt, REFUSED), Err(FileError::Missing)));
    assert!(rt;
        matches!(
            FileDisk::make(&rt, "no_folder/file"),
            Err(FileError::Missing)
        )
    );
    assert!(rt; matches!(FileDisk::open(&rt, "/"), Err(FileError::Folder)));
    let disk = FileDisk::make(&rt, REFUSED)?;
    assert!(rt; matches!(FileDisk::make(&rt, REFUSED), Err(FileError::Exists)));
    assert!(rt; matches!(FileDisk::open(&rt, REFUSED), Err(FileError::Taken)));
    drop(disk);
    drop(FileDisk::open(&rt, REFUSED)?);
    fs::remove_file(&rt, REFUSED)?;
    Ok(())
}

#[test]
fn a_sync_that_failed_is_told_each_time(rt: HostRuntime) {
    let mut disk = must(&rt, FileDisk::open(&rt, NEVER_SYNCED));
    try_unsynced(&rt, &mut disk);
    drop(disk);
}

fn try_unsynced(rt: &impl Abort, disk: &mut FileDisk) {
    let mut bytes = [0; 64];
    let is_read = matches!(disk.read(0, &mut bytes), Did::Done(_));
    must_hold(rt, "its name", is_read);
    try_length(rt, disk, Long::Failed);
    for _ in 0..3 {
        try_sync(rt, disk, Did::Failed);
    }
}

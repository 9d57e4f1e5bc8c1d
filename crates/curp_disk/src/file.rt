//! A file of the system as a disk.
ghost use Rattle.std.specs.Prelude.{◌≡◌, ◌≢◌, ◌≤◌, ⊤, length, [], false, IfOk};
ghost use Rattle.curp_io.specs.Streams.{Rose, SameCount};
ghost use Rattle.curp_disk.specs.Disk.{IsWithin};
ghost use Rattle.curp_disk.specs.OnFile.{FileAsked, FileRan, FileSynced, faulted, fresh_file, file_reads, file_counts, file_only};

use crate::disk::{Did, Disk, Long};
use std::fs::{File, TryLockError};
use std::io;
use std::io::{ErrorKind, Seek, SeekFrom};
use std::marker::Model;
use std::os::unix::fs::FileExt;
use std::path::Path;
use std::rt::Files;
use thiserror::Error;

/// Why a file wasn't made, or wasn't opened as a disk.
#[derive(Clone, Copy, Debug, Error)]
pub enum FileError {
    /// There is no such file, or no such folder.
    #[error("there is no such file or folder")]
    Missing,
    /// A file or a folder has the name already.
    #[error("it exists already")]
    Exists,
    /// It is open as a disk already, in this process or in another.
    #[error("it is in use: a process has it open")]
    Taken,
    /// It is a folder.
    #[error("it is a folder")]
    Folder,
    /// The user may not read and write it.
    #[error("permission denied")]
    NoPermission,
    #[error("its file system is read-only")]
    ReadOnly,
    /// The file was made and synced, but not the folder that it is in: a crash may leave none.
    #[error("its folder can't be synced: {0}")]
    FolderNotSynced(io::Error),
    #[error("{0}")]
    Other(io::Error),
}

impl From<io::Error> for FileError {
    fn from(error: io::Error) -> FileError {
        match error.kind() {
            ErrorKind::NotFound => FileError::Missing,
            ErrorKind::AlreadyExists => FileError::Exists,
            ErrorKind::IsADirectory => FileError::Folder,
            ErrorKind::PermissionDenied => FileError::NoPermission,
            ErrorKind::ReadOnlyFilesystem => FileError::ReadOnly,
            _ => FileError::Other(error),
        }
    }
}

/// A file of the system as a disk, seen as its count of faults, and whether a sync has failed.
///
/// No clause says which bytes it has (`tells`). Over it a program does what is proved over disks that tell, if the
/// system does as follows, which is trusted:
///
/// - A read gives what was written last at each place, and the length is the file's.
/// - A sync (`fdatasync`) that doesn't fail keeps all that was written before it, and the length.
/// - Until then a crash leaves of each write what `Torn` allows: any bytes in its range and past the old end, and every
///   other byte as it was.
/// - Nobody else writes. The lock (`flock`) keeps out every other `FileDisk`, also of another process, and nobody who
///   doesn't ask for it. It goes with the process.
///
/// A call that the system refuses is a fault, also where a device is full; of a write that failed any part may stand
/// there. What a signal interrupts is tried again. Once a sync has failed all later ones fail, since the system may by
/// then have dropped what it couldn't keep.
pub struct FileDisk {
    file: File,
    sync_failed: bool,
    faults: u64,
}

impl Drop for FileDisk {
    fn drop(self) {
        let FileDisk {
            file: _,
            sync_failed: _,
            faults: _,
        } = self;
    }
}

impl Model for FileDisk {
    ghost use Rattle.curp_disk.specs.OnFile.{FileParts};

    ghost Value = { FileParts };

    ghost view = { λ d. record { sync_failed = d.sync_failed; faults = d.faults } };
}

impl FileDisk {
    /// Makes a file, which must not be there, and opens it, empty. The file is synced, and so is the folder that it is
    /// in, so that a crash leaves it.
    pub fn make<R: Files<File = File>>(rt: &R, path: &str) -> Result<FileDisk, FileError>
        ensures { IfOk result (λ disk. disk ≡ fresh_file) }
    {
        let disk = FileDisk::lock(File::create_new(rt, path)?)?;
        disk.file.sync_all()?;
        sync_folder(rt, path).map_err(FileError::FolderNotSynced)?;
        Ok(disk)
    }

    /// Opens a file that is there.
    pub fn open<R: Files<File = File>>(rt: &R, path: &str) -> Result<FileDisk, FileError>
        ensures { IfOk result (λ disk. disk ≡ fresh_file) }
    {
        let mut options = File::options();
        options.read(true).write(true);
        FileDisk::lock(options.open(rt, path)?)
    }

    /// A disk over a file that was opened, if no other is over it.
    fn lock(file: File) -> Result<FileDisk, FileError>
        ensures { IfOk result (λ disk. disk ≡ fresh_file) }
    {
        match file.try_lock() {
            Ok(()) => Ok(FileDisk {
                file,
                sync_failed: false,
                faults: 0,
            }),
            Err(TryLockError::WouldBlock) => Err(FileError::Taken),
            Err(TryLockError::Error(error)) => Err(FileError::Other(error)),
        }
    }

    fn count_fault(&mut self)
        ensures faults { self.new ≡ faulted self.old }
        ensures never_falls { self.old.faults ≤ self.new.faults }
    {
        self.faults = self.faults.saturating_add(1);
    }
}

/// Syncs the folder that a file is in.
fn sync_folder<R: Files<File = File>>(rt: &R, path: &str) -> io::Result<()> {
    File::open(rt, folder_of(path))?.sync_all()
}

/// The folder that a file is in.
fn folder_of(path: &str) -> &str {
    match Path::new(path).parent() {
        Some(folder) if !folder.as_str().is_empty() => folder.as_str(),
        _ => ".",
    }
}

/// Reads from a place on, until the buffer is full or the file ends.
fn read_from(file: &File, at: u64, buf: &mut [u8]) -> io::Result<usize>
    ensures { IfOk result (λ count. count ≤ length buf.new) }
{
    let mut count = 0;
    'reads: for _ in 0..u64::MAX {
        if count >= buf.len() {
            return Ok(count);
        }
        match file.read_at(&mut buf[count..], at.wrapping_add(count as u64)) {
            Ok(0) => return Ok(count),
            Ok(more) => count += more,
            Err(error) if error.kind() == ErrorKind::Interrupted => {}
            Err(error) => return Err(error),
        }
    }
    Err(io::Error::from(ErrorKind::Interrupted))
}

impl Disk for FileDisk {
    ghost tells = { false };

    ghost seen = { λ d. [] };

    ghost may_leave = { λ d c. ⊤ };

    ghost moment = { λ d. 0 };

    ghost left_since = { λ d t c. ⊤ };

    ghost faults = { λ d. d.faults };

    ghost sound = { λ d. ⊥ };

    ghost wrote = { λ old at bytes result new. FileRan old result new };

    ghost synced = { λ old result new. FileSynced old result new };

    ghost reads_now = { file_reads };

    ghost counts_now = { file_counts };

    ghost only_now = { file_only };

    fn read(&mut self, at: u64, buf: &mut [u8]) -> Did
        ensures within { IsWithin result (length buf.new) }
        ensures cause { result ≡ Did.Failed → Rose self.old.faults self.new.faults }
        ensures told { result ≢ Did.Failed → SameCount self.old.faults self.new.faults }
        ensures never_falls { self.old.faults ≤ self.new.faults }
        ensures ran { FileRan self.old result self.new }
    {
        match read_from(&self.file, at, buf) {
            Ok(count) => Did::Done(count),
            Err(_) => {
                self.count_fault();
                Did::Failed
            }
        }
    }

    fn length(&mut self) -> Long
        ensures cause { result ≡ Long.Failed → Rose self.old.faults self.new.faults }
        ensures told { result ≢ Long.Failed → SameCount self.old.faults self.new.faults }
        ensures never_falls { self.old.faults ≤ self.new.faults }
        ensures asked { FileAsked self.old result self.new }
    {
        match self.file.seek(SeekFrom::End(0)) {
            Ok(bytes) => Long::Bytes(bytes),
            Err(_) => {
                self.count_fault();
                Long::Failed
            }
        }
    }

    #[tactic(auto, using(crate::proofs::AnyCrash::follows_any))]
    fn write_at(&mut self, at: u64, bytes: &[u8]) -> Did {
        match self.file.write_all_at(bytes, at) {
            Ok(()) => Did::Done(bytes.len()),
            Err(_) => {
                self.count_fault();
                Did::Failed
            }
        }
    }

    fn sync(&mut self) -> Did {
        if !self.sync_failed {
            self.sync_failed = self.file.sync_data().is_err();
        }
        if self.sync_failed {
            self.count_fault();
            Did::Failed
        } else {
            Did::Done(0)
        }
    }
}

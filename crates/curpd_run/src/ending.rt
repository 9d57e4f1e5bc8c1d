use crate::mismatch::MessageMismatch;
use curp_base::{Failed, NoMemory};
use curp_collected::CollectError;
use curp_disk::FileError;
use curp_durable::{DurableError, FormatError, OpenError};
use curp_filter::FilterEnd;
use curp_runner::Status;
use curpd_words::CurpdWordsError;
use std::io;
use std::process::ExitCode;
use thiserror::Error;

/// Why a process ended otherwise than well. A place in the input is that of the first byte of a parcel's length, counted
/// from 0.
#[derive(Debug, Drop, Error)]
pub enum Ending {
    #[error("{0}")]
    Words(CurpdWordsError),
    #[error("an argument is no text")]
    NoText,
    /// The cluster's opening has no such client, and clients don't begin later.
    #[error("the cluster has no client of that number")]
    NoSuchClient,
    #[error("the input ends inside the parcel at byte {at}")]
    InsideParcel { at: u64 },
    #[error("the parcel at byte {at} is too long")]
    ParcelTooLong { at: u64 },
    #[error("reading failed")]
    ReadFault,
    #[error("writing failed")]
    WriteFault,
    #[error("out of memory")]
    NoMemory,
    #[error("the journal's file: {0}")]
    File(FileError),
    #[error("a file can't be read: {0}")]
    Unread(io::Error),
    #[error("the file is no journal of this node of this cluster")]
    NotFormatted,
    #[error("the journal is damaged at byte {place}")]
    Damaged { place: u64 },
    /// Files that aren't the journals of the nodes of one cluster. Files are counted from 0.
    #[error("{name}: {error}")]
    NoJournals { error: CollectError, name: String },
    #[error("{0}")]
    Mismatch(MessageMismatch),
    #[error("the journals have more than 200000 items")]
    TooManySteps,
    #[error("what the journals' nodes sent weighs {weight}, which is more than 2000000")]
    TooLarge { weight: u64 },
    #[error("the disk failed")]
    DiskFault,
    /// No more fits the journal, or what came together has more bytes than a journal takes at once.
    #[error("the journal is full")]
    Full,
    #[error("more inputs came than 64 bits count")]
    TooManyInputs,
}

impl Ending {
    /// The number with which the process ends.
    pub fn code(&self) -> u8 {
        match self {
            Ending::Mismatch(_) => 1,
            Ending::Words(_) | Ending::NoText | Ending::NoSuchClient => 2,
            Ending::InsideParcel { .. } | Ending::ParcelTooLong { .. } => 3,
            Ending::ReadFault => 4,
            Ending::WriteFault => 5,
            Ending::NoMemory => 6,
            Ending::TooManySteps | Ending::TooManyInputs => 7,
            Ending::File(_)
            | Ending::Unread(_)
            | Ending::NotFormatted
            | Ending::Damaged { .. }
            | Ending::NoJournals { .. } => 8,
            Ending::TooLarge { .. } => 9,
            Ending::DiskFault | Ending::Full => 12,
        }
    }

    /// How a node's process ended.
    pub(crate) fn of_filter(end: FilterEnd) -> Result<(), Ending> {
        match end {
            FilterEnd::End => Ok(()),
            FilterEnd::Inside { at } => Err(Ending::InsideParcel { at }),
            FilterEnd::TooLong { at } => Err(Ending::ParcelTooLong { at }),
            FilterEnd::TooManyInputs => Err(Ending::TooManyInputs),
            FilterEnd::ReadFault => Err(Ending::ReadFault),
            FilterEnd::WriteFault => Err(Ending::WriteFault),
            FilterEnd::NotKept(error) => Err(Ending::from(error)),
            FilterEnd::NoMemory => Err(Ending::NoMemory),
        }
    }
}

impl From<NoMemory> for Ending {
    fn from(_: NoMemory) -> Ending {
        Ending::NoMemory
    }
}

/// Of a run that reads nothing and only writes.
impl From<Status> for Ending {
    fn from(status: Status) -> Ending {
        match status {
            Status::WriteFault => Ending::WriteFault,
            _ => Ending::NoMemory,
        }
    }
}

impl From<Failed<CurpdWordsError>> for Ending {
    fn from(failed: Failed<CurpdWordsError>) -> Ending {
        match failed {
            Failed::NoMemory => Ending::NoMemory,
            Failed::Because(error) => Ending::Words(error),
        }
    }
}

impl From<FileError> for Ending {
    fn from(error: FileError) -> Ending {
        Ending::File(error)
    }
}

impl From<Failed<FormatError>> for Ending {
    fn from(failed: Failed<FormatError>) -> Ending {
        match failed {
            Failed::NoMemory => Ending::NoMemory,
            Failed::Because(FormatError::NotEmpty) => Ending::NotFormatted,
            Failed::Because(FormatError::DiskFault) => Ending::DiskFault,
        }
    }
}

impl From<Failed<OpenError>> for Ending {
    fn from(failed: Failed<OpenError>) -> Ending {
        match failed {
            Failed::NoMemory => Ending::NoMemory,
            Failed::Because(OpenError::DiskFault) => Ending::DiskFault,
            Failed::Because(OpenError::NotFormatted) => Ending::NotFormatted,
            Failed::Because(OpenError::Damaged { place }) => Ending::Damaged { place },
        }
    }
}

impl From<Failed<DurableError>> for Ending {
    fn from(failed: Failed<DurableError>) -> Ending {
        match failed {
            Failed::NoMemory => Ending::NoMemory,
            Failed::Because(DurableError::Full | DurableError::NoEncoding) => Ending::Full,
            Failed::Because(DurableError::DiskFault | DurableError::Spent) => Ending::DiskFault,
        }
    }
}

impl From<&Ending> for ExitCode {
    fn from(ending: &Ending) -> ExitCode {
        ExitCode::from(ending.code())
    }
}

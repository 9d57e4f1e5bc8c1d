ghost use Rattle.std.specs.Prelude.{◌≡◌};
ghost use Rattle.curp_durable.specs.Errors.{durable_error};

use curp_base::Failed;
use curp_batches::NoEncoding;
use thiserror::Error;

/// Why a disk wasn't formatted.
#[derive(Clone, Copy, Debug, PartialEq, Eq, Error)]
pub enum FormatError {
    /// More bytes are there than an empty journal has.
    #[error("the disk has more than an empty journal")]
    NotEmpty,
    #[error("the disk failed")]
    DiskFault,
}

/// Why a journal wasn't opened.
#[derive(Clone, Copy, Debug, PartialEq, Eq, Error)]
pub enum OpenError {
    #[error("the disk failed")]
    DiskFault,
    /// There is no journal of this title: the title and one byte aren't there.
    #[error("there is no journal of this title")]
    NotFormatted,
    /// The open commit byte at this place isn't followed by the record of a batch and one byte.
    #[error("the journal is damaged at byte {place}")]
    Damaged { place: u64 },
}

/// Why a batch wasn't taken.
#[derive(Clone, Copy, Debug, PartialEq, Eq, Error)]
pub enum DurableError {
    /// The record of all would end past the journal's size limit. A shorter batch may still have room.
    #[error("the journal is full")]
    Full,
    /// No journal takes it: one is a message that has no frame (`curp_wire::NoFrame`) or whose sender is a
    /// node that there can't be, or the encoding of all has 2^32 bytes or more. Of many, a shorter batch may have one.
    #[error("no journal takes the batch")]
    NoEncoding,
    #[error("the disk failed")]
    DiskFault,
    /// An earlier call stopped where the node or the disk may have moved on: the journal is to be opened again.
    #[error("the journal is to be opened again")]
    Spent,
}

/// Why a batch isn't taken, by why it isn't encoded.
pub(crate) fn durable_error(why: Failed<NoEncoding>) -> Failed<DurableError>
    ensures { result ≡ durable_error why }
{
    match why {
        Failed::NoMemory => Failed::NoMemory,
        Failed::Because(NoEncoding) => Failed::Because(DurableError::NoEncoding),
    }
}

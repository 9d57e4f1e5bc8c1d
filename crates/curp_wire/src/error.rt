ghost use Rattle.std.specs.Prelude.{◌≡◌};
ghost use Rattle.curp_wire.specs.Errors.{frame_error};

use curp_base::Failed;
use curp_items::Fault;
use thiserror::Error;

/// There is no frame of a message: a node in it has the number 0 and isn't the manager, or the other way round, or a list has
/// more elements than 32 bits count, or more bytes would stand behind the length than that tells.
#[derive(Clone, Copy, Debug, PartialEq, Eq, Error)]
#[error("the message has no frame")]
pub struct NoFrame;

/// Why bytes begin with no frame. The first that holds is told.
#[derive(Clone, Copy, Debug, PartialEq, Eq, Error)]
pub enum FrameError {
    /// The frame, as far as its length is there, has this many bytes, and more than these.
    #[error("the frame has {need} bytes, and not all are there")]
    Short { need: u64 },
    /// No body has the tag that stands there.
    #[error("no message has this tag")]
    BadTag,
    /// A number, a node, a count, a key or a value doesn't end within the frame or may not stand there, or a byte is left
    /// over: this is the place of its first byte. The place 0 is that of the frame's length.
    #[error("byte {place} of the frame is wrong")]
    BadField { place: u64 },
}

/// A fault of a frame's content is one of a field.
pub(crate) fn bad_field(fault: Fault) -> Failed<FrameError>
    ensures { result ≡ Failed.Because (FrameError.BadField fault.place) }
{
    Failed::Because(FrameError::BadField { place: fault.place })
}

/// Why bytes are not decoded, by why a frame's content isn't read.
pub(crate) fn frame_error(why: Failed<Fault>) -> Failed<FrameError>
    ensures { result ≡ frame_error why }
{
    match why {
        Failed::NoMemory => Failed::NoMemory,
        Failed::Because(fault) => bad_field(fault),
    }
}

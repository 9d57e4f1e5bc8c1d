ghost use Rattle.std.specs.Prelude.{◌≡◌};
ghost use Rattle.curp_batches.specs.Errors.{encoding_error};

use curp_base::Failed;
use curp_wire::NoFrame;
use thiserror::Error;

/// What comes to a node, or goes out from it, has no encoding: a message has no frame (`curp_wire::NoFrame`), its sender is a
/// node that there can't be, or there is no length for so many bytes.
#[derive(Clone, Copy, Debug, PartialEq, Eq, Error)]
#[error("it has no encoding")]
pub struct NoEncoding;

/// Why what holds a message isn't written, by why that message isn't.
pub(crate) fn encoding_error(why: Failed<NoFrame>) -> Failed<NoEncoding>
    ensures { result ≡ encoding_error why }
{
    match why {
        Failed::NoMemory => Failed::NoMemory,
        Failed::Because(NoFrame) => Failed::Because(NoEncoding),
    }
}

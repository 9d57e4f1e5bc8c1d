ghost use Rattle.std.specs.Prelude.{◌≡◌};

use curp_base::Failed;
use thiserror::Error;

/// Bytes are no encoding. The place is that of the first byte of the first item, from the left, that isn't whole or may
/// not stand there.
#[derive(Clone, Copy, Debug, PartialEq, Eq, Error)]
#[error("byte {place} is wrong")]
pub struct Fault {
    pub place: u64,
}

impl From<Fault> for Failed<Fault> {
    ghost use Rattle.curp_base.specs.declared.failed.Failed.TheVariants as failed;

    ghost from_gives = { λ fault why. why ≡ failed.Because fault };

    fn from(fault: Fault) -> Failed<Fault> {
        Failed::Because(fault)
    }
}

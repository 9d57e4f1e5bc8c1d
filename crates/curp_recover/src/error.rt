use crate::Phase;
use thiserror::Error;

/// A recovery doesn't take what comes: it is in a phase that doesn't wait for it, or it has it already.
#[derive(Clone, Copy, Debug, PartialEq, Eq, Error)]
#[error("the recovery doesn't wait for it now")]
pub struct Ignored {
    pub phase: Phase,
}

use thiserror::Error;

/// An epoch is refused: the backup takes only this one, or none below it.
#[derive(Clone, Copy, Debug, PartialEq, Eq, Error)]
#[error("fenced at epoch {epoch}")]
pub struct Fenced {
    pub epoch: u32,
}

/// Why a backup takes no entries.
#[derive(Clone, Copy, Debug, PartialEq, Eq, Error)]
pub enum AppendError {
    /// It takes nothing of an epoch below its fence, which is this.
    #[error("fenced at epoch {epoch}")]
    Fenced { epoch: u32 },
    /// Its log has only this length, and doesn't reach to the base.
    #[error("the log has only length {length}")]
    Gap { length: u64 },
    /// It isn't installed at that epoch.
    #[error("the backup isn't installed at that epoch")]
    NotInstalled,
}

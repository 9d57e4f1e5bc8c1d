use curp_model::Mode;
use thiserror::Error;

/// There is no witness of that shape: there are not 1 to 1024 sets, or not 1 to 16 ways.
#[derive(Clone, Copy, Debug, PartialEq, Eq, Error)]
#[error("a witness has 1 to 1024 sets of 1 to 16 ways")]
pub struct BadShape;

/// A witness isn't started: it was started or frozen already, and has this mode.
#[derive(Clone, Copy, Debug, PartialEq, Eq, Error)]
#[error("the witness was started or frozen already")]
pub struct NotIdle {
    pub mode: Mode,
}

/// A witness gives no suspects: it was started at this epoch, if it was, and the collection is of another one.
#[derive(Clone, Copy, Debug, PartialEq, Eq, Error)]
#[error("the collection is of another epoch")]
pub struct Stranger {
    pub epoch: Option<u32>,
}

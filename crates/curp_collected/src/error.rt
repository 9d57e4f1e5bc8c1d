ghost use Rattle.std.specs.Prelude.{◌≡◌};
ghost use Rattle.curp_collected.specs.declared.error.ScriptError.TheVariants as script;

use curp_gather::GatherError;
use thiserror::Error;

/// Why files aren't the journals of a header's nodes. A file goes by its place among those that were given, counted
/// from 0; inputs count from 1.
#[derive(Clone, Copy, Debug, PartialEq, Eq, Error)]
pub enum CollectError {
    #[error("there is no file")]
    NoFile,
    /// No title of a node's journal stands at the start, with a commit byte behind it.
    #[error("file {file} is no journal of a node")]
    NotAJournal { file: usize },
    /// Its header isn't that of the first file.
    #[error("file {file} is of a node of another header than file 0")]
    OtherHeader { file: usize },
    /// The header has fewer clients.
    #[error("file {file} is of a client that its header doesn't have")]
    NoSuchNode { file: usize },
    /// A file before it is of the same node.
    #[error("file {file} is of the same node as a file before it")]
    Twice { file: usize },
    #[error("file {file} is damaged at byte {place}")]
    Damaged { file: usize, place: u64 },
    /// The input is a message to another node, or an order that no script gives to the node.
    #[error("input {number} in file {file} isn't its node's own")]
    Foreign { file: usize, number: u64 },
    /// The node refuses the order, or no stamp is left.
    #[error("input {number} in file {file} is refused by its node")]
    Refused { file: usize, number: u64 },
    /// The node isn't there before any step, and took an order before any message.
    #[error("file {file} is of a fresh node that took an order first")]
    OrderFirst { file: usize },
}

/// Why files are no script.
#[derive(Debug, Drop, Error)]
pub enum ScriptError {
    #[error("{0}")]
    Collect(CollectError),
    /// The journals don't fit one another, or are beyond a script's limits.
    #[error("{0}")]
    Gather(GatherError),
}

impl From<CollectError> for ScriptError {
    ghost from_gives = { λ why e. e ≡ script.Collect why };

    fn from(error: CollectError) -> ScriptError {
        ScriptError::Collect(error)
    }
}

impl From<GatherError> for ScriptError {
    ghost from_gives = { λ why e. e ≡ script.Gather why };

    fn from(error: GatherError) -> ScriptError {
        ScriptError::Gather(error)
    }
}

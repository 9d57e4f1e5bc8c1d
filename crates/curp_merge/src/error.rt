use crate::mismatch::Mismatch;
use curp_cmd::NodeId;
use curp_journal::Named;
use thiserror::Error;

/// Why journals aren't a script.
#[derive(Debug, Drop, Error)]
pub enum GatherError {
    /// The item of that number of the node, counted from 1, took a message that isn't the one that its sender's journal
    /// holds by its name.
    #[error("step {step} of {node} took a message that its sender didn't send")]
    Mismatch {
        node: NodeId,
        step: u64,
        got: Named,
        kept: Option<Named>,
    },
    /// There are more than 200,000 items and last stops.
    #[error("the journals have more than 200,000 steps")]
    TooManySteps,
    /// All that was sent weighs more than 2,000,000.
    #[error("the messages weigh {weight}, which is more than 2,000,000")]
    TooLarge {
        weight: u64,
    },
}

impl From<Mismatch> for GatherError {
    ghost use Rattle.std.specs.Prelude.{◌≡◌};
    ghost use Rattle.curp_merge.specs.declared.error.GatherError.TheVariants as error;

    ghost from_gives = { λ m e. e ≡ error.Mismatch m.node m.step m.got m.kept };

    fn from(mismatch: Mismatch) -> GatherError {
        let Mismatch {
            node,
            step,
            got,
            kept,
        } = mismatch;
        GatherError::Mismatch {
            node,
            step,
            got,
            kept,
        }
    }
}

use curp_cmd::NodeId;
use curp_journal::Named;
use curpd_words::NodeName;
use thiserror::Error;

/// A node took a message that its sender's journal doesn't hold so. Items and messages are counted from 1.
#[derive(Clone, Copy, Debug, Error)]
#[error("item {step} of {node} took message {sent_place} of item {sent_step} of {from}, with stamp {stamp}, which {from}'s journal {found}")]
pub struct MessageMismatch {
    node: NodeName,
    step: u64,
    from: NodeName,
    sent_step: u64,
    sent_place: u64,
    stamp: u64,
    found: SenderHolds,
}

/// What the sender's journal has by the name of a message.
#[derive(Clone, Copy, Debug, Error)]
enum SenderHolds {
    #[error("doesn't have")]
    Nothing,
    #[error("has with another content or stamp")]
    Another,
}

impl MessageMismatch {
    /// The item of that number of a node took one message, and this is what the sender's journal has by its name.
    pub(crate) fn new(
        node: NodeId,
        step: u64,
        got: &Named,
        kept: &Option<Named>,
    ) -> MessageMismatch {
        MessageMismatch {
            node: NodeName(node),
            step,
            from: NodeName(got.from),
            sent_step: got.step,
            sent_place: got.place,
            stamp: got.stamp,
            found: match kept {
                Some(_) => SenderHolds::Another,
                None => SenderHolds::Nothing,
            },
        }
    }
}

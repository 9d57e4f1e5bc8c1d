use crate::Completed;

/// How a step went.
#[derive(Clone, Copy, Debug, PartialEq, Eq)]
pub enum StepResult {
    /// It was made.
    Done,
    /// No message of that number was sent.
    NoMessage,
    /// There is no node of that name.
    NoNode,
    /// The node is stopped.
    Gone,
    /// The manager isn't stopped.
    Manager,
    /// All messages sent before weigh more than 2,000,000: this much.
    Full { weight: u64 },
    /// The node refused the order, by that number.
    Refused { number: u8 },
}

/// What a step did.
#[derive(Clone, Copy, Debug, PartialEq, Eq)]
pub struct Outcome {
    pub result: StepResult,
    /// The number of the step's first message, were it to send one. Messages are numbered from 1 through the whole run.
    pub first: u64,
    /// How many messages it sent.
    pub sent: u64,
    /// The request that it completed.
    pub completed: Option<Completed>,
}

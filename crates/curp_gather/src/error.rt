use thiserror::Error;

/// Why ruled journals aren't a script.
#[derive(Debug, Drop, Error)]
pub enum RuledError {
    /// There are more than 200,000 items and last stops.
    #[error("the journals have more than 200,000 steps")]
    TooManySteps,
    /// All that was sent weighs more than 2,000,000.
    #[error("the messages weigh {weight}, which is more than 2,000,000")]
    TooLarge { weight: u64 },
}

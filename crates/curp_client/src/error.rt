use curp_msg::Numbered;
use thiserror::Error;

/// Why a client invokes nothing.
#[derive(Clone, Copy, Debug, PartialEq, Eq, Error)]
pub enum InvokeError {
    /// It has 8 pending requests already.
    #[error("the client has 8 pending requests already")]
    TooMany,
    /// Its numbers are at their end: the last was 2^32 - 1.
    #[error("the client's numbers are at their end")]
    Numbers,
    /// No one partition of its configuration owns all keys of the command.
    #[error("no one partition owns all keys of the command")]
    Split,
}

/// Why a client doesn't send a request again.
#[derive(Clone, Copy, Debug, PartialEq, Eq, Error)]
pub enum RetryError {
    /// No request of that number is pending.
    #[error("no request of that number is pending")]
    NotPending,
    /// No one partition of its configuration owns all keys of the command.
    #[error("no one partition owns all keys of the command")]
    Split,
}

impl Numbered for InvokeError {
    ghost use Rattle.curp_client.specs.Refusals.{invoke_number, invoke_numbers_refuse};

    ghost number_of = { invoke_number };

    ghost numbers_refuse = { invoke_numbers_refuse };

    fn number(self) -> u8 {
        match self {
            InvokeError::TooMany => 1,
            InvokeError::Numbers => 2,
            InvokeError::Split => 3,
        }
    }
}

impl Numbered for RetryError {
    ghost use Rattle.curp_client.specs.Refusals.{retry_number, retry_numbers_refuse};

    ghost number_of = { retry_number };

    ghost numbers_refuse = { retry_numbers_refuse };

    fn number(self) -> u8 {
        match self {
            RetryError::NotPending => 1,
            RetryError::Split => 2,
        }
    }
}

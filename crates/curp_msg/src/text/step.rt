ghost use Rattle.std.specs.Prelude.{Some};
ghost use Rattle.curp_msg.specs.Text.{capture_text, completed_text, result_text};

use crate::{Capture, Completed, StepResult};
use curp_cmd::Decimal;
use std::fmt;

/// The number of the request, and its answer.
impl fmt::Display for Completed {
    ghost output = { λ completed. Some (completed_text completed) };

    fn fmt<W: fmt::Write>(&self, f: &mut fmt::Formatter<W>) -> fmt::Result {
        write!(f, "{} {}", self.id, self.answer)
    }
}

/// The master, its epoch, and the number of the capture there.
impl fmt::Display for Capture {
    ghost output = { λ capture. Some (capture_text capture) };

    fn fmt<W: fmt::Write>(&self, f: &mut fmt::Formatter<W>) -> fmt::Result {
        write!(
            f,
            "{} e{} r{}",
            self.master,
            Decimal(self.epoch as u64),
            Decimal(self.number)
        )
    }
}

impl fmt::Display for StepResult {
    ghost output = { λ how. Some (result_text how) };

    fn fmt<W: fmt::Write>(&self, f: &mut fmt::Formatter<W>) -> fmt::Result {
        match self {
            StepResult::Done => f.write_str("done"),
            StepResult::NoMessage => f.write_str("refused no-message"),
            StepResult::NoNode => f.write_str("refused no-node"),
            StepResult::Gone => f.write_str("refused gone"),
            StepResult::Manager => f.write_str("refused manager"),
            StepResult::Full { weight } => write!(f, "refused full {weight}"),
            StepResult::Refused { number } => write!(f, "refused call {number}"),
        }
    }
}

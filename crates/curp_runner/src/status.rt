ghost use Rattle.std.specs.Prelude.{◌≡◌, option_map};
ghost use Rattle.curp_runner.specs.Status.{code_of, complaint_of, ended, is_fault, refused_at};

use curp_base::{Failed, NoMemory};
use curp_check::{CLAIM_LIMIT, Clause};
use curp_msg::STEP_LIMIT;
use curp_script::LineError;
use std::fmt;
use std::process::ExitCode;

/// How a run ended.
#[derive(Clone, Copy, Debug, PartialEq, Eq)]
pub enum Status {
    /// The input was read to its end, and all text was written and flushed.
    Ok,
    /// The input was read to its end, and the order isn't one of the history: that clause is the first that fails.
    No { clause: Clause },
    /// The words are no command line. Nothing was read or written.
    Usage,
    /// That line, counted from 1, is the first that the grammar refuses.
    BadLine { line: u64, reason: LineError },
    /// Reading failed.
    ReadFault,
    /// Writing failed.
    WriteFault,
    /// There was no memory left.
    NoMemory,
    /// There is a step after the 200,000th.
    TooManySteps,
    /// There is a line of a history or an order after the 400,000th.
    TooManyLines,
    /// A step can't be made, since all messages weigh more than 2,000,000: this much.
    TooLarge { weight: u64 },
    /// That line, counted from 1, is the first above 65,536 bytes.
    LineTooLong { line: u64 },
    /// Behind so many bytes stands the first that no request has there, or the input ends inside a request.
    BadRequest { at: u64 },
}

impl Status {
    /// The number with which the process ends.
    pub fn code(&self) -> u8
        ensures { result ≡ code_of self.now }
    {
        match self {
            Status::Ok => 0,
            Status::No { .. } => 1,
            Status::Usage => 2,
            Status::BadLine { .. } => 3,
            Status::ReadFault => 4,
            Status::WriteFault => 5,
            Status::NoMemory => 6,
            Status::TooManySteps | Status::TooManyLines => 7,
            Status::TooLarge { .. } => 9,
            Status::LineTooLong { .. } => 10,
            Status::BadRequest { .. } => 11,
        }
    }

    /// What the program has to say on standard error.
    pub fn complaint(&self) -> Option<Complaint>
        ensures { option_map (λ complaint. complaint.0) result ≡ complaint_of self.now }
    {
        match self {
            Status::Ok => None,
            _ => Some(Complaint(*self)),
        }
    }

    /// The status of a run that a line ends.
    pub fn refused_at(line: u64, failed: Failed<LineError>) -> Status
        ensures { result ≡ refused_at line failed }
    {
        match failed {
            Failed::NoMemory => Status::NoMemory,
            Failed::Because(reason) => Status::BadLine { line, reason },
        }
    }

    /// The status of a run that gave this.
    pub(crate) fn of_run(outcome: Result<(), Status>) -> Status
        ensures { result ≡ ended outcome }
    {
        match outcome {
            Ok(()) => Status::Ok,
            Err(stop) => stop,
        }
    }

    /// Whether reading or writing failed.
    pub(crate) fn is_fault(&self) -> bool
        ensures { result ≡ is_fault self.now }
    {
        matches!(self, Status::ReadFault | Status::WriteFault)
    }
}

impl From<NoMemory> for Status {
    ghost use Rattle.std.specs.Prelude.{◌≡◌};
    ghost use Rattle.curp_runner.specs.declared.status.Status.TheVariants as status;

    ghost from_gives = { λ _ s. s ≡ status.NoMemory };

    fn from(_error: NoMemory) -> Status {
        Status::NoMemory
    }
}

impl From<Status> for ExitCode {
    ghost use Rattle.std.specs.Prelude.{◌≡◌};
    ghost use Rattle.std.specs.Process.{exit_status};
    ghost use Rattle.curp_runner.specs.Status.{code_of};

    ghost from_gives = { λ s code. exit_status code ≡ code_of s };

    fn from(status: Status) -> ExitCode {
        ExitCode::from(status.code())
    }
}

impl fmt::Display for Status {
    ghost use Rattle.std.specs.Prelude.{Some};
    ghost use Rattle.curp_runner.specs.Status.{status_text};

    ghost output = { λ s. Some (status_text s) };

    fn fmt<W: fmt::Write>(&self, f: &mut fmt::Formatter<W>) -> fmt::Result {
        match self {
            Status::Ok => write!(f, "done"),
            Status::No { clause } => write!(f, "no, clause {}", clause.number()),
            Status::Usage => write!(
                f,
                "usage: curp play, make, live, check, resp or manage, each with its options; curp --help tells them"
            ),
            Status::BadLine { line, reason } => write!(f, "line {line}: {reason}"),
            Status::ReadFault => write!(f, "reading failed"),
            Status::WriteFault => write!(f, "writing failed"),
            Status::NoMemory => write!(f, "out of memory"),
            Status::TooManySteps => write!(f, "more than {STEP_LIMIT} steps"),
            Status::TooManyLines => write!(f, "more than {CLAIM_LIMIT} lines"),
            Status::TooLarge { weight } => write!(f, "weight {weight}"),
            Status::LineTooLong { line } => write!(f, "line {line} is too long"),
            Status::BadRequest { at } => write!(f, "bad request at {at}"),
        }
    }
}

/// The line on standard error for a run that didn't end well.
#[derive(Clone, Copy, PartialEq, Eq)]
pub struct Complaint(pub Status);

impl fmt::Display for Complaint {
    ghost use Rattle.std.specs.Prelude.{Some};
    ghost use Rattle.curp_runner.specs.Status.{complaint_text};

    ghost output = { λ complaint. Some (complaint_text complaint.0) };

    fn fmt<W: fmt::Write>(&self, f: &mut fmt::Formatter<W>) -> fmt::Result {
        write!(f, "curp: {}", self.0)
    }
}

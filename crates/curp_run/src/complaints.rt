//! What there is to complain of behind a run, as one value.
ghost use Rattle.std.specs.Prelude.{◌≡◌, ◌≢◌, IfOk, is_ok, true};
ghost use Rattle.std.specs.Fmt.{WritesOnOk};
ghost use Rattle.curp_runner.specs.declared.status.Status.TheVariants.{Usage};
ghost use Rattle.curp_run.specs.Complaints.{blamed_text, usage_text};
ghost use Rattle.curp_words.specs.Arguments.{words_of};
ghost use Rattle.curp_words.specs.WrongWords.{Blames};
ghost use Rattle.curp_words.specs.declared.wrong_words.Blame.TheVariants.{Unknown};

use curp_base::NoMemory;
use curp_runner::{Complaint, Status};
use curp_words::{Blame, blame_of, write_options};
use std::alloc::Global;
use std::fmt;

/// All that the program writes to standard error: nothing where a run ended well, and else a line on how it ended. Words
/// that are no command line have a line before it, on what is wrong with them, and one behind it, on the options that
/// there are; words that ask for help have a page in place of these.
#[derive(Clone, Copy)]
pub struct Complaints<'a> {
    pub status: Status,
    pub blame: Blame<'a>,
}

impl Complaints<'_> {
    /// Those of a status alone. It takes no memory.
    pub fn of_status(status: Status) -> Complaints<'static>
        ensures status { result.status ≡ status }
        ensures blame { result.blame ≡ Unknown }
    {
        Complaints {
            status,
            blame: Blame::Unknown,
        }
    }
}

/// What there is to complain of where a run of these arguments, of which the first is the program's name, ended so. It
/// takes memory only to find what is wrong with words that are no command line.
pub fn complaints_of<'a>(
    alloc: Global,
    status: Status,
    arguments: &'a [String],
) -> Result<Complaints<'a>, NoMemory>
    ensures status { IfOk result (λ told. told.status ≡ status) }
    ensures blame { status ≡ Usage → IfOk result (λ told. Blames (words_of arguments.now) told.blame) }
    ensures no_blame { status ≢ Usage → IfOk result (λ told. told.blame ≡ Unknown) }
    ensures there { status ≢ Usage → is_ok result ≡ true }
{
    if status != Status::Usage {
        return Ok(Complaints::of_status(status));
    }
    match blame_of(alloc, arguments) {
        Ok(blame) => Ok(Complaints { status, blame }),
        Err(error) => Err(error),
    }
}

fn write_usage<W: fmt::Write>(f: &mut fmt::Formatter<W>, blame: &Blame<'_>) -> fmt::Result
    ensures { WritesOnOk W.write_str_gives f.old result (usage_text blame.now) f.new }
{
    match blame {
        Blame::Help => write!(f, "{blame}"),
        Blame::Word(_) | Blame::End | Blame::Unknown => write_blamed(f, blame),
    }
}

#[tactic(auto, unfolding(crate::specs::Complaints::blamed_text))]
fn write_blamed<W: fmt::Write>(f: &mut fmt::Formatter<W>, blame: &Blame<'_>) -> fmt::Result
    ensures { WritesOnOk W.write_str_gives f.old result (blamed_text blame.now) f.new }
{
    write!(f, "{blame}")?;
    writeln!(f, "{}", Complaint(Status::Usage))?;
    write_options(f)
}

impl fmt::Display for Complaints<'_> {
    ghost use Rattle.std.specs.Prelude.{Some};
    ghost use Rattle.curp_run.specs.Complaints.{complaints_text};

    ghost output = { λ told. Some (complaints_text told.status told.blame) };

    fn fmt<W: fmt::Write>(&self, f: &mut fmt::Formatter<W>) -> fmt::Result {
        match self.status {
            Status::Ok => f.write_str(""),
            Status::Usage => write_usage(f, &self.blame),
            status => writeln!(f, "{}", Complaint(status)),
        }
    }
}

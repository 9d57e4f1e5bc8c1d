ghost use Rattle.std.specs.Prelude.{◌≡◌, ◌++◌, OnOk, string_bytes};
ghost use Rattle.curp_manage.specs.Kept.{IsNumberedBy};
ghost use Rattle.curp_manage.specs.Text.{outcome_text};
ghost use Rattle.curp_manage.specs.declared.outcome.LineOutcome.TheVariants as outcome;

use curp_base::{Items, NoMemory};
use curp_msg::{Message, Outcome, StepResult};
use curp_report::push_step_text;

/// What came of a line.
#[derive(Drop)]
pub(crate) enum LineOutcome {
    /// The manager sends these messages. A line that orders a crash sends none.
    Done(Items<Message>),
    /// The manager refuses the order, by that number.
    Refused { number: u8 },
    /// The input was stopped by a crash, and is kept or lost.
    Stopped { kept: bool },
}

/// Adds the text of a step. After running out of memory a part of it may stand there.
pub(crate) fn push_outcome(
    text: &mut String,
    number: u64,
    first: u64,
    outcome: &LineOutcome,
) -> Result<(), NoMemory>
    requires { IsNumberedBy first outcome.now }
    ensures { OnOk result (string_bytes text.new ≡ string_bytes text.old ++ outcome_text number first outcome.now) }
{
    match outcome {
        LineOutcome::Done(messages) => push_done(text, number, first, messages.as_slice()),
        LineOutcome::Refused { number: refused } => push_refused(text, number, first, *refused),
        LineOutcome::Stopped { kept } => push_stopped(text, number, *kept),
    }
}

fn push_done(
    text: &mut String,
    number: u64,
    first: u64,
    messages: &[Message],
) -> Result<(), NoMemory>
    requires { IsNumberedBy first (outcome.Done messages.now) }
    ensures { OnOk result (string_bytes text.new
        ≡ string_bytes text.old ++ outcome_text number first (outcome.Done messages.now)) }
{
    let outcome = Outcome {
        result: StepResult::Done,
        first,
        sent: messages.len() as u64,
        completed: None,
    };
    push_step_text(text, number, &outcome, messages)
}

fn push_refused(text: &mut String, number: u64, first: u64, refused: u8) -> Result<(), NoMemory>
    ensures { OnOk result (string_bytes text.new
        ≡ string_bytes text.old ++ outcome_text number first (outcome.Refused refused)) }
{
    let outcome = Outcome {
        result: StepResult::Refused { number: refused },
        first,
        sent: 0,
        completed: None,
    };
    push_step_text(text, number, &outcome, &[])
}

fn push_stopped(text: &mut String, number: u64, kept: bool) -> Result<(), NoMemory>
    ensures { OnOk result (string_bytes text.new
        ≡ string_bytes text.old ++ outcome_text number 0 (outcome.Stopped kept)) }
{
    if kept {
        writeln!(text, "s{number} stopped kept")?;
    } else {
        writeln!(text, "s{number} stopped lost")?;
    }
    Ok(())
}

ghost use Rattle.std.specs.Prelude.{◌≡◌, ◌+◌, ◌<◌, ◌^◌, ◌++◌, length, codes, string_bytes};
ghost use Rattle.std.specs.Prelude.{IfOk, OnOk};
ghost use Rattle.std.specs.Fmt.{decimal};
ghost use Rattle.curp_cmd.specs.Text.{node_label};
ghost use Rattle.curp_report.specs.Text.{completed_line, message_line, message_lines, result_line, step_text};

use curp_base::NoMemory;
use curp_cmd::{NodeId, NodeKind};
use curp_msg::{Completed, Message, Outcome, StepResult};
use itoa::Buffer;
use std::alloc::Global;

/// Adds the lines of a step: how it went, each message that it sent, and the request that it completed. Steps are
/// numbered from 1. After running out of memory a part of the lines may stand there.
#[tactic(auto, unfolding(crate::specs::Text::step_text))]
pub fn push_step_text(
    text: &mut String,
    number: u64,
    outcome: &Outcome,
    sent: &[Message],
) -> Result<(), NoMemory>
    requires { outcome.now.first + length sent.now < 2 ^ 64 }
    ensures { OnOk result (string_bytes text.new ≡ string_bytes text.old ++ step_text number outcome.now sent.now) }
{
    push_result_line(text, number, outcome.result)?;
    push_messages(text, outcome.first, sent)?;
    push_completed(text, outcome.completed)
}

/// Adds the number of a step, and how it went.
fn push_result_line(text: &mut String, number: u64, how: StepResult) -> Result<(), NoMemory>
    ensures { OnOk result (string_bytes text.new ≡ string_bytes text.old ++ result_line number how) }
{
    text.push_str("s")?;
    push_number(text, number)?;
    match how {
        StepResult::Done => text.push_str(" done\n"),
        _ => writeln!(text, " {how}"),
    }
}

/// Adds the request that a step completed, if it did.
fn push_completed(text: &mut String, completed: Option<Completed>) -> Result<(), NoMemory>
    ensures { OnOk result (string_bytes text.new ≡ string_bytes text.old ++ completed_line completed) }
{
    match completed {
        Some(completed) => writeln!(text, "c {completed}"),
        None => Ok(()),
    }
}

/// The lines of a step.
pub fn step_text(
    alloc: Global,
    number: u64,
    outcome: &Outcome,
    sent: &[Message],
) -> Result<Vec<u8>, NoMemory>
    requires { outcome.now.first + length sent.now < 2 ^ 64 }
    ensures { IfOk result (λ text. text.items ≡ step_text number outcome.now sent.now) }
{
    let mut text = String::new(alloc);
    push_step_text(&mut text, number, outcome, sent)?;
    Ok(text.into_bytes())
}

/// A line for each message, numbered from `first` on.
fn push_messages(text: &mut String, first: u64, sent: &[Message]) -> Result<(), NoMemory>
    requires { first + length sent.now < 2 ^ 64 }
    ensures { OnOk result (string_bytes text.new ≡ string_bytes text.old ++ message_lines first sent.now) }
{
    for (index, message) in sent.iter().enumerate() {
        push_message(text, first + index as u64, message)?;
    }
    Ok(())
}

fn push_message(text: &mut String, number: u64, message: &Message) -> Result<(), NoMemory>
    ensures { OnOk result (string_bytes text.new ≡ string_bytes text.old ++ message_line number message.now) }
{
    text.push_str("m")?;
    push_number(text, number)?;
    push_node(text, message.from)?;
    push_node(text, message.to)?;
    writeln!(text, " {}", message.body)
}

/// Adds a space and the name of a node.
fn push_node(text: &mut String, node: NodeId) -> Result<(), NoMemory>
    ensures { OnOk result (string_bytes text.new ≡ string_bytes text.old ++ codes " " ++ node_label node) }
{
    match node.kind {
        NodeKind::Manager => return text.push_str(" G"),
        NodeKind::Client => text.push_str(" C")?,
        NodeKind::Master => text.push_str(" M")?,
        NodeKind::Backup => text.push_str(" B")?,
        NodeKind::Witness => text.push_str(" W")?,
    }
    push_number(text, node.number as u64)
}

/// Adds a number in decimal digits: by itself, for less than a formatter costs.
fn push_number(text: &mut String, number: u64) -> Result<(), NoMemory>
    ensures { OnOk result (string_bytes text.new ≡ string_bytes text.old ++ decimal number) }
{
    let mut buffer = Buffer::new();
    text.push_str(buffer.format(number))
}

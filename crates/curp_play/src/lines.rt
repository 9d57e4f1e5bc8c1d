//! A script as text.
ghost use Rattle.std.specs.Prelude.{◌≡◌, ◌++◌, IfOk, OnOk};
ghost use Rattle.curp_base.specs.Words.{Each};
ghost use Rattle.curp_law_print.specs.Ranges.{StepInRange};
ghost use Rattle.curp_script.specs.Texts.{script_lines, step_line};
ghost use Rattle.curp_msg.specs.Script.{IsHeader};
ghost use Rattle.curp_script.specs.Printed.{NamesNode};

use curp_base::NoMemory;
use curp_law_print::step_is_in_range;
use curp_msg::{Header, Step};
use curp_print::{print_header, print_line};
use std::alloc::Global;

/// The lines of a script.
pub fn script_text(alloc: Global, header: &Header, steps: &[Step]) -> Result<Vec<u8>, NoMemory>
    requires in_range { IsHeader header.now }
    requires printable { Each NamesNode steps.now }
    ensures text { IfOk result (λ text. text.items ≡ script_lines header.now steps.now) }
    ensures in_range { OnOk result (Each StepInRange steps.now) }
{
    let mut text = print_header(alloc, header)?;
    text.extend_from_slice(b"\n")?;
    for step in steps {
        push_line(alloc, step, &mut text)?;
    }
    Ok(text)
}

/// The text, with the line of a step behind it.
fn push_line(alloc: Global, step: &Step, text: &mut Vec<u8>) -> Result<(), NoMemory>
    requires { NamesNode step.now }
    ensures added { OnOk result (text.new.items ≡ text.old.items ++ step_line step.now) }
    ensures in_range { StepInRange step.now }
{
    step_is_in_range(step);
    let line = print_line(alloc, step)?;
    text.extend_from_slice(&line)?;
    text.extend_from_slice(b"\n")
}

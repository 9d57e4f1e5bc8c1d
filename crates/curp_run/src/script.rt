ghost use Rattle.std.specs.Prelude.{◌≡◌, ◌≤◌, ◌+◌, OnOk};
ghost use Rattle.curp_io.specs.Streaming.{TellsFault, wrote_of};
ghost use Rattle.curp_gen.specs.Texts.{made_script, made_text, script_text, summary_text};
ghost use Rattle.curp_script.specs.Texts.{line_text, lines_text};
ghost use Rattle.curp_gen.specs.Making.{after, begun, steps_from, summary_of};
ghost use Rattle.curp_runner.specs.Reading.{script_in};
ghost use Rattle.curp_runner.specs.Writing.{PassesOn, PutsText, WritesText};
ghost use Rattle.curp_run.specs.Run.{ArePrintable};
ghost use Rattle.curp_play.specs.Show.{EndsMade, IsOfMaking};
ghost use Rattle.curp_words.specs.Plan.{IsPlan};

use curp_gen::Maker;
use curp_io::Sink;
use curp_law_print::{printed_scripts_are_read, step_is_in_range};
use curp_print::{print_header, print_line};
use curp_runner::{Status, close, write};
use curp_words::{MakePlan, Output};
use std::alloc::Global;

/// Writes the script of a plan, or its summary: what happens in it, in numbers. It takes no handle, and returns.
///
/// The script is written line by line, as its steps are made.
pub fn make_script<K: Sink>(alloc: Global, plan: &MakePlan, output: Output, sink: &mut K) -> Status
    requires { IsPlan plan.now }
    // It writes what the plan gives, and passes it on.
    ensures wrote { WritesText (made_text plan.now output)
        (wrote_of K.tells K.held K.flushed K.faults sink.old sink.new) result }
    ensures passes_on { PassesOn (wrote_of K.tells K.held K.flushed K.faults sink.old sink.new) result }
    // A made script is read to its end, as the plan's header and steps: none of its lines is refused.
    ensures reads { result ≡ Status.Ok → output ≡ Output.Script
        → script_in (made_text plan.now output) ≡ made_script plan.now }

    // A write fault comes exactly where the count of faults rose; running out of memory is the one other failure.
    ensures of_making { IsOfMaking result }
    ensures complete { EndsMade result (K.faults sink.old) (K.faults sink.new) }
    ensures write_fault { TellsFault (result ≡ Status.WriteFault) (K.faults sink.old) (K.faults sink.new) }
{
    let made = write_made(alloc, plan, output, sink);
    close(sink, made)
}

// Writes the script of a plan, or its summary.
fn write_made<K: Sink>(
    alloc: Global,
    plan: &MakePlan,
    output: Output,
    sink: &mut K,
) -> Result<(), Status>
    requires { IsPlan plan.now }
    ensures puts { PutsText (made_text plan.now output)
        (wrote_of K.tells K.held K.flushed K.faults sink.old sink.new) result }
    ensures reads { OnOk result (output ≡ Output.Script
        → script_in (made_text plan.now output) ≡ made_script plan.now) }
{
    match output {
        Output::Script => write_script(alloc, plan, sink),
        Output::Summary => write_summary(alloc, plan, sink),
    }
}

// Writes the script of a plan.
fn write_script<K: Sink>(alloc: Global, plan: &MakePlan, sink: &mut K) -> Result<(), Status>
    requires { IsPlan plan.now }
    ensures puts { PutsText (script_text plan.now)
        (wrote_of K.tells K.held K.flushed K.faults sink.old sink.new) result }
    ensures reads { OnOk result (script_in (script_text plan.now) ≡ made_script plan.now) }
{
    let mut maker = Maker::new(alloc, plan)?;
    let written = write_begun(alloc, plan, &mut maker, sink);
    drop(maker);
    written
}

// Writes a script that is begun.
fn write_begun<K: Sink>(
    alloc: Global,
    plan: &MakePlan,
    maker: &mut Maker,
    sink: &mut K,
) -> Result<(), Status>
    requires begun { maker.old ≡ begun plan.now }
    requires in_range { IsPlan plan.now }
    ensures puts { PutsText (script_text plan.now)
        (wrote_of K.tells K.held K.flushed K.faults sink.old sink.new) result }
    ensures reads { OnOk result (script_in (script_text plan.now) ≡ made_script plan.now) }
{
    printed_scripts_are_read();
    let header = print_header(alloc, &maker.header())?;
    write_line(header, sink)?;
    write_steps(alloc, plan.steps, maker, sink)
}

// Writes so many steps more.
fn write_steps<K: Sink>(
    alloc: Global,
    count: u32,
    maker: &mut Maker,
    sink: &mut K,
) -> Result<(), Status>
    requires { maker.old.made + count ≤ maker.old.plan.steps }
    ensures puts { PutsText (lines_text (steps_from count maker.old))
        (wrote_of K.tells K.held K.flushed K.faults sink.old sink.new) result }
    ensures printable { OnOk result (ArePrintable (steps_from count maker.old)) }
{
    for _ in 0..count {
        let step = maker.next_step()?;
        step_is_in_range(&step);
        let line = print_line(alloc, &step)?;
        write_line(line, sink)?;
    }
    Ok(())
}

// Writes a line, with a line feed.
fn write_line<K: Sink>(mut line: Vec<u8>, sink: &mut K) -> Result<(), Status>
    ensures { PutsText (line_text line.items) (wrote_of K.tells K.held K.flushed K.faults sink.old sink.new) result }
{
    line.reserve(1)?;
    line.push_reserved(b'\n');
    write(sink, &line)
}

// Makes the script of a plan, and writes what happened in it.
fn write_summary<K: Sink>(alloc: Global, plan: &MakePlan, sink: &mut K) -> Result<(), Status>
    requires { IsPlan plan.now }
    ensures { PutsText (summary_text (summary_of (after plan.now.steps (begun plan.now))))
        (wrote_of K.tells K.held K.flushed K.faults sink.old sink.new) result }
{
    let mut maker = Maker::new(alloc, plan)?;
    let written = write_numbers(alloc, plan.steps, &mut maker, sink);
    drop(maker);
    written
}

// Makes so many steps more, and writes what happened in all.
fn write_numbers<K: Sink>(
    alloc: Global,
    count: u32,
    maker: &mut Maker,
    sink: &mut K,
) -> Result<(), Status>
    requires { maker.old.made + count ≤ maker.old.plan.steps }
    ensures { PutsText (summary_text (summary_of (after count maker.old)))
        (wrote_of K.tells K.held K.flushed K.faults sink.old sink.new) result }
{
    for _ in 0..count {
        maker.next_step()?;
    }
    let summary = maker.summary(alloc)?;
    let text = format!(in alloc; "{summary}")?;
    write(sink, text.as_bytes())
}

ghost use Rattle.std.specs.Prelude.{◌≡◌, ◌⊎◌, Some, None};
ghost use Rattle.curp_io.specs.Streaming.{TellsFault, took_of, wrote_of};
ghost use Rattle.std.specs.Process.{exit_status};
ghost use Rattle.std.specs.IoError.{error_kind};
ghost use Rattle.curp_runner.specs.Status.{TellsStatus, code_of};
ghost use Rattle.curp_run.specs.Does.{EndsWith};
ghost use Rattle.curp_run.specs.Run.{unread_words};
ghost use Rattle.curp_words.specs.Arguments.{asked};
ghost use Rattle.curp_words.specs.declared.wrong_words.Blame.TheVariants.{Unknown};
ghost use Rattle.curp_words.specs.declared.task.LivePlan.{LivePlan};
ghost use Rattle.curp_words.specs.declared.task.MakePlan.{MakePlan};
ghost use Rattle.curp_words.specs.declared.task.Output.{Output};

use crate::command::run;
use crate::complaints::{Complaints, complaints_of};
use curp_io::{Sink, Source, StdSink, StdSource};
use curp_runner::Status;
use curp_seat::{Observer, Unobserved};
use curp_words::Task;
use std::alloc::Global;
use std::io::BufWriter;
use std::process::ExitCode;
use std::rt::Env;
use std::sync::Wait;
use std::thread::Threads;
use std::{env, io};

/// How many bytes of output wait at most until they are passed on together.
const OUTPUT_ROOM: usize = 65_536;

/// Does all that `main` does: runs the arguments of the process over the standard streams, as `run_to_end`. Output is
/// held back until it is passed on, or until 65,536 bytes wait, so that many lines make one call of the system.
pub fn start(
    rt: &(impl Env + Input + Print + Eprint + AllocGlobal + Threads + Wait + Sync),
) -> ExitCode
    ensures { TellsStatus (exit_status result) }
{
    match BufWriter::with_capacity(rt.alloc(), OUTPUT_ROOM, io::writer(rt)) {
        Ok(writer) => {
            let mut source = StdSource::new(rt.reader());
            let mut sink = StdSink::new(writer);
            run_process(rt, &mut source, &mut sink)
        }
        Err(_) => told(rt, &Complaints::of_status(Status::NoMemory)),
    }
}

/// Runs the arguments of the process. Words that are no text are no command line.
fn run_process<S: Source, K: Sink>(
    rt: &(impl Env + Eprint + AllocGlobal + Threads + Wait + Sync),
    source: &mut S,
    sink: &mut K,
) -> ExitCode
    ensures { TellsStatus (exit_status result) }
{
    match arguments_of(rt) {
        Ok(arguments) => run_to_end(rt, rt.alloc(), &arguments, source, sink, rt, &Unobserved),
        Err(error) => told(rt, &Complaints::of_status(of_unread_words(&error))),
    }
}

/// The arguments of the process.
fn arguments_of(rt: &(impl Env + AllocGlobal)) -> io::Result<Vec<String>> {
    let mut arguments = Vec::new(rt.alloc());
    for argument in env::args(rt)? {
        arguments.push(argument)?;
    }
    Ok(arguments)
}

/// Does what the arguments say, as `run`, prints what there is to complain of, and gives the number of how it ended.
pub fn run_to_end<R: Threads + Wait + Sync, G: Observer + Sync, S: Source, K: Sink, E: Eprint>(
    rt: &R,
    alloc: Global,
    arguments: &[String],
    source: &mut S,
    sink: &mut K,
    errors: &E,
    observer: &G,
) -> ExitCode
    // It ends with the number of a status, and what that run took and wrote is as `run` says of this status.
    ensures ran { EndsWith (exit_status result) (asked arguments.now) (took_of S.tells S.left S.faults source.old source.new)
        (wrote_of K.tells K.held K.flushed K.faults sink.old sink.new) }
    // For words that are no command line nothing is read or written, and for `make` and `live` nothing is read.
    ensures untouched { asked arguments.now ≡ None → (source.new ≡ source.old) × (sink.new ≡ sink.old) }
    ensures unread { (plan : MakePlan) (output : Output) → asked arguments.now ≡ Some (Task.Make plan output)
        → source.new ≡ source.old }
    ensures unread_living { (plan : LivePlan) → asked arguments.now ≡ Some (Task.Live plan) → source.new ≡ source.old }
    // With 2 exactly for words that are no command line, unless there was no memory to tell.
    ensures usage { exit_status result ≡ 2 → asked arguments.now ≡ None }
    ensures no_task { asked arguments.now ≡ None → (exit_status result ≡ 2) ⊎ (exit_status result ≡ 6) }
    // With 4 exactly where reading failed, and with 5 exactly where writing failed.
    ensures read_fault { TellsFault (exit_status result ≡ 4) (S.faults source.old) (S.faults source.new) }
    ensures write_fault { TellsFault (exit_status result ≡ 5) (K.faults sink.old) (K.faults sink.new) }
{
    let status = run(rt, alloc, arguments, source, sink, observer);
    let found = complaints_of(alloc, status, arguments);
    let complaints = found.unwrap_or(Complaints::of_status(status));
    told(errors, &complaints)
}

/// Prints what there is to complain of. Where it can't be printed, the number still tells.
fn told(errors: &impl Eprint, complaints: &Complaints<'_>) -> ExitCode
    ensures { exit_status result ≡ code_of complaints.now.status }
{
    let status = complaints.status;
    let _ = eprint!(errors; "{complaints}");
    ExitCode::from(status)
}

/// The status of a run whose words can't be read, by std's error.
fn of_unread_words(error: &io::Error) -> Status
    ensures { result ≡ unread_words (error_kind error.now) }
{
    match error.kind() {
        io::ErrorKind::InvalidData => Status::Usage,
        _ => Status::NoMemory,
    }
}

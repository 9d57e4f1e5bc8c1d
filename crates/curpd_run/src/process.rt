use crate::ending::Ending;
use crate::gathering::gather;
use crate::running::{format, run_front, run_node};
use curp_base::{NoMemory, past};
use curp_io::{StdSink, StdSource};
use curpd_words::{CurpdTask, CurpdWordsError, read};
use std::alloc::Global;
use std::fs::File;
use std::io::BufWriter;
use std::process::ExitCode;
use std::rt::{Env, Files};
use std::{env, io};

/// How many bytes of a script and its text wait at most until they are written together.
const OUTPUT_ROOM: usize = 65_536;

/// Does all that `main` does: what the arguments of the process say, over the standard streams.
pub fn start(
    rt: &(impl Env + Input + Print + Eprint + AllocGlobal + Files<File = File>),
) -> ExitCode {
    match run(rt) {
        Ok(()) => ExitCode::SUCCESS,
        Err(ending) => told(rt, &ending),
    }
}

/// Tells why the process ends. Where it can't be printed, the number still tells.
fn told(rt: &(impl Print + Eprint), ending: &Ending) -> ExitCode {
    match ending {
        Ending::Words(CurpdWordsError::Words(error)) => {
            let _ = error.print(rt);
            ExitCode::from(error.exit_code() as u8)
        }
        _ => {
            let _ = eprintln!(rt; "{ending}");
            ExitCode::from(ending)
        }
    }
}

#[tactic(auto, using(curp_world::proofs::Runs::in_order))]
fn run(
    rt: &(impl Env + Input + Print + Eprint + AllocGlobal + Files<File = File>),
) -> Result<(), Ending> {
    let alloc = rt.alloc();
    let arguments = match arguments_of(rt) {
        Ok(arguments) => arguments,
        Err(error) => return Err(of_unread_words(&error)),
    };
    let words = words_of(alloc, &arguments)?;
    match read(alloc, &words)? {
        CurpdTask::Format(seat) => format(rt, alloc, &seat),
        CurpdTask::Node(seat) => {
            let mut source = StdSource::new(rt.reader());
            let mut sink = StdSink::new(io::writer(rt));
            run_node(rt, alloc, &seat, &mut source, &mut sink)
        }
        CurpdTask::Front(seat) => {
            let mut source = StdSource::new(rt.reader());
            let mut sink = StdSink::new(io::writer(rt));
            run_front(rt, alloc, &seat, &mut source, &mut sink)
        }
        CurpdTask::Gather { files, until } => {
            let Ok(writer) = BufWriter::with_capacity(alloc, OUTPUT_ROOM, io::writer(rt)) else {
                return Err(Ending::NoMemory);
            };
            gather(rt, alloc, &files, until, &mut StdSink::new(writer))
        }
    }
}

/// The arguments of the process, which are to be text.
fn arguments_of(rt: &(impl Env + AllocGlobal)) -> io::Result<Vec<String>> {
    let mut arguments = Vec::new(rt.alloc());
    for argument in env::args(rt)? {
        arguments.push(argument)?;
    }
    Ok(arguments)
}

/// The words behind the program's name, which is the first argument.
fn words_of(alloc: Global, arguments: &[String]) -> Result<Vec<&str>, NoMemory> {
    let mut words = Vec::new(alloc);
    for argument in past(arguments, 1) {
        words.push(argument.as_str())?;
    }
    Ok(words)
}

/// Why the arguments can't be read.
fn of_unread_words(error: &io::Error) -> Ending {
    match error.kind() {
        io::ErrorKind::InvalidData => Ending::NoText,
        _ => Ending::NoMemory,
    }
}

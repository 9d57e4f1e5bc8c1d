//! The journals of a cluster as one script.
ghost use Rattle.std.specs.Prelude.{◌≡◌, ◌≤◌, length, IfOk};
ghost use Rattle.curp_base.specs.Words.{Each};
ghost use Rattle.curp_msg.specs.Limits.{step_limit};
ghost use Rattle.curp_msg.specs.Script.{IsHeader};
ghost use Rattle.curp_runner.specs.Reading.{script_in};
ghost use Rattle.curp_script.specs.Printed.{NamesNode};
ghost use Rattle.curp_script.specs.Script.{Whole};

use crate::ending::Ending;
use crate::mismatch::MessageMismatch;
use curp_base::{Failed, NoMemory};
use curp_collected::{CollectError, FileScript, ScriptError, script_of};
use curp_gather::GatherError;
use curp_io::Sink;
use curp_law_print::printed_scripts_are_read;
use curp_play::{script_text, write_played};
use curp_runner::Status;
use std::alloc::Global;
use std::fs::{self, File};
use std::io::ErrorKind;
use std::rt::Files;

/// Prints what the nodes of these journals did, and what playing that prints. A file that is missing is the journal of a
/// node that did nothing.
pub(crate) fn gather<K: Sink>(
    rt: &(impl Files<File = File> + AllocGlobal),
    alloc: Global,
    files: &[&str],
    until: Option<u64>,
    sink: &mut K,
) -> Result<(), Ending> {
    let found = JournalFiles::read(rt, alloc, files)?;
    let text = match script_of(alloc, &found.journals, until) {
        Ok(script) => text_of(alloc, &script)?,
        Err(Failed::NoMemory) => return Err(Ending::NoMemory),
        Err(Failed::Because(error)) => return Err(found.ending_of(alloc, &error)),
    };
    match write_played(alloc, &text, sink) {
        Status::Ok => Ok(()),
        stop => Err(Ending::from(stop)),
    }
}

/// The files that are there: their names and their bytes.
#[derive(Drop)]
struct JournalFiles<'a> {
    names: Vec<&'a str>,
    journals: Vec<Vec<u8>>,
}

impl<'a> JournalFiles<'a> {
    fn read(
        rt: &(impl Files<File = File> + AllocGlobal),
        alloc: Global,
        files: &[&'a str],
    ) -> Result<JournalFiles<'a>, Ending> {
        let mut found = JournalFiles {
            names: Vec::new(alloc),
            journals: Vec::new(alloc),
        };
        for file in files {
            match fs::read(rt, *file) {
                Ok(journal) => found.add(file, journal)?,
                Err(error) if error.kind() == ErrorKind::NotFound => {}
                Err(error) if error.kind() == ErrorKind::OutOfMemory => {
                    return Err(Ending::NoMemory);
                }
                Err(error) => return Err(Ending::Unread(error)),
            }
        }
        Ok(found)
    }

    fn add(&mut self, name: &'a str, journal: Vec<u8>) -> Result<(), NoMemory> {
        self.names.push(name)?;
        self.journals.push(journal)?;
        Ok(())
    }

    /// Why these are no script.
    fn ending_of(&self, alloc: Global, error: &ScriptError) -> Ending {
        match error {
            ScriptError::Collect(error) => self
                .no_journals(alloc, *error)
                .unwrap_or(Ending::NoMemory),
            ScriptError::Gather(
                GatherError::Mismatch {
                    node,
                    step,
                    got,
                    kept,
                },
            ) => Ending::Mismatch(MessageMismatch::new(*node, *step, got, kept)),
            ScriptError::Gather(GatherError::TooManySteps) => Ending::TooManySteps,
            ScriptError::Gather(GatherError::TooLarge { weight }) => {
                Ending::TooLarge { weight: *weight }
            }
        }
    }

    fn no_journals(&self, alloc: Global, error: CollectError) -> Result<Ending, NoMemory> {
        let file = file_of(error).and_then(|file| self.names.get(file));
        let name = String::from_str(alloc, file.copied().unwrap_or("none is there"))?;
        Ok(Ending::NoJournals { error, name })
    }
}

/// The file that an error is of.
fn file_of(error: CollectError) -> Option<usize> {
    match error {
        CollectError::NoFile => None,
        CollectError::NotAJournal { file }
        | CollectError::OtherHeader { file }
        | CollectError::NoSuchNode { file }
        | CollectError::Twice { file }
        | CollectError::Damaged { file, .. }
        | CollectError::Foreign { file, .. }
        | CollectError::Refused { file, .. }
        | CollectError::OrderFirst { file } => Some(file),
    }
}

/// The text of a script, which is read as that.
fn text_of(alloc: Global, script: &FileScript) -> Result<Vec<u8>, NoMemory>
    requires header { IsHeader script.now.header }
    requires few { length script.now.steps.items ≤ step_limit }
    requires printable { Each NamesNode script.now.steps.items }
    ensures { IfOk result (λ text. (script_in text.items).body.ending ≡ Whole) }
{
    printed_scripts_are_read();
    script_text(alloc, &script.header, &script.steps)
}

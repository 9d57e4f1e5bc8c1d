ghost use Rattle.std.specs.Prelude.{◌≡◌, IfOk};
ghost use Rattle.clap.specs.Matches.{first_value, found_of};
ghost use Rattle.clap.specs.Simple.{app_of};
ghost use Rattle.curp_words.specs.Command.{make_app, valued_app};
ghost use Rattle.curp_words.specs.Words.{make_options, make_task_by, output_by, plan_by};

use crate::options::{F, NUMBER, PARTS, PROTOCOL, SETS, WAYS, command_with, flag, read_protocol};
use crate::setting::Setting;
use crate::task::{MakePlan, Output, Task};
use clap::{ArgMatches, Command};
use curp_msg::STEP_LIMIT;
use std::alloc::{AllocError, Global};

const CLIENTS: Setting = Setting {
    name: "clients",
    least: 1,
    most: 64,
    default: 8,
};

const STEPS: Setting = Setting {
    name: "steps",
    least: 1,
    most: STEP_LIMIT,
    default: 4_000,
};

const RECOVERIES: Setting = Setting {
    name: "recoveries",
    least: 0,
    most: 64,
    default: 3,
};

/// A parser of `make` with its options, for words without the program's name.
pub(crate) fn make_command<'a>(alloc: Global) -> Result<Command<'a>, AllocError>
    ensures { IfOk result (λ command. app_of command ≡ make_app) }
{
    numbered_command(alloc)?.arg(flag(alloc, "summary"))
}

// The parser with the options that have numbers.
fn numbered_command<'a>(alloc: Global) -> Result<Command<'a>, AllocError>
    ensures { IfOk result (λ command. app_of command ≡ valued_app make_options.valued) }
{
    let settings = [
        NUMBER, F, SETS, WAYS, CLIENTS, PARTS, PROTOCOL, STEPS, RECOVERIES,
    ];
    command_with(alloc, &settings)
}

/// The task that the values of the words are.
pub(crate) fn make_task(matches: &ArgMatches<'_>) -> Option<Task>
    ensures { result ≡ make_task_by (first_value (found_of matches.now)) }
{
    match matches.get_str("command")? {
        "make" => Some(Task::Make(make_plan(matches)?, output(matches))),
        _ => None,
    }
}

fn make_plan(matches: &ArgMatches<'_>) -> Option<MakePlan>
    ensures { result ≡ plan_by (first_value (found_of matches.now)) }
{
    Some(MakePlan {
        number: NUMBER.read(matches)?,
        f: F.read_small(matches)?,
        sets: SETS.read_small(matches)?,
        ways: WAYS.read_small(matches)?,
        clients: CLIENTS.read_small(matches)?,
        parts: PARTS.read_small(matches)?,
        protocol: read_protocol(matches)?,
        steps: STEPS.read_small(matches)?,
        recoveries: RECOVERIES.read_small(matches)?,
    })
}

fn output(matches: &ArgMatches<'_>) -> Output
    ensures { result ≡ output_by (first_value (found_of matches.now)) }
{
    match matches.get_str("summary") {
        Some("true") => Output::Summary,
        _ => Output::Script,
    }
}

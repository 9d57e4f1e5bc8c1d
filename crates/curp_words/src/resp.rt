ghost use Rattle.std.specs.Prelude.{◌≡◌, IfOk};
ghost use Rattle.clap.specs.Matches.{first_value, found_of};
ghost use Rattle.clap.specs.Simple.{app_of};
ghost use Rattle.curp_words.specs.Command.{resp_app, valued_app};
ghost use Rattle.curp_words.specs.Words.{resp_options, resp_task_by, resp_output_by, resp_plan_by};

use crate::options::{F, command_with, flag};
use crate::setting::Setting;
use crate::task::{RespOutput, RespPlan, Task};
use clap::{ArgMatches, Command};
use std::alloc::{AllocError, Global};

const EVERY: Setting = Setting {
    name: "every",
    least: 0,
    most: 1_000_000,
    default: 0,
};

/// A parser of `resp` with its options, for words without the program's name.
pub(crate) fn resp_command<'a>(alloc: Global) -> Result<Command<'a>, AllocError>
    ensures { IfOk result (λ command. app_of command ≡ resp_app) }
{
    numbered_command(alloc)?.arg(flag(alloc, "script"))
}

// The parser with the options that have numbers.
fn numbered_command<'a>(alloc: Global) -> Result<Command<'a>, AllocError>
    ensures { IfOk result (λ command. app_of command ≡ valued_app resp_options.valued) }
{
    command_with(alloc, &[F, EVERY])
}

/// The task that the values of the words are.
pub(crate) fn resp_task(matches: &ArgMatches<'_>) -> Option<Task>
    ensures { result ≡ resp_task_by (first_value (found_of matches.now)) }
{
    match matches.get_str("command")? {
        "resp" => Some(Task::Resp(resp_plan(matches)?)),
        _ => None,
    }
}

fn resp_plan(matches: &ArgMatches<'_>) -> Option<RespPlan>
    ensures { result ≡ resp_plan_by (first_value (found_of matches.now)) }
{
    Some(RespPlan {
        f: F.read_small(matches)?,
        every: EVERY.read(matches)?,
        output: output(matches),
    })
}

fn output(matches: &ArgMatches<'_>) -> RespOutput
    ensures { result ≡ resp_output_by (first_value (found_of matches.now)) }
{
    match matches.get_str("script") {
        Some("true") => RespOutput::Script,
        _ => RespOutput::Replies,
    }
}

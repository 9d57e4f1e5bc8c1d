ghost use Rattle.std.specs.Prelude.{◌≡◌, IfOk};
ghost use Rattle.clap.specs.Matches.{first_value, found_of};
ghost use Rattle.clap.specs.Simple.{app_of};
ghost use Rattle.curp_words.specs.Command.{live_app};
ghost use Rattle.curp_words.specs.Words.{live_task_by, live_plan_by};

use crate::options::{F, NUMBER, PARTS, PROTOCOL, SETS, WAYS, command_with, read_protocol};
use crate::setting::Setting;
use crate::task::{LivePlan, Task};
use clap::{ArgMatches, Command};
use std::alloc::{AllocError, Global};

const CLIENTS: Setting = Setting {
    name: "clients",
    least: 1,
    most: 16,
    default: 8,
};

const COMMANDS: Setting = Setting {
    name: "commands",
    least: 1,
    most: 100,
    default: 50,
};

const RECOVERIES: Setting = Setting {
    name: "recoveries",
    least: 0,
    most: 8,
    default: 3,
};

/// A parser of `live` with its options, for words without the program's name.
pub(crate) fn live_command<'a>(alloc: Global) -> Result<Command<'a>, AllocError>
    ensures { IfOk result (λ command. app_of command ≡ live_app) }
{
    let settings = [
        NUMBER, F, SETS, WAYS, CLIENTS, PARTS, PROTOCOL, COMMANDS, RECOVERIES,
    ];
    command_with(alloc, &settings)
}

/// The task that the values of the words are.
pub(crate) fn live_task(matches: &ArgMatches<'_>) -> Option<Task>
    ensures { result ≡ live_task_by (first_value (found_of matches.now)) }
{
    match matches.get_str("command")? {
        "live" => Some(Task::Live(live_plan(matches)?)),
        _ => None,
    }
}

fn live_plan(matches: &ArgMatches<'_>) -> Option<LivePlan>
    ensures { result ≡ live_plan_by (first_value (found_of matches.now)) }
{
    Some(LivePlan {
        number: NUMBER.read(matches)?,
        f: F.read_small(matches)?,
        sets: SETS.read_small(matches)?,
        ways: WAYS.read_small(matches)?,
        clients: CLIENTS.read_small(matches)?,
        parts: PARTS.read_small(matches)?,
        protocol: read_protocol(matches)?,
        commands: COMMANDS.read_small(matches)?,
        recoveries: RECOVERIES.read_small(matches)?,
    })
}

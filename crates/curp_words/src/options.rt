ghost use Rattle.std.specs.Prelude.{◌≡◌, IfOk, false, map};
ghost use Rattle.clap.specs.Matches.{first_value, found_of};
ghost use Rattle.clap.specs.Simple.{app_of};
ghost use Rattle.clap.specs.Walk.{rule_of};
ghost use Rattle.curp_words.specs.Command.{bare_app, bare_rule, flag_rule, valued_app};
ghost use Rattle.curp_words.specs.Words.{protocol_by};

use crate::setting::Setting;
use clap::{Arg, ArgAction, ArgMatches, Command};
use curp_msg::Protocol;
use std::alloc::{AllocError, Global};

pub(crate) const NUMBER: Setting = Setting {
    name: "number",
    least: 0,
    most: u64::MAX,
    default: 1,
};

pub(crate) const F: Setting = Setting {
    name: "f",
    least: 1,
    most: 5,
    default: 3,
};

pub(crate) const SETS: Setting = Setting {
    name: "sets",
    least: 1,
    most: 1_024,
    default: 64,
};

pub(crate) const WAYS: Setting = Setting {
    name: "ways",
    least: 1,
    most: 16,
    default: 4,
};

pub(crate) const PARTS: Setting = Setting {
    name: "parts",
    least: 1,
    most: 16,
    default: 2,
};

pub(crate) const PROTOCOL: Setting = Setting {
    name: "protocol",
    least: 1,
    most: 2,
    default: 1,
};

/// The protocol that the words ask for, if what they give is the number of one.
pub(crate) fn read_protocol(matches: &ArgMatches<'_>) -> Option<Protocol>
    ensures { result ≡ protocol_by (first_value (found_of matches.now)) }
{
    let number = PROTOCOL.read(matches)?;
    Some(if number > 1 {
        Protocol::Two
    } else {
        Protocol::One
    })
}

/// A parser of one word and of these options, for words without the program's name.
pub(crate) fn command_with<'a>(
    alloc: Global,
    settings: &[Setting],
) -> Result<Command<'a>, AllocError>
    ensures { IfOk result (λ command. app_of command ≡ valued_app (map (λ setting. setting.name.now) settings.now)) }
{
    let mut command = bare_command(alloc).arg(bare(alloc, "command"))?;
    for setting in settings {
        command = command.arg(setting.arg(alloc))?;
    }
    Ok(command)
}

fn bare_command<'a>(alloc: Global) -> Command<'a>
    ensures { app_of result ≡ bare_app }
{
    Command::new(alloc, "curp")
        .no_binary_name(true)
        .disable_help_flag(true)
}

// The word that stands for itself.
fn bare<'a>(alloc: Global, name: &'a str) -> Arg<'a>
    ensures rule { rule_of result ≡ bare_rule name.now }
    ensures local { result.global ≡ false }
{
    Arg::new(alloc, name).action(ArgAction::Set)
}

/// An option without a value.
pub(crate) fn flag<'a>(alloc: Global, name: &'a str) -> Arg<'a>
    ensures rule { rule_of result ≡ flag_rule name.now }
    ensures local { result.global ≡ false }
{
    Arg::new(alloc, name).long(name).action(ArgAction::SetTrue)
}

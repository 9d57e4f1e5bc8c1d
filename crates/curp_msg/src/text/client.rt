ghost use Rattle.std.specs.Prelude.{◌++◌, ◌∷◌, [], Some, codes, flat_map};
ghost use Rattle.std.specs.Fmt.{WritesOnOk};
ghost use Rattle.curp_msg.specs.declared.body.Body.TheVariants as body;
ghost use Rattle.curp_cmd.specs.Text.{words};
ghost use Rattle.curp_msg.specs.Text.{ask_text, body_text};

use crate::{Ask, Probe, Record};
use curp_cmd::Decimal;
use std::fmt;

/// Writes a request behind the word of its kind.
pub(crate) fn write_ask<W: fmt::Write>(
    f: &mut fmt::Formatter<W>,
    word: &str,
    ask: &Ask,
) -> fmt::Result
    ensures { WritesOnOk W.write_str_gives f.old result (words (word.now ∷ ask_text ask.now ∷ [])) f.new }
{
    write!(
        f,
        "{word} {} f{} e{} v{} {}",
        ask.request.id,
        Decimal(ask.request.first as u64),
        Decimal(ask.epoch as u64),
        Decimal(ask.version as u64),
        ask.request.command
    )
}

pub(crate) fn write_record<W: fmt::Write>(
    f: &mut fmt::Formatter<W>,
    recorded: &Record,
) -> fmt::Result
    ensures { WritesOnOk W.write_str_gives f.old result (body_text (body.Record recorded.now)) f.new }
{
    write!(
        f,
        "record {} f{} e{} {}",
        recorded.request.id,
        Decimal(recorded.request.first as u64),
        Decimal(recorded.epoch as u64),
        recorded.request.command
    )
}

pub(crate) fn write_probe<W: fmt::Write>(f: &mut fmt::Formatter<W>, probe: &Probe) -> fmt::Result
    ensures { WritesOnOk W.write_str_gives f.old result (body_text (body.Probe probe.now)) f.new }
{
    write!(f, "probe {} e{}", probe.id, Decimal(probe.epoch as u64))
}

ghost use Rattle.std.specs.Prelude.{◌++◌, ◌∷◌, [], Some, codes, flat_map};
ghost use Rattle.std.specs.Fmt.{WritesOnOk};
ghost use Rattle.curp_msg.specs.declared.body.Body.TheVariants as body;
ghost use Rattle.curp_cmd.specs.Text.{words};
ghost use Rattle.curp_msg.specs.Text.{body_text, parcel_text, refusal_text};

use crate::text::lists::Ids;
use crate::{Append, Gc, Parcel, Quick, Recovered, Refusal, Refuse, Reply, Worth};
use curp_cmd::Decimal;
use std::fmt;

pub(crate) fn write_reply<W: fmt::Write>(f: &mut fmt::Formatter<W>, reply: &Reply) -> fmt::Result
    ensures { WritesOnOk W.write_str_gives f.old result (body_text (body.Reply reply.now)) f.new }
{
    let synced = if reply.synced { "synced" } else { "unsynced" };
    write!(
        f,
        "reply {} {synced} e{} v{} {}",
        reply.id,
        Decimal(reply.epoch as u64),
        Decimal(reply.version as u64),
        reply.answer
    )
}

pub(crate) fn write_worth<W: fmt::Write>(f: &mut fmt::Formatter<W>, worth: &Worth) -> fmt::Result
    ensures { WritesOnOk W.write_str_gives f.old result (body_text (body.Worth worth.now)) f.new }
{
    write!(
        f,
        "value {} e{} r{} {}",
        worth.id,
        Decimal(worth.epoch as u64),
        Decimal(worth.capture),
        worth.answer
    )
}

pub(crate) fn write_quick<W: fmt::Write>(f: &mut fmt::Formatter<W>, quick: &Quick) -> fmt::Result
    ensures { WritesOnOk W.write_str_gives f.old result (body_text (body.Quick quick.now)) f.new }
{
    write!(
        f,
        "quick {} e{} v{} r{} {}",
        quick.id,
        Decimal(quick.epoch as u64),
        Decimal(quick.version as u64),
        Decimal(quick.capture),
        quick.answer
    )
}

pub(crate) fn write_refuse<W: fmt::Write>(f: &mut fmt::Formatter<W>, refuse: &Refuse) -> fmt::Result
    ensures { WritesOnOk W.write_str_gives f.old result (body_text (body.Refuse refuse.now)) f.new }
{
    write!(f, "refuse {} {}", refuse.id, refuse.refusal)
}

impl fmt::Display for Refusal {
    ghost output = { λ refusal. Some (refusal_text refusal) };

    fn fmt<W: fmt::Write>(&self, f: &mut fmt::Formatter<W>) -> fmt::Result {
        match self {
            Refusal::Version { current } => write!(f, "version v{current}"),
            Refusal::Epoch { current } => write!(f, "epoch e{current}"),
            Refusal::NotOwner => f.write_str("not-owner"),
            Refusal::Stale { first } => write!(f, "stale f{first}"),
            Refusal::InProgress => f.write_str("in-progress"),
            Refusal::Expired => f.write_str("expired"),
            Refusal::Switching => f.write_str("switching"),
        }
    }
}

pub(crate) fn write_append<W: fmt::Write>(f: &mut fmt::Formatter<W>, append: &Append) -> fmt::Result
    ensures { WritesOnOk W.write_str_gives f.old result (body_text (body.Append append.now)) f.new }
{
    write!(
        f,
        "append e{} b{} n{} r{}",
        Decimal(append.epoch as u64),
        Decimal(append.base),
        Decimal(append.entries.len() as u64),
        Decimal(append.round)
    )
}

pub(crate) fn write_gc<W: fmt::Write>(f: &mut fmt::Formatter<W>, gc: &Gc) -> fmt::Result
    ensures { WritesOnOk W.write_str_gives f.old result (body_text (body.Gc gc.now)) f.new }
{
    write!(
        f,
        "gc e{}{}",
        Decimal(gc.epoch as u64),
        Ids(gc.ids.as_slice())
    )
}

pub(crate) fn write_recovered<W: fmt::Write>(
    f: &mut fmt::Formatter<W>,
    recovered: &Recovered,
) -> fmt::Result
    ensures { WritesOnOk W.write_str_gives f.old result (body_text (body.Recovered recovered.now)) f.new }
{
    write!(f, "recovered p{} e{}", recovered.part, recovered.epoch)
}

/// A package is shown by the numbers of its pairs and of its records.
pub(crate) fn write_parcel<W: fmt::Write>(
    f: &mut fmt::Formatter<W>,
    word: &str,
    parcel: &Parcel,
) -> fmt::Result
    ensures { WritesOnOk W.write_str_gives f.old result (words (word.now ∷ parcel_text parcel.now ∷ [])) f.new }
{
    let package = &parcel.package;
    write!(
        f,
        "{word} g{} p{} r{}",
        parcel.migration,
        package.pairs.len() as u64,
        package.table.records.len() as u64
    )
}

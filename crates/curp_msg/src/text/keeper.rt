ghost use Rattle.std.specs.Prelude.{◌++◌, ◌∷◌, [], Some, codes, flat_map};
ghost use Rattle.std.specs.Fmt.{WritesOnOk};
ghost use Rattle.curp_msg.specs.declared.body.Body.TheVariants as body;
ghost use Rattle.curp_msg.specs.Text.{body_text, rejection_text};

use crate::text::lists::Requests;
use crate::{
    Accepted, AppendAnswer, Appended, Collected, FenceAnswer, FenceReply, GcAnswer, Probed, Reason,
    Rejected,
};
use curp_cmd::Decimal;
use std::fmt;

pub(crate) fn write_appended<W: fmt::Write>(
    f: &mut fmt::Formatter<W>,
    appended: &Appended,
) -> fmt::Result
    ensures { WritesOnOk W.write_str_gives f.old result (body_text (body.Appended appended.now)) f.new }
{
    match appended.answer {
        AppendAnswer::Stored { length } => write!(
            f,
            "stored e{} l{} r{}",
            Decimal(appended.epoch as u64),
            Decimal(length),
            Decimal(appended.round)
        ),
        AppendAnswer::Fenced { epoch } => write!(f, "fenced e{}", Decimal(epoch as u64)),
        AppendAnswer::Gap { length } => write!(f, "gap l{}", Decimal(length)),
        AppendAnswer::NotInstalled => f.write_str("not-installed"),
    }
}

pub(crate) fn write_fence_answer<W: fmt::Write>(
    f: &mut fmt::Formatter<W>,
    answer: &FenceAnswer,
) -> fmt::Result
    ensures { WritesOnOk W.write_str_gives f.old result (body_text (body.FenceAnswer answer.now)) f.new }
{
    match &answer.answer {
        FenceReply::Log(entries) => write!(
            f,
            "log e{} n{}",
            Decimal(answer.epoch as u64),
            Decimal(entries.len() as u64)
        ),
        FenceReply::Fenced { epoch } => write!(f, "fenced e{}", Decimal(*epoch as u64)),
    }
}

pub(crate) fn write_accepted<W: fmt::Write>(
    f: &mut fmt::Formatter<W>,
    accepted: &Accepted,
) -> fmt::Result
    ensures { WritesOnOk W.write_str_gives f.old result (body_text (body.Accepted accepted.now)) f.new }
{
    write!(
        f,
        "accepted {} e{}",
        accepted.id,
        Decimal(accepted.epoch as u64)
    )
}

pub(crate) fn write_rejected<W: fmt::Write>(
    f: &mut fmt::Formatter<W>,
    rejected: &Rejected,
) -> fmt::Result
    ensures { WritesOnOk W.write_str_gives f.old result (body_text (body.Rejected rejected.now)) f.new }
{
    write!(f, "rejected {} {}", rejected.id, rejected.reason)
}

impl fmt::Display for Reason {
    ghost output = { λ reason. Some (rejection_text reason) };

    fn fmt<W: fmt::Write>(&self, f: &mut fmt::Formatter<W>) -> fmt::Result {
        match self {
            Reason::Conflict { held } => write!(f, "conflict {held}"),
            Reason::SetFull { set } => write!(f, "full {set}"),
            Reason::Frozen => f.write_str("frozen"),
            Reason::Stranger { epoch } => write!(f, "stranger e{epoch}"),
            Reason::Idle => f.write_str("idle"),
        }
    }
}

pub(crate) fn write_collected<W: fmt::Write>(
    f: &mut fmt::Formatter<W>,
    collected: &Collected,
) -> fmt::Result
    ensures { WritesOnOk W.write_str_gives f.old result (body_text (body.Collected collected.now)) f.new }
{
    match &collected.answer {
        GcAnswer::Suspects(requests) => write!(
            f,
            "suspects e{}{}",
            Decimal(collected.epoch as u64),
            Requests(requests.as_slice())
        ),
        GcAnswer::Stranger { epoch: None } => f.write_str("stranger"),
        GcAnswer::Stranger { epoch: Some(own) } => write!(f, "stranger e{}", Decimal(*own as u64)),
    }
}

pub(crate) fn write_probed<W: fmt::Write>(f: &mut fmt::Formatter<W>, probed: &Probed) -> fmt::Result
    ensures { WritesOnOk W.write_str_gives f.old result (body_text (body.Probed probed.now)) f.new }
{
    let live = if probed.live { "live" } else { "not-live" };
    write!(f, "{live} {} e{}", probed.id, Decimal(probed.epoch as u64))
}

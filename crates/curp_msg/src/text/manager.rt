ghost use Rattle.std.specs.Prelude.{◌++◌, ◌∷◌, [], Some, codes, flat_map};
ghost use Rattle.std.specs.Fmt.{WritesOnOk};
ghost use Rattle.curp_msg.specs.declared.body.Body.TheVariants as body;
ghost use Rattle.curp_msg.specs.Text.{body_text, part_config_text};

use crate::text::lists::{Nodes, Parts, Span, SpanList};
use crate::{Adopted, Config, PartConfig, Prepare, Recover, Start, TakeOut};
use curp_cmd::Decimal;
use std::fmt;

pub(crate) fn write_config<W: fmt::Write>(f: &mut fmt::Formatter<W>, config: &Config) -> fmt::Result
    ensures { WritesOnOk W.write_str_gives f.old result (body_text (body.Configuration config.now)) f.new }
{
    write!(
        f,
        "config s{}{}",
        Decimal(config.serial as u64),
        Parts(config.parts.as_slice())
    )
}

/// The number of the partition, its epoch, the version of its lists, its master, its backups, its witnesses and the
/// ranges that it owns.
impl fmt::Display for PartConfig {
    ghost output = { λ part. Some (part_config_text part) };

    fn fmt<W: fmt::Write>(&self, f: &mut fmt::Formatter<W>) -> fmt::Result {
        write!(
            f,
            "{}=e{},v{},{},{},{},{}",
            self.part,
            self.epoch,
            self.version,
            self.master,
            Nodes(self.backups.as_slice()),
            Nodes(self.witnesses.as_slice()),
            SpanList(self.ranges.as_slice())
        )
    }
}

pub(crate) fn write_start<W: fmt::Write>(f: &mut fmt::Formatter<W>, start: &Start) -> fmt::Result
    ensures { WritesOnOk W.write_str_gives f.old result (body_text (body.Start start.now)) f.new }
{
    write!(f, "start p{} e{}", start.part, start.epoch)
}

pub(crate) fn write_recover<W: fmt::Write>(
    f: &mut fmt::Formatter<W>,
    recover: &Recover,
) -> fmt::Result
    ensures { WritesOnOk W.write_str_gives f.old result (body_text (body.Recover recover.now)) f.new }
{
    write!(
        f,
        "recover p{} e{} v{} {} {} {} {}",
        recover.part,
        recover.epoch,
        recover.version,
        recover.backup,
        recover.witness,
        Nodes(recover.backups.as_slice()),
        Nodes(recover.witnesses.as_slice())
    )
}

pub(crate) fn write_adopted<W: fmt::Write>(
    f: &mut fmt::Formatter<W>,
    adopted: &Adopted,
) -> fmt::Result
    ensures { WritesOnOk W.write_str_gives f.old result (body_text (body.Adopted adopted.now)) f.new }
{
    write!(
        f,
        "adopted p{} e{} v{}",
        adopted.part, adopted.epoch, adopted.version
    )
}

pub(crate) fn write_prepare<W: fmt::Write>(
    f: &mut fmt::Formatter<W>,
    prepare: &Prepare,
) -> fmt::Result
    ensures { WritesOnOk W.write_str_gives f.old result (body_text (body.Prepare prepare.now)) f.new }
{
    write!(
        f,
        "prepare v{} {} {}",
        prepare.version,
        Nodes(prepare.backups.as_slice()),
        Nodes(prepare.witnesses.as_slice())
    )
}

pub(crate) fn write_take_out<W: fmt::Write>(
    f: &mut fmt::Formatter<W>,
    take: &TakeOut,
) -> fmt::Result
    ensures { WritesOnOk W.write_str_gives f.old result (body_text (body.TakeOut take.now)) f.new }
{
    write!(f, "take g{} {}", take.migration, Span((take.lo, take.hi)))
}

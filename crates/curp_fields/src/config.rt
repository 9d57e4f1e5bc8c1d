//! Configurations.
ghost use Rattle.std.specs.Prelude.{◌≡◌, ◌+◌, ◌≤◌, ◌^◌, ◌<◌, ℕ, length, [], ◌∷◌, IfOk, OnOk};
ghost use Rattle.curp_items.specs.Calls.{ReadsItem, ReadsIfMemory, WritesItem};
ghost use Rattle.curp_range.specs.Spans.{SpansAscend};
ghost use Rattle.curp_fields.specs.Fields.{IsLeast, span_from, spans};

use crate::part::{Part, read_parts, write_parts};
use curp_base::{Failed, NoMemory};
use curp_items::{Fault, Item, Reader, Writer, read_list, write_list};
use curp_msg::{Config, PartConfig};
use curp_range::{Ranges, Spans};
use std::alloc::Global;

impl Part for Config {
    ghost use Rattle.curp_fields.specs.Fields.{config_fields};
    ghost use Rattle.curp_fields.specs.Encoding.{IsConfig};

    ghost format = { config_fields };

    ghost HasEncoding = { IsConfig };

    #[tactic(auto, unfolding(crate::specs::Fields::config_fields))]
    fn write(&self, out: &mut Writer) -> Result<(), NoMemory> {
        self.serial.write(out)?;
        write_parts(self.parts.as_slice(), out)
    }

    #[tactic(auto, unfolding(crate::specs::Fields::config_fields))]
    fn read(alloc: Global, reader: &mut Reader) -> Result<Config, Failed<Fault>> {
        Ok(Config {
            serial: Item::read(reader)?,
            parts: read_parts(alloc, reader)?,
        })
    }
}

impl Part for PartConfig {
    ghost use Rattle.curp_fields.specs.Fields.{part_fields};
    ghost use Rattle.curp_fields.specs.Encoding.{IsPart};

    ghost format = { part_fields };

    ghost HasEncoding = { IsPart };

    #[tactic(auto, unfolding(crate::specs::Fields::part_fields, crate::specs::Fields::nodes))]
    fn write(&self, out: &mut Writer) -> Result<(), NoMemory> {
        self.part.write(out)?;
        self.epoch.write(out)?;
        self.version.write(out)?;
        self.master.write(out)?;
        write_list(self.backups.as_slice(), out)?;
        write_list(self.witnesses.as_slice(), out)?;
        self.ranges.write(out)
    }

    #[tactic(auto, unfolding(crate::specs::Fields::part_fields, crate::specs::Fields::nodes))]
    fn read(alloc: Global, reader: &mut Reader) -> Result<PartConfig, Failed<Fault>> {
        Ok(PartConfig {
            part: Item::read(reader)?,
            epoch: Item::read(reader)?,
            version: Item::read(reader)?,
            master: Item::read(reader)?,
            backups: read_list(alloc, reader)?,
            witnesses: read_list(alloc, reader)?,
            ranges: Part::read(alloc, reader)?,
        })
    }
}

impl Part for Spans {
    ghost use Rattle.curp_fields.specs.Encoding.{IsShort};

    ghost format = { spans };

    ghost HasEncoding = { IsShort };

    #[tactic(auto, unfolding(crate::specs::Fields::spans))]
    fn write(&self, out: &mut Writer) -> Result<(), NoMemory> {
        write_list(self.as_slice(), out)
    }

    #[tactic(auto, unfolding(crate::specs::Fields::spans))]
    fn read(alloc: Global, reader: &mut Reader) -> Result<Spans, Failed<Fault>> {
        let count = u32::read(reader)?;
        let mut ranges = no_ranges(alloc)?;
        let mut least = Some(0);
        for _ in 0..count {
            let (lo, hi) = read_span(reader, least)?;
            ranges.reserve(1)?;
            ranges.unite(lo, hi);
            least = hi.checked_add(2);
        }
        Ok(Spans::new(ranges))
    }
}

/// Reads a span whose first hash is at least this. Where there is no such hash, none may stand there.
#[tactic(auto, unfolding(crate::specs::Fields::span_from))]
fn read_span(reader: &mut Reader, least: Option<u64>) -> Result<(u64, u64), Fault>
    ensures reads { (from : ℕ) → IsLeast least from → ReadsItem result reader.new ((span_from from).read reader.old) }
    ensures behind { IfOk result (λ span. (from : ℕ) → IsLeast least from → from ≤ span.0) }
    ensures ordered { IfOk result (λ span. span.0 ≤ span.1) }
{
    let place = reader.place();
    let lo = u64::read(reader)?;
    if least.is_none_or(|least| lo < least) {
        return Err(Fault { place });
    }
    let place = reader.place();
    let hi = u64::read(reader)?;
    if hi < lo {
        return Err(Fault { place });
    }
    Ok((lo, hi))
}

/// The set that has no hash.
fn no_ranges(alloc: Global) -> Result<Ranges, NoMemory>
    ensures { IfOk result (λ ranges. ranges.spans ≡ []) }
{
    let mut ranges = Ranges::new(alloc, 0, 0)?;
    ranges.reserve(1)?;
    let _ = ranges.take_out(0, 0);
    Ok(ranges)
}

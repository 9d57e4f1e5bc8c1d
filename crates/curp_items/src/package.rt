ghost use Rattle.std.specs.Prelude.{◌≡◌, OnOk};
ghost use Rattle.curp_items.specs.Calls.{ReadsIfMemory, Skips, WritesItem};
ghost use Rattle.curp_items.specs.Items as format;
ghost use Rattle.curp_items.specs.Encoding.{HasTableEncoding, HasPackageEncoding};

use crate::ascending::{read_keys, read_pairs, skip_keys, skip_pairs};
use crate::list::write_list;
use crate::{Bounds, Fault, Item, Reader, Writer};
use curp_base::{Failed, NoMemory};
use curp_cmd::{Answer, Key, Package, RequestId, TablePart, Value};
use std::alloc::Global;

#[tactic(auto, unfolding(crate::specs::Items::table, crate::specs::Items::records, crate::specs::Items::firsts, crate::specs::Items::gone))]
fn write_table(table: &TablePart, out: &mut Writer) -> Result<(), NoMemory>
    requires { HasTableEncoding table.now }
    ensures writes { WritesItem out.old out.new result (format.table.of table.now) }
    ensures fits { OnOk result (format.table.Fits table.now) }
{
    write_list(table.records.as_slice(), out)?;
    write_list(table.firsts.as_slice(), out)?;
    write_list(table.gone.as_slice(), out)?;
    Ok(())
}

#[tactic(auto, unfolding(crate::specs::Items::table, crate::specs::Items::records, crate::specs::Items::firsts, crate::specs::Items::gone))]
fn read_table(alloc: Global, reader: &mut Reader) -> Result<TablePart, Failed<Fault>>
    ensures { ReadsIfMemory result reader.new (format.table.read reader.old) }
{
    let records = read_pairs(alloc, reader)?;
    let firsts = read_pairs(alloc, reader)?;
    let gone = read_keys(alloc, reader)?;
    Ok(TablePart {
        records,
        firsts,
        gone,
    })
}

#[tactic(auto, unfolding(crate::specs::Items::table, crate::specs::Items::records, crate::specs::Items::firsts, crate::specs::Items::gone))]
fn skip_table(reader: &mut Reader) -> Result<(), Fault>
    ensures { Skips result reader.new (format.table.read reader.old) }
{
    skip_pairs::<RequestId, Answer>(reader)?;
    skip_pairs::<u32, u32>(reader)?;
    skip_keys::<u32>(reader)
}

/// Writes a package's encoding.
#[tactic(auto, unfolding(crate::specs::Items::package_format, crate::specs::Items::bounds, crate::specs::Items::pairs))]
pub fn write_package(moved: &Package, out: &mut Writer) -> Result<(), NoMemory>
    requires { HasPackageEncoding moved.now }
    ensures writes { WritesItem out.old out.new result (format.package_format.of moved.now) }
    ensures fits { OnOk result (format.package_format.Fits moved.now) }
{
    Bounds {
        lo: moved.lo,
        hi: moved.hi,
    }
    .write(out)?;
    write_list(moved.pairs.as_slice(), out)?;
    write_table(&moved.table, out)?;
    Ok(())
}

/// Reads a package from the prefix.
#[tactic(auto, unfolding(crate::specs::Items::package_format, crate::specs::Items::pairs))]
pub fn read_package(alloc: Global, reader: &mut Reader) -> Result<Package, Failed<Fault>>
    ensures { ReadsIfMemory result reader.new (format.package_format.read reader.old) }
{
    let bounds = Bounds::read(reader)?;
    let pairs = read_pairs(alloc, reader)?;
    let table = read_table(alloc, reader)?;
    Ok(Package {
        lo: bounds.lo,
        hi: bounds.hi,
        pairs,
        table,
    })
}

#[tactic(auto, unfolding(crate::specs::Items::package_format, crate::specs::Items::pairs))]
pub(crate) fn skip_package(reader: &mut Reader) -> Result<(), Fault>
    ensures { Skips result reader.new (format.package_format.read reader.old) }
{
    Bounds::read(reader)?;
    skip_pairs::<Key, Value>(reader)?;
    skip_table(reader)?;
    Ok(())
}

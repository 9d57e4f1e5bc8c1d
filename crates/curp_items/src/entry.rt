ghost use Rattle.std.specs.Prelude.{◌≡◌, OnOk};
ghost use Rattle.curp_items.specs.Calls.{ReadsIfMemory, Skips, WritesItem};
ghost use Rattle.curp_items.specs.Format.{optional};
ghost use Rattle.curp_items.specs.Items as format;
ghost use Rattle.curp_items.specs.Encoding.{HasEncoding};

use crate::package::{read_package, skip_package, write_package};
use crate::{Fault, Item, Reader, Writer};
use curp_base::{Failed, NoMemory, Shared};
use curp_cmd::{Entry, Pairs, Request, RequestId};
use std::alloc::Global;

/// Writes an entry's encoding.
#[tactic(auto, unfolding(crate::specs::Items::entry))]
pub fn write_entry(entry: &Entry, out: &mut Writer) -> Result<(), NoMemory>
    requires { HasEncoding entry.now }
    ensures writes { WritesItem out.old out.new result (format.entry.of entry.now) }
    ensures fits { OnOk result (format.entry.Fits entry.now) }
{
    match entry {
        Entry::Op {
            request,
            acknowledge,
        } => {
            out.byte(1)?;
            request.write(out)?;
            acknowledge.write(out)
        }
        Entry::Take { migration, package } => {
            out.byte(2)?;
            migration.write(out)?;
            write_package(package, out)
        }
        Entry::Give { migration, package } => {
            out.byte(3)?;
            migration.write(out)?;
            write_package(package, out)
        }
        Entry::Expire { client } => {
            out.byte(4)?;
            client.write(out)
        }
    }
}

/// Reads an entry from the prefix.
#[tactic(auto, unfolding(crate::specs::Items::entry))]
pub fn read_entry_at(alloc: Global, reader: &mut Reader) -> Result<Entry, Failed<Fault>>
    ensures { ReadsIfMemory result reader.new (format.entry.read reader.old) }
{
    let place = reader.place();
    match reader.byte()? {
        1 => Ok(Entry::Op {
            request: Shared::new(alloc, Request::read(reader)?)?,
            acknowledge: Item::read(reader)?,
        }),
        2 => Ok(Entry::Take {
            migration: Item::read(reader)?,
            package: Shared::new(alloc, read_package(alloc, reader)?)?,
        }),
        3 => Ok(Entry::Give {
            migration: Item::read(reader)?,
            package: Shared::new(alloc, read_package(alloc, reader)?)?,
        }),
        4 => Ok(Entry::Expire {
            client: Item::read(reader)?,
        }),
        _ => Err(Failed::Because(Fault { place })),
    }
}

/// Reads past an entry. It takes no memory.
#[tactic(auto, unfolding(crate::specs::Items::entry))]
pub(crate) fn skip_entry(reader: &mut Reader) -> Result<(), Fault>
    ensures { Skips result reader.new (format.entry.read reader.old) }
{
    let place = reader.place();
    match reader.byte()? {
        1 => {
            skip_request(reader)?;
            skip::<u32>(reader)
        }
        2 | 3 => {
            skip::<u32>(reader)?;
            skip_package(reader)
        }
        4 => skip::<u32>(reader),
        _ => Err(Fault { place }),
    }
}

/// Reads past a request. It copies nothing but the pairs of a multi-put.
#[tactic(auto, unfolding(crate::specs::Items::request))]
fn skip_request(reader: &mut Reader) -> Result<(), Fault>
    ensures { Skips result reader.new (format.request.read reader.old) }
{
    skip::<RequestId>(reader)?;
    skip::<u32>(reader)?;
    skip_command(reader)
}

#[tactic(auto, unfolding(crate::specs::Items::command))]
fn skip_command(reader: &mut Reader) -> Result<(), Fault>
    ensures { Skips result reader.new (format.command.read reader.old) }
{
    let place = reader.place();
    match reader.byte()? {
        1 | 3 | 4 => skip_key(reader),
        2 | 5 => {
            skip_key(reader)?;
            skip_value(reader)
        }
        6 => {
            skip_key(reader)?;
            skip_expected(reader)?;
            skip_value(reader)
        }
        7 => skip::<Pairs>(reader),
        _ => Err(Fault { place }),
    }
}

#[tactic(auto, unfolding(crate::specs::Items::key))]
fn skip_key(reader: &mut Reader) -> Result<(), Fault>
    ensures { Skips result reader.new (format.key.read reader.old) }
{
    let place = reader.place();
    match reader.string()?.len() {
        1..=32 => Ok(()),
        _ => Err(Fault { place }),
    }
}

#[tactic(auto, unfolding(crate::specs::Items::value))]
fn skip_value(reader: &mut Reader) -> Result<(), Fault>
    ensures { Skips result reader.new (format.value.read reader.old) }
{
    let place = reader.place();
    match reader.string()?.len() {
        0..=128 => Ok(()),
        _ => Err(Fault { place }),
    }
}

/// Reads past a value that is expected, or its absence.
fn skip_expected(reader: &mut Reader) -> Result<(), Fault>
    ensures { Skips result reader.new ((optional format.value).read reader.old) }
{
    let place = reader.place();
    match reader.byte()? {
        0 => Ok(()),
        1 => skip_value(reader),
        _ => Err(Fault { place }),
    }
}

/// Reads past an item.
fn skip<T: Item>(reader: &mut Reader) -> Result<(), Fault>
    ensures { Skips result reader.new (T.format.read reader.old) }
{
    T::read(reader)?;
    Ok(())
}

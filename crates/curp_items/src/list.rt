ghost use Rattle.std.specs.Prelude.{◌<◌, ◌^◌, length, OnOk};
ghost use Rattle.std.specs.List.{flat_map};
ghost use Rattle.curp_base.specs.Words.{Each};
ghost use Rattle.curp_items.specs.Calls.{ReadsIfMemory, WritesItem};
ghost use Rattle.curp_items.specs.Format.{list_of};
ghost use Rattle.curp_items.specs.Items.{u32};

use crate::{Fault, Item, Reader, Writer};
use curp_base::{Failed, Items, NoMemory};
use std::alloc::Global;

/// Writes the encodings of items, one behind the other.
pub(crate) fn write_each<T: Item>(items: &[T], out: &mut Writer) -> Result<(), NoMemory>
    requires { Each T.HasEncoding items.now }
    ensures writes { WritesItem out.old out.new result (flat_map T.format.of items.now) }
    ensures fits { OnOk result (Each T.format.Fits items.now) }
{
    for item in items {
        item.write(out)?;
    }
    Ok(())
}

/// Writes how many items there are, and they.
pub fn write_list<T: Item>(items: &[T], out: &mut Writer) -> Result<(), NoMemory>
    requires short { length items.now < 2 ^ 32 }
    requires encoded { Each T.HasEncoding items.now }
    ensures writes { WritesItem out.old out.new result ((list_of u32 T.format).of items.now) }
    ensures fits { OnOk result ((list_of u32 T.format).Fits items.now) }
{
    (items.len() as u32).write(out)?;
    write_each(items, out)
}

/// Reads how many items there are, and they.
pub fn read_list<T: Item>(alloc: Global, reader: &mut Reader) -> Result<Items<T>, Failed<Fault>>
    ensures { ReadsIfMemory result reader.new ((list_of u32 T.format).read reader.old) }
{
    let count = u32::read(reader)?;
    let mut items = Vec::new(alloc);
    for _ in 0..count {
        items.push(T::read(reader)?)?;
    }
    Ok(Items::new(items))
}

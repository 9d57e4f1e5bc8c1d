ghost use Rattle.std.specs.Prelude.{◌<◌, ◌^◌, length, OnOk, ⊤};
ghost use Rattle.std.specs.List.{flat_map};
ghost use Rattle.curp_base.specs.Words.{Each};
ghost use Rattle.curp_items.specs.Calls.{ReadsIfMemory, WritesItem};
ghost use Rattle.curp_items.specs.Format.{list_of};
ghost use Rattle.curp_items.specs.Items.{u32};

use curp_base::{Boxed, Failed, Items, NoMemory, Shared};
use curp_cmd::{Entry, Request};
use curp_items::{Fault, Item, Reader, Writer, read_entry_at, write_entry};
use std::alloc::Global;

/// A part of a message that has a binary format. Reading it may take memory.
pub trait Part: Sized {
    ghost use Rattle.curp_items.specs.Format.{Format};

    /// How it is encoded and read.
    ghost format: { Format Self };

    /// Which values of the type have an encoding.
    ghost HasEncoding: { Self → Type 0 };

    /// Writes the part's encoding.
    fn write(&self, out: &mut Writer) -> Result<(), NoMemory>
        requires { HasEncoding self.now }
        ensures writes { WritesItem out.old out.new result (format.of self.now) }
        ensures fits { OnOk result (format.Fits self.now) };

    /// Reads a part from the prefix.
    fn read(alloc: Global, reader: &mut Reader) -> Result<Self, Failed<Fault>>
        ensures { ReadsIfMemory result reader.new (format.read reader.old) };
}

impl<T: Part + Drop> Part for Boxed<T> {
    ghost format = { T.format };

    ghost HasEncoding = { T.HasEncoding };

    fn write(&self, out: &mut Writer) -> Result<(), NoMemory> {
        self.get().write(out)
    }

    fn read(alloc: Global, reader: &mut Reader) -> Result<Boxed<T>, Failed<Fault>> {
        let part = T::read(alloc, reader)?;
        Ok(Boxed::new(alloc, part)?)
    }
}

impl Part for Shared<Request> {
    ghost use Rattle.curp_items.specs.Items.{request};

    ghost format = { request };

    ghost HasEncoding = { λ _. ⊤ };

    fn write(&self, out: &mut Writer) -> Result<(), NoMemory> {
        Item::write(&**self, out)
    }

    fn read(alloc: Global, reader: &mut Reader) -> Result<Shared<Request>, Failed<Fault>> {
        let request = Request::read(reader)?;
        Ok(Shared::new(alloc, request)?)
    }
}

impl Part for Entry {
    ghost use Rattle.curp_items.specs.Items.{entry};
    ghost use Rattle.curp_items.specs.Encoding.{HasEncoding};

    ghost format = { entry };

    ghost HasEncoding = { HasEncoding };

    fn write(&self, out: &mut Writer) -> Result<(), NoMemory> {
        write_entry(self, out)
    }

    fn read(alloc: Global, reader: &mut Reader) -> Result<Entry, Failed<Fault>> {
        read_entry_at(alloc, reader)
    }
}

/// Writes how many parts there are, and they.
pub fn write_parts<T: Part>(parts: &[T], out: &mut Writer) -> Result<(), NoMemory>
    requires short { length parts.now < 2 ^ 32 }
    requires encoded { Each T.HasEncoding parts.now }
    ensures writes { WritesItem out.old out.new result ((list_of u32 T.format).of parts.now) }
    ensures fits { OnOk result ((list_of u32 T.format).Fits parts.now) }
{
    (parts.len() as u32).write(out)?;
    for part in parts {
        part.write(out)?;
    }
    Ok(())
}

/// Reads how many parts there are, and they.
pub fn read_parts<T: Part + Drop>(
    alloc: Global,
    reader: &mut Reader,
) -> Result<Items<T>, Failed<Fault>>
    ensures { ReadsIfMemory result reader.new ((list_of u32 T.format).read reader.old) }
{
    let count = u32::read(reader)?;
    let mut parts = Vec::new(alloc);
    for _ in 0..count {
        let part = T::read(alloc, reader)?;
        parts.push(part)?;
    }
    Ok(Items::new(parts))
}

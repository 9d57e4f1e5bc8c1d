ghost use Rattle.std.specs.Prelude.{◌≡◌, IfSome, OnOk, ⊤};

use crate::{Fault, Reader, Writer};
use curp_base::NoMemory;

/// A value that has a binary format, and is read without memory.
pub trait Item: Copy {
    ghost use Rattle.curp_items.specs.Format.{Format};
    ghost use Rattle.curp_items.specs.Calls.{ReadsItem, WritesItem};

    /// How it is encoded and read.
    ghost format: { Format Self };

    /// Which values of the type have an encoding.
    ghost HasEncoding: { Self → Type 0 };

    /// Writes the value's encoding.
    fn write(&self, out: &mut Writer) -> Result<(), NoMemory>
        requires { HasEncoding self.now }
        ensures writes { WritesItem out.old out.new result (format.of self.now) }
        ensures fits { OnOk result (format.Fits self.now) };

    /// Reads a value from the prefix.
    fn read(reader: &mut Reader) -> Result<Self, Fault>
        ensures { ReadsItem result reader.new (format.read reader.old) };
}

impl Item for u32 {
    ghost use Rattle.curp_items.specs.Items.{u32};

    ghost format = { u32 };

    ghost HasEncoding = { λ _. ⊤ };

    #[tactic(auto, unfolding(crate::specs::Items::u32))]
    fn write(&self, out: &mut Writer) -> Result<(), NoMemory> {
        out.bytes(&self.to_be_bytes())
    }

    #[tactic(auto, unfolding(crate::specs::Items::u32))]
    fn read(reader: &mut Reader) -> Result<u32, Fault> {
        Ok(u32::from_be_bytes(reader.take()?))
    }
}

impl Item for u64 {
    ghost use Rattle.curp_items.specs.Items.{u64};

    ghost format = { u64 };

    ghost HasEncoding = { λ _. ⊤ };

    #[tactic(auto, unfolding(crate::specs::Items::u64))]
    fn write(&self, out: &mut Writer) -> Result<(), NoMemory> {
        out.bytes(&self.to_be_bytes())
    }

    #[tactic(auto, unfolding(crate::specs::Items::u64))]
    fn read(reader: &mut Reader) -> Result<u64, Fault> {
        Ok(u64::from_be_bytes(reader.take()?))
    }
}

impl Item for bool {
    ghost use Rattle.curp_items.specs.Items.{truth};

    ghost format = { truth };

    ghost HasEncoding = { λ _. ⊤ };

    #[tactic(auto, unfolding(crate::specs::Items::truth))]
    fn write(&self, out: &mut Writer) -> Result<(), NoMemory> {
        match self {
            false => out.byte(0),
            true => out.byte(1),
        }
    }

    #[tactic(auto, unfolding(crate::specs::Items::truth))]
    fn read(reader: &mut Reader) -> Result<bool, Fault> {
        let place = reader.place();
        match reader.byte()? {
            0 => Ok(false),
            1 => Ok(true),
            _ => Err(Fault { place }),
        }
    }
}

impl<T: Item> Item for Option<T> {
    ghost use Rattle.curp_items.specs.Format.{optional};

    ghost format = { optional T.format };

    ghost HasEncoding = { λ item. IfSome item T.HasEncoding };

    fn write(&self, out: &mut Writer) -> Result<(), NoMemory> {
        match self {
            None => out.byte(0),
            Some(item) => {
                out.byte(1)?;
                item.write(out)
            }
        }
    }

    fn read(reader: &mut Reader) -> Result<Option<T>, Fault> {
        let place = reader.place();
        match reader.byte()? {
            0 => Ok(None),
            1 => Ok(Some(T::read(reader)?)),
            _ => Err(Fault { place }),
        }
    }
}

impl<A: Item, B: Item> Item for (A, B) {
    ghost use Rattle.curp_items.specs.Format.{◌▸◌};

    ghost format = { A.format ▸ B.format };

    ghost HasEncoding = { λ items. A.HasEncoding items.0 × B.HasEncoding items.1 };

    fn write(&self, out: &mut Writer) -> Result<(), NoMemory> {
        self.0.write(out)?;
        self.1.write(out)
    }

    fn read(reader: &mut Reader) -> Result<(A, B), Fault> {
        let first = A::read(reader)?;
        let second = B::read(reader)?;
        Ok((first, second))
    }
}

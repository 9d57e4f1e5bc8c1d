//! What masters give backups and witnesses, and what these answer.
ghost use Rattle.std.specs.Prelude.{⊤};

use crate::part::{Part, read_parts, write_parts};
use curp_base::{Failed, NoMemory};
use curp_items::{Fault, Item, Reader, Writer, read_list, write_list};
use curp_msg::{Append, Appended, Collected, FenceAnswer, Gc};
use std::alloc::Global;

impl Part for Append {
    ghost use Rattle.curp_fields.specs.Fields.{append_fields};
    ghost use Rattle.curp_fields.specs.Encoding.{AreEntries};

    ghost format = { append_fields };

    ghost HasEncoding = { λ append. AreEntries append.entries };

    #[tactic(auto, unfolding(crate::specs::Fields::append_fields, crate::specs::Fields::entries))]
    fn write(&self, out: &mut Writer) -> Result<(), NoMemory> {
        self.epoch.write(out)?;
        self.base.write(out)?;
        self.round.write(out)?;
        write_parts(self.entries.as_slice(), out)
    }

    #[tactic(auto, unfolding(crate::specs::Fields::append_fields, crate::specs::Fields::entries))]
    fn read(alloc: Global, reader: &mut Reader) -> Result<Append, Failed<Fault>> {
        Ok(Append {
            epoch: Item::read(reader)?,
            base: Item::read(reader)?,
            round: Item::read(reader)?,
            entries: read_parts(alloc, reader)?,
        })
    }
}

impl Part for Appended {
    ghost use Rattle.curp_fields.specs.Fields.{appended_fields};

    ghost format = { appended_fields };

    ghost HasEncoding = { λ _. ⊤ };

    #[tactic(auto, unfolding(crate::specs::Fields::appended_fields))]
    fn write(&self, out: &mut Writer) -> Result<(), NoMemory> {
        self.epoch.write(out)?;
        self.round.write(out)?;
        self.answer.write(out)
    }

    #[tactic(auto, unfolding(crate::specs::Fields::appended_fields))]
    fn read(alloc: Global, reader: &mut Reader) -> Result<Appended, Failed<Fault>> {
        Ok(Appended {
            epoch: Item::read(reader)?,
            round: Item::read(reader)?,
            answer: Part::read(alloc, reader)?,
        })
    }
}

impl Part for Gc {
    ghost use Rattle.curp_fields.specs.Fields.{gc_fields};
    ghost use Rattle.curp_fields.specs.Encoding.{IsShort};

    ghost format = { gc_fields };

    ghost HasEncoding = { λ gc. IsShort gc.ids };

    #[tactic(auto, unfolding(crate::specs::Fields::gc_fields, crate::specs::Fields::ids))]
    fn write(&self, out: &mut Writer) -> Result<(), NoMemory> {
        self.epoch.write(out)?;
        write_list(self.ids.as_slice(), out)
    }

    #[tactic(auto, unfolding(crate::specs::Fields::gc_fields, crate::specs::Fields::ids))]
    fn read(alloc: Global, reader: &mut Reader) -> Result<Gc, Failed<Fault>> {
        Ok(Gc {
            epoch: Item::read(reader)?,
            ids: read_list(alloc, reader)?,
        })
    }
}

impl Part for Collected {
    ghost use Rattle.curp_fields.specs.Fields.{collected_fields};
    ghost use Rattle.curp_fields.specs.Encoding.{IsCollection};

    ghost format = { collected_fields };

    ghost HasEncoding = { λ collected. IsCollection collected.answer };

    #[tactic(auto, unfolding(crate::specs::Fields::collected_fields))]
    fn write(&self, out: &mut Writer) -> Result<(), NoMemory> {
        self.epoch.write(out)?;
        self.answer.write(out)
    }

    #[tactic(auto, unfolding(crate::specs::Fields::collected_fields))]
    fn read(alloc: Global, reader: &mut Reader) -> Result<Collected, Failed<Fault>> {
        Ok(Collected {
            epoch: Item::read(reader)?,
            answer: Part::read(alloc, reader)?,
        })
    }
}

impl Part for FenceAnswer {
    ghost use Rattle.curp_fields.specs.Fields.{fence_answer_fields};
    ghost use Rattle.curp_fields.specs.Encoding.{IsFenceReply};

    ghost format = { fence_answer_fields };

    ghost HasEncoding = { λ fenced. IsFenceReply fenced.answer };

    #[tactic(auto, unfolding(crate::specs::Fields::fence_answer_fields))]
    fn write(&self, out: &mut Writer) -> Result<(), NoMemory> {
        self.epoch.write(out)?;
        self.answer.write(out)
    }

    #[tactic(auto, unfolding(crate::specs::Fields::fence_answer_fields))]
    fn read(alloc: Global, reader: &mut Reader) -> Result<FenceAnswer, Failed<Fault>> {
        Ok(FenceAnswer {
            epoch: Item::read(reader)?,
            answer: Part::read(alloc, reader)?,
        })
    }
}

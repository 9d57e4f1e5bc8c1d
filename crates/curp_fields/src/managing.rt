//! What the manager tells the other nodes, and what these tell it.
ghost use Rattle.std.specs.Prelude.{⊤};

use crate::part::Part;
use curp_base::{Failed, NoMemory, Shared};
use curp_items::{
    Bounds, Fault, Item, Reader, Writer, read_list, read_package, write_list, write_package,
};
use curp_msg::{Adopted, Parcel, Prepare, Recover, Recovered, Start, TakeOut};
use std::alloc::Global;

impl Part for Start {
    ghost use Rattle.curp_fields.specs.Fields.{start_fields};

    ghost format = { start_fields };

    ghost HasEncoding = { λ _. ⊤ };

    #[tactic(auto, unfolding(crate::specs::Fields::start_fields))]
    fn write(&self, out: &mut Writer) -> Result<(), NoMemory> {
        self.part.write(out)?;
        self.epoch.write(out)
    }

    #[tactic(auto, unfolding(crate::specs::Fields::start_fields))]
    fn read(_alloc: Global, reader: &mut Reader) -> Result<Start, Failed<Fault>> {
        Ok(Start {
            part: Item::read(reader)?,
            epoch: Item::read(reader)?,
        })
    }
}

impl Part for Recovered {
    ghost use Rattle.curp_fields.specs.Fields.{recovered_fields};

    ghost format = { recovered_fields };

    ghost HasEncoding = { λ _. ⊤ };

    #[tactic(auto, unfolding(crate::specs::Fields::recovered_fields))]
    fn write(&self, out: &mut Writer) -> Result<(), NoMemory> {
        self.part.write(out)?;
        self.epoch.write(out)
    }

    #[tactic(auto, unfolding(crate::specs::Fields::recovered_fields))]
    fn read(_alloc: Global, reader: &mut Reader) -> Result<Recovered, Failed<Fault>> {
        Ok(Recovered {
            part: Item::read(reader)?,
            epoch: Item::read(reader)?,
        })
    }
}

impl Part for Adopted {
    ghost use Rattle.curp_fields.specs.Fields.{adopted_fields};

    ghost format = { adopted_fields };

    ghost HasEncoding = { λ _. ⊤ };

    #[tactic(auto, unfolding(crate::specs::Fields::adopted_fields))]
    fn write(&self, out: &mut Writer) -> Result<(), NoMemory> {
        self.part.write(out)?;
        self.epoch.write(out)?;
        self.version.write(out)
    }

    #[tactic(auto, unfolding(crate::specs::Fields::adopted_fields))]
    fn read(_alloc: Global, reader: &mut Reader) -> Result<Adopted, Failed<Fault>> {
        Ok(Adopted {
            part: Item::read(reader)?,
            epoch: Item::read(reader)?,
            version: Item::read(reader)?,
        })
    }
}

impl Part for Recover {
    ghost use Rattle.curp_fields.specs.Fields.{recover_fields};
    ghost use Rattle.curp_fields.specs.Encoding.{IsRecover};

    ghost format = { recover_fields };

    ghost HasEncoding = { IsRecover };

    #[tactic(auto, unfolding(crate::specs::Fields::recover_fields, crate::specs::Fields::nodes, curp_items::specs::Items::bounds))]
    fn write(&self, out: &mut Writer) -> Result<(), NoMemory> {
        self.part.write(out)?;
        self.epoch.write(out)?;
        self.version.write(out)?;
        self.backup.write(out)?;
        self.witness.write(out)?;
        write_list(self.backups.as_slice(), out)?;
        write_list(self.witnesses.as_slice(), out)?;
        Bounds {
            lo: self.lo,
            hi: self.hi,
        }
        .write(out)
    }

    #[tactic(auto, unfolding(crate::specs::Fields::recover_fields, crate::specs::Fields::nodes))]
    fn read(alloc: Global, reader: &mut Reader) -> Result<Recover, Failed<Fault>> {
        let part = u32::read(reader)?;
        let epoch = u32::read(reader)?;
        let version = u32::read(reader)?;
        let backup = Item::read(reader)?;
        let witness = Item::read(reader)?;
        let backups = read_list(alloc, reader)?;
        let witnesses = read_list(alloc, reader)?;
        let bounds = Bounds::read(reader)?;
        Ok(Recover {
            part,
            epoch,
            version,
            backup,
            witness,
            backups,
            witnesses,
            lo: bounds.lo,
            hi: bounds.hi,
        })
    }
}

impl Part for Prepare {
    ghost use Rattle.curp_fields.specs.Fields.{prepare_fields};
    ghost use Rattle.curp_fields.specs.Encoding.{IsPrepare};

    ghost format = { prepare_fields };

    ghost HasEncoding = { IsPrepare };

    #[tactic(auto, unfolding(crate::specs::Fields::prepare_fields, crate::specs::Fields::nodes))]
    fn write(&self, out: &mut Writer) -> Result<(), NoMemory> {
        self.version.write(out)?;
        write_list(self.backups.as_slice(), out)?;
        write_list(self.witnesses.as_slice(), out)
    }

    #[tactic(auto, unfolding(crate::specs::Fields::prepare_fields, crate::specs::Fields::nodes))]
    fn read(alloc: Global, reader: &mut Reader) -> Result<Prepare, Failed<Fault>> {
        Ok(Prepare {
            version: Item::read(reader)?,
            backups: read_list(alloc, reader)?,
            witnesses: read_list(alloc, reader)?,
        })
    }
}

impl Part for TakeOut {
    ghost use Rattle.curp_fields.specs.Fields.{take_out_fields};

    ghost format = { take_out_fields };

    ghost HasEncoding = { λ _. ⊤ };

    #[tactic(auto, unfolding(crate::specs::Fields::take_out_fields, curp_items::specs::Items::bounds))]
    fn write(&self, out: &mut Writer) -> Result<(), NoMemory> {
        self.migration.write(out)?;
        Bounds {
            lo: self.lo,
            hi: self.hi,
        }
        .write(out)
    }

    #[tactic(auto, unfolding(crate::specs::Fields::take_out_fields))]
    fn read(_alloc: Global, reader: &mut Reader) -> Result<TakeOut, Failed<Fault>> {
        let migration = u32::read(reader)?;
        let bounds = Bounds::read(reader)?;
        Ok(TakeOut {
            migration,
            lo: bounds.lo,
            hi: bounds.hi,
        })
    }
}

impl Part for Parcel {
    ghost use Rattle.curp_items.specs.Encoding.{HasPackageEncoding};
    ghost use Rattle.curp_fields.specs.Fields.{parcel_fields};

    ghost format = { parcel_fields };

    ghost HasEncoding = { λ parcel. HasPackageEncoding parcel.package };

    #[tactic(auto, unfolding(crate::specs::Fields::parcel_fields))]
    fn write(&self, out: &mut Writer) -> Result<(), NoMemory> {
        self.migration.write(out)?;
        write_package(&self.package, out)
    }

    #[tactic(auto, unfolding(crate::specs::Fields::parcel_fields))]
    fn read(alloc: Global, reader: &mut Reader) -> Result<Parcel, Failed<Fault>> {
        Ok(Parcel {
            migration: Item::read(reader)?,
            package: Shared::new(alloc, read_package(alloc, reader)?)?,
        })
    }
}

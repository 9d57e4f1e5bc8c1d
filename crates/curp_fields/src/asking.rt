//! What clients ask masters and witnesses, and what these answer.
ghost use Rattle.std.specs.Prelude.{⊤};

use crate::part::Part;
use curp_base::{Failed, NoMemory};
use curp_items::{Fault, Item, Reader, Writer};
use curp_msg::{Accepted, Ask, Probe, Probed, Quick, Record, Refuse, Rejected, Reply, Worth};
use std::alloc::Global;

impl Part for Ask {
    ghost use Rattle.curp_fields.specs.Fields.{ask_fields};

    ghost format = { ask_fields };

    ghost HasEncoding = { λ _. ⊤ };

    #[tactic(auto, unfolding(crate::specs::Fields::ask_fields))]
    fn write(&self, out: &mut Writer) -> Result<(), NoMemory> {
        self.request.write(out)?;
        self.epoch.write(out)?;
        self.version.write(out)
    }

    #[tactic(auto, unfolding(crate::specs::Fields::ask_fields))]
    fn read(alloc: Global, reader: &mut Reader) -> Result<Ask, Failed<Fault>> {
        Ok(Ask {
            request: Part::read(alloc, reader)?,
            epoch: Item::read(reader)?,
            version: Item::read(reader)?,
        })
    }
}

impl Part for Record {
    ghost use Rattle.curp_fields.specs.Fields.{record_fields};

    ghost format = { record_fields };

    ghost HasEncoding = { λ _. ⊤ };

    #[tactic(auto, unfolding(crate::specs::Fields::record_fields))]
    fn write(&self, out: &mut Writer) -> Result<(), NoMemory> {
        self.request.write(out)?;
        self.epoch.write(out)
    }

    #[tactic(auto, unfolding(crate::specs::Fields::record_fields))]
    fn read(alloc: Global, reader: &mut Reader) -> Result<Record, Failed<Fault>> {
        Ok(Record {
            request: Part::read(alloc, reader)?,
            epoch: Item::read(reader)?,
        })
    }
}

impl Part for Reply {
    ghost use Rattle.curp_fields.specs.Fields.{reply_fields};

    ghost format = { reply_fields };

    ghost HasEncoding = { λ _. ⊤ };

    #[tactic(auto, unfolding(crate::specs::Fields::reply_fields))]
    fn write(&self, out: &mut Writer) -> Result<(), NoMemory> {
        self.id.write(out)?;
        self.synced.write(out)?;
        self.epoch.write(out)?;
        self.version.write(out)?;
        self.answer.write(out)
    }

    #[tactic(auto, unfolding(crate::specs::Fields::reply_fields))]
    fn read(_alloc: Global, reader: &mut Reader) -> Result<Reply, Failed<Fault>> {
        Ok(Reply {
            id: Item::read(reader)?,
            synced: Item::read(reader)?,
            epoch: Item::read(reader)?,
            version: Item::read(reader)?,
            answer: Item::read(reader)?,
        })
    }
}

impl Part for Worth {
    ghost use Rattle.curp_fields.specs.Fields.{worth_fields};

    ghost format = { worth_fields };

    ghost HasEncoding = { λ _. ⊤ };

    #[tactic(auto, unfolding(crate::specs::Fields::worth_fields))]
    fn write(&self, out: &mut Writer) -> Result<(), NoMemory> {
        self.id.write(out)?;
        self.epoch.write(out)?;
        self.capture.write(out)?;
        self.answer.write(out)
    }

    #[tactic(auto, unfolding(crate::specs::Fields::worth_fields))]
    fn read(_alloc: Global, reader: &mut Reader) -> Result<Worth, Failed<Fault>> {
        Ok(Worth {
            id: Item::read(reader)?,
            epoch: Item::read(reader)?,
            capture: Item::read(reader)?,
            answer: Item::read(reader)?,
        })
    }
}

impl Part for Refuse {
    ghost use Rattle.curp_fields.specs.Fields.{refuse_fields};

    ghost format = { refuse_fields };

    ghost HasEncoding = { λ _. ⊤ };

    #[tactic(auto, unfolding(crate::specs::Fields::refuse_fields))]
    fn write(&self, out: &mut Writer) -> Result<(), NoMemory> {
        self.id.write(out)?;
        self.refusal.write(out)
    }

    #[tactic(auto, unfolding(crate::specs::Fields::refuse_fields))]
    fn read(alloc: Global, reader: &mut Reader) -> Result<Refuse, Failed<Fault>> {
        Ok(Refuse {
            id: Item::read(reader)?,
            refusal: Part::read(alloc, reader)?,
        })
    }
}

impl Part for Accepted {
    ghost use Rattle.curp_fields.specs.Fields.{accepted_fields};

    ghost format = { accepted_fields };

    ghost HasEncoding = { λ _. ⊤ };

    #[tactic(auto, unfolding(crate::specs::Fields::accepted_fields))]
    fn write(&self, out: &mut Writer) -> Result<(), NoMemory> {
        self.id.write(out)?;
        self.epoch.write(out)
    }

    #[tactic(auto, unfolding(crate::specs::Fields::accepted_fields))]
    fn read(_alloc: Global, reader: &mut Reader) -> Result<Accepted, Failed<Fault>> {
        Ok(Accepted {
            id: Item::read(reader)?,
            epoch: Item::read(reader)?,
        })
    }
}

impl Part for Rejected {
    ghost use Rattle.curp_fields.specs.Fields.{rejected_fields};

    ghost format = { rejected_fields };

    ghost HasEncoding = { λ _. ⊤ };

    #[tactic(auto, unfolding(crate::specs::Fields::rejected_fields))]
    fn write(&self, out: &mut Writer) -> Result<(), NoMemory> {
        self.id.write(out)?;
        self.reason.write(out)
    }

    #[tactic(auto, unfolding(crate::specs::Fields::rejected_fields))]
    fn read(alloc: Global, reader: &mut Reader) -> Result<Rejected, Failed<Fault>> {
        Ok(Rejected {
            id: Item::read(reader)?,
            reason: Part::read(alloc, reader)?,
        })
    }
}

impl Part for Probe {
    ghost use Rattle.curp_fields.specs.Fields.{probe_fields};

    ghost format = { probe_fields };

    ghost HasEncoding = { λ _. ⊤ };

    #[tactic(auto, unfolding(crate::specs::Fields::probe_fields))]
    fn write(&self, out: &mut Writer) -> Result<(), NoMemory> {
        self.id.write(out)?;
        self.epoch.write(out)
    }

    #[tactic(auto, unfolding(crate::specs::Fields::probe_fields))]
    fn read(_alloc: Global, reader: &mut Reader) -> Result<Probe, Failed<Fault>> {
        Ok(Probe {
            id: Item::read(reader)?,
            epoch: Item::read(reader)?,
        })
    }
}

impl Part for Probed {
    ghost use Rattle.curp_fields.specs.Fields.{probed_fields};

    ghost format = { probed_fields };

    ghost HasEncoding = { λ _. ⊤ };

    #[tactic(auto, unfolding(crate::specs::Fields::probed_fields))]
    fn write(&self, out: &mut Writer) -> Result<(), NoMemory> {
        self.id.write(out)?;
        self.epoch.write(out)?;
        self.live.write(out)
    }

    #[tactic(auto, unfolding(crate::specs::Fields::probed_fields))]
    fn read(_alloc: Global, reader: &mut Reader) -> Result<Probed, Failed<Fault>> {
        Ok(Probed {
            id: Item::read(reader)?,
            epoch: Item::read(reader)?,
            live: Item::read(reader)?,
        })
    }
}

impl Part for Quick {
    ghost use Rattle.curp_fields.specs.Fields.{quick_fields};

    ghost format = { quick_fields };

    ghost HasEncoding = { λ _. ⊤ };

    #[tactic(auto, unfolding(crate::specs::Fields::quick_fields))]
    fn write(&self, out: &mut Writer) -> Result<(), NoMemory> {
        self.id.write(out)?;
        self.epoch.write(out)?;
        self.version.write(out)?;
        self.capture.write(out)?;
        self.answer.write(out)
    }

    #[tactic(auto, unfolding(crate::specs::Fields::quick_fields))]
    fn read(_alloc: Global, reader: &mut Reader) -> Result<Quick, Failed<Fault>> {
        Ok(Quick {
            id: Item::read(reader)?,
            epoch: Item::read(reader)?,
            version: Item::read(reader)?,
            capture: Item::read(reader)?,
            answer: Item::read(reader)?,
        })
    }
}

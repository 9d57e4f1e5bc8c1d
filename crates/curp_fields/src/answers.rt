ghost use Rattle.std.specs.Prelude.{⊤};

use crate::part::{Part, read_parts, write_parts};
use curp_base::{Failed, NoMemory};
use curp_items::{Fault, Item, Reader, Writer};
use curp_msg::{AppendAnswer, FenceReply, GcAnswer, Reason, Refusal};
use std::alloc::Global;

impl Part for Refusal {
    ghost use Rattle.curp_fields.specs.Fields.{refusal_format};

    ghost format = { refusal_format };

    ghost HasEncoding = { λ _. ⊤ };

    #[tactic(auto, unfolding(crate::specs::Fields::refusal_format))]
    fn write(&self, out: &mut Writer) -> Result<(), NoMemory> {
        match self {
            Refusal::Version { current } => {
                out.byte(1)?;
                current.write(out)
            }
            Refusal::Epoch { current } => {
                out.byte(2)?;
                current.write(out)
            }
            Refusal::NotOwner => out.byte(3),
            Refusal::Stale { first } => {
                out.byte(4)?;
                first.write(out)
            }
            Refusal::InProgress => out.byte(5),
            Refusal::Expired => out.byte(6),
            Refusal::Switching => out.byte(7),
        }
    }

    #[tactic(auto, unfolding(crate::specs::Fields::refusal_format))]
    fn read(_alloc: Global, reader: &mut Reader) -> Result<Refusal, Failed<Fault>> {
        let place = reader.place();
        match reader.byte()? {
            1 => Ok(Refusal::Version {
                current: Item::read(reader)?,
            }),
            2 => Ok(Refusal::Epoch {
                current: Item::read(reader)?,
            }),
            3 => Ok(Refusal::NotOwner),
            4 => Ok(Refusal::Stale {
                first: Item::read(reader)?,
            }),
            5 => Ok(Refusal::InProgress),
            6 => Ok(Refusal::Expired),
            7 => Ok(Refusal::Switching),
            _ => Err(Failed::Because(Fault { place })),
        }
    }
}

impl Part for Reason {
    ghost use Rattle.curp_fields.specs.Fields.{reason_format};

    ghost format = { reason_format };

    ghost HasEncoding = { λ _. ⊤ };

    #[tactic(auto, unfolding(crate::specs::Fields::reason_format))]
    fn write(&self, out: &mut Writer) -> Result<(), NoMemory> {
        match self {
            Reason::Conflict { held } => {
                out.byte(1)?;
                held.write(out)
            }
            Reason::SetFull { set } => {
                out.byte(2)?;
                set.write(out)
            }
            Reason::Frozen => out.byte(3),
            Reason::Stranger { epoch } => {
                out.byte(4)?;
                epoch.write(out)
            }
            Reason::Idle => out.byte(5),
        }
    }

    #[tactic(auto, unfolding(crate::specs::Fields::reason_format))]
    fn read(_alloc: Global, reader: &mut Reader) -> Result<Reason, Failed<Fault>> {
        let place = reader.place();
        match reader.byte()? {
            1 => Ok(Reason::Conflict {
                held: Item::read(reader)?,
            }),
            2 => Ok(Reason::SetFull {
                set: Item::read(reader)?,
            }),
            3 => Ok(Reason::Frozen),
            4 => Ok(Reason::Stranger {
                epoch: Item::read(reader)?,
            }),
            5 => Ok(Reason::Idle),
            _ => Err(Failed::Because(Fault { place })),
        }
    }
}

impl Part for AppendAnswer {
    ghost use Rattle.curp_fields.specs.Fields.{append_answer};

    ghost format = { append_answer };

    ghost HasEncoding = { λ _. ⊤ };

    #[tactic(auto, unfolding(crate::specs::Fields::append_answer))]
    fn write(&self, out: &mut Writer) -> Result<(), NoMemory> {
        match self {
            AppendAnswer::Stored { length } => {
                out.byte(0)?;
                length.write(out)
            }
            AppendAnswer::Fenced { epoch } => {
                out.byte(1)?;
                epoch.write(out)
            }
            AppendAnswer::Gap { length } => {
                out.byte(2)?;
                length.write(out)
            }
            AppendAnswer::NotInstalled => out.byte(3),
        }
    }

    #[tactic(auto, unfolding(crate::specs::Fields::append_answer))]
    fn read(_alloc: Global, reader: &mut Reader) -> Result<AppendAnswer, Failed<Fault>> {
        let place = reader.place();
        match reader.byte()? {
            0 => Ok(AppendAnswer::Stored {
                length: Item::read(reader)?,
            }),
            1 => Ok(AppendAnswer::Fenced {
                epoch: Item::read(reader)?,
            }),
            2 => Ok(AppendAnswer::Gap {
                length: Item::read(reader)?,
            }),
            3 => Ok(AppendAnswer::NotInstalled),
            _ => Err(Failed::Because(Fault { place })),
        }
    }
}

impl Part for GcAnswer {
    ghost use Rattle.curp_fields.specs.Fields.{collection_answer};
    ghost use Rattle.curp_fields.specs.Encoding.{IsCollection};

    ghost format = { collection_answer };

    ghost HasEncoding = { IsCollection };

    #[tactic(auto, unfolding(crate::specs::Fields::collection_answer, crate::specs::Fields::requests))]
    fn write(&self, out: &mut Writer) -> Result<(), NoMemory> {
        match self {
            GcAnswer::Suspects(requests) => {
                out.byte(0)?;
                write_parts(requests.as_slice(), out)
            }
            GcAnswer::Stranger { epoch } => {
                out.byte(1)?;
                epoch.write(out)
            }
        }
    }

    #[tactic(auto, unfolding(crate::specs::Fields::collection_answer, crate::specs::Fields::requests))]
    fn read(alloc: Global, reader: &mut Reader) -> Result<GcAnswer, Failed<Fault>> {
        let place = reader.place();
        match reader.byte()? {
            0 => Ok(GcAnswer::Suspects(read_parts(alloc, reader)?)),
            1 => Ok(GcAnswer::Stranger {
                epoch: Item::read(reader)?,
            }),
            _ => Err(Failed::Because(Fault { place })),
        }
    }
}

impl Part for FenceReply {
    ghost use Rattle.curp_fields.specs.Fields.{fence_reply};
    ghost use Rattle.curp_fields.specs.Encoding.{IsFenceReply};

    ghost format = { fence_reply };

    ghost HasEncoding = { IsFenceReply };

    #[tactic(auto, unfolding(crate::specs::Fields::fence_reply, crate::specs::Fields::entries))]
    fn write(&self, out: &mut Writer) -> Result<(), NoMemory> {
        match self {
            FenceReply::Log(entries) => {
                out.byte(0)?;
                write_parts(entries.as_slice(), out)
            }
            FenceReply::Fenced { epoch } => {
                out.byte(1)?;
                epoch.write(out)
            }
        }
    }

    #[tactic(auto, unfolding(crate::specs::Fields::fence_reply, crate::specs::Fields::entries))]
    fn read(alloc: Global, reader: &mut Reader) -> Result<FenceReply, Failed<Fault>> {
        let place = reader.place();
        match reader.byte()? {
            0 => Ok(FenceReply::Log(read_parts(alloc, reader)?)),
            1 => Ok(FenceReply::Fenced {
                epoch: Item::read(reader)?,
            }),
            _ => Err(Failed::Because(Fault { place })),
        }
    }
}

ghost use Rattle.std.specs.Prelude.{⊤};

use crate::{Fault, Item, Reader, Writer};
use curp_base::NoMemory;
use curp_cmd::{Answer, Command, Pairs, Request, RequestId};

impl Item for Command {
    ghost use Rattle.curp_items.specs.Items.{command};

    ghost format = { command };

    ghost HasEncoding = { λ _. ⊤ };

    #[tactic(auto, unfolding(crate::specs::Items::command))]
    fn write(&self, out: &mut Writer) -> Result<(), NoMemory> {
        match self {
            Command::Get(key) => {
                out.byte(1)?;
                key.write(out)
            }
            Command::Put(key, value) => {
                out.byte(2)?;
                (*key, *value).write(out)
            }
            Command::Delete(key) => {
                out.byte(3)?;
                key.write(out)
            }
            Command::Incr(key) => {
                out.byte(4)?;
                key.write(out)
            }
            Command::Append(key, more) => {
                out.byte(5)?;
                (*key, *more).write(out)
            }
            Command::CondPut(key, expected, value) => {
                out.byte(6)?;
                (*key, (*expected, *value)).write(out)
            }
            Command::Multi(pairs) => {
                out.byte(7)?;
                pairs.write(out)
            }
        }
    }

    #[tactic(auto, unfolding(crate::specs::Items::command))]
    fn read(reader: &mut Reader) -> Result<Command, Fault> {
        let place = reader.place();
        match reader.byte()? {
            1 => Ok(Command::Get(Item::read(reader)?)),
            2 => Ok(Command::Put(Item::read(reader)?, Item::read(reader)?)),
            3 => Ok(Command::Delete(Item::read(reader)?)),
            4 => Ok(Command::Incr(Item::read(reader)?)),
            5 => Ok(Command::Append(Item::read(reader)?, Item::read(reader)?)),
            6 => Ok(Command::CondPut(
                Item::read(reader)?,
                Item::read(reader)?,
                Item::read(reader)?,
            )),
            7 => Ok(Command::Multi(Item::read(reader)?)),
            _ => Err(Fault { place }),
        }
    }
}

impl Item for Request {
    ghost use Rattle.curp_items.specs.Items.{request};

    ghost format = { request };

    ghost HasEncoding = { λ _. ⊤ };

    #[tactic(auto, unfolding(crate::specs::Items::request))]
    fn write(&self, out: &mut Writer) -> Result<(), NoMemory> {
        self.id.write(out)?;
        self.first.write(out)?;
        self.command.write(out)
    }

    #[tactic(auto, unfolding(crate::specs::Items::request))]
    fn read(reader: &mut Reader) -> Result<Request, Fault> {
        Ok(Request {
            id: Item::read(reader)?,
            first: Item::read(reader)?,
            command: Item::read(reader)?,
        })
    }
}

impl Item for Answer {
    ghost use Rattle.curp_items.specs.Items.{answer};

    ghost format = { answer };

    ghost HasEncoding = { λ _. ⊤ };

    #[tactic(auto, unfolding(crate::specs::Items::answer))]
    fn write(&self, out: &mut Writer) -> Result<(), NoMemory> {
        match self {
            Answer::Done => out.byte(1),
            Answer::Removed(was) => {
                out.byte(2)?;
                was.write(out)
            }
            Answer::Number(number) => {
                out.byte(3)?;
                number.write(out)
            }
            Answer::Length(length) => {
                out.byte(4)?;
                length.write(out)
            }
            Answer::Swapped(did) => {
                out.byte(5)?;
                did.write(out)
            }
            Answer::NotNumber => out.byte(6),
            Answer::Overflow => out.byte(7),
            Answer::TooLong => out.byte(8),
            Answer::Found(value) => {
                out.byte(9)?;
                value.write(out)
            }
        }
    }

    #[tactic(auto, unfolding(crate::specs::Items::answer))]
    fn read(reader: &mut Reader) -> Result<Answer, Fault> {
        let place = reader.place();
        match reader.byte()? {
            1 => Ok(Answer::Done),
            2 => Ok(Answer::Removed(Item::read(reader)?)),
            3 => Ok(Answer::Number(Item::read(reader)?)),
            4 => Ok(Answer::Length(Item::read(reader)?)),
            5 => Ok(Answer::Swapped(Item::read(reader)?)),
            6 => Ok(Answer::NotNumber),
            7 => Ok(Answer::Overflow),
            8 => Ok(Answer::TooLong),
            9 => Ok(Answer::Found(Item::read(reader)?)),
            _ => Err(Fault { place }),
        }
    }
}

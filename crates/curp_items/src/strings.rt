ghost use Rattle.std.specs.Prelude.{⊤};

use crate::{Fault, Item, Reader, Writer};
use curp_base::NoMemory;
use curp_cmd::{Key, Value};

impl Item for Key {
    ghost use Rattle.curp_items.specs.Items.{key};

    ghost format = { key };

    ghost HasEncoding = { λ _. ⊤ };

    #[tactic(auto, unfolding(crate::specs::Items::key))]
    fn write(&self, out: &mut Writer) -> Result<(), NoMemory> {
        out.string(self.bytes())
    }

    #[tactic(auto, unfolding(crate::specs::Items::key))]
    fn read(reader: &mut Reader) -> Result<Key, Fault> {
        let place = reader.place();
        Key::new(reader.string()?).or(Err(Fault { place }))
    }
}

impl Item for Value {
    ghost use Rattle.curp_items.specs.Items.{value};

    ghost format = { value };

    ghost HasEncoding = { λ _. ⊤ };

    #[tactic(auto, unfolding(crate::specs::Items::value))]
    fn write(&self, out: &mut Writer) -> Result<(), NoMemory> {
        out.string(self.bytes())
    }

    #[tactic(auto, unfolding(crate::specs::Items::value))]
    fn read(reader: &mut Reader) -> Result<Value, Fault> {
        let place = reader.place();
        Value::new(reader.string()?).or(Err(Fault { place }))
    }
}

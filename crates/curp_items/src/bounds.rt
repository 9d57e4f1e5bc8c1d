ghost use Rattle.std.specs.Prelude.{◌≤◌, ⊤};

use crate::{Fault, Item, Reader, Writer};
use curp_base::NoMemory;

/// The hashes from `lo` to `hi`, both counted.
#[derive(Clone, Copy)]
pub struct Bounds {
    pub lo: u64,
    pub hi: u64,
    pub ghost ordered: { lo ≤ hi },
}

impl Item for Bounds {
    ghost use Rattle.curp_items.specs.Items.{bounds};

    ghost format = { bounds };

    ghost HasEncoding = { λ _. ⊤ };

    #[tactic(auto, unfolding(crate::specs::Items::bounds))]
    fn write(&self, out: &mut Writer) -> Result<(), NoMemory> {
        self.lo.write(out)?;
        self.hi.write(out)
    }

    #[tactic(auto, unfolding(crate::specs::Items::bounds))]
    fn read(reader: &mut Reader) -> Result<Bounds, Fault> {
        let lo = u64::read(reader)?;
        let place = reader.place();
        let hi = u64::read(reader)?;
        if hi < lo {
            return Err(Fault { place });
        }
        Ok(Bounds { lo, hi })
    }
}

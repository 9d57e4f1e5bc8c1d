ghost use Rattle.std.specs.Prelude.{◌≡◌, ◌≤◌, false, IfOk, ⊤};
ghost use Rattle.curp_items.specs.Calls.{ReadsItem};
ghost use Rattle.curp_items.specs.Format.{◌▸◌};
ghost use Rattle.curp_items.specs.Items.{pair_count, key_beside, names, value};

use crate::list::write_each;
use crate::{Fault, Item, Reader, Writer};
use curp_base::NoMemory;
use curp_cmd::{Key, Pairs, Value};

impl Item for Pairs {
    ghost use Rattle.curp_items.specs.Items.{multi_pairs};

    ghost format = { multi_pairs };

    ghost HasEncoding = { λ _. ⊤ };

    #[tactic(auto, unfolding(crate::specs::Items::multi_pairs, crate::specs::Items::pair_count))]
    fn write(&self, out: &mut Writer) -> Result<(), NoMemory> {
        let pairs = self.as_slice();
        out.byte(pairs.len() as u8)?;
        write_each(pairs, out)
    }

    #[tactic(auto, unfolding(crate::specs::Items::multi_pairs))]
    fn read(reader: &mut Reader) -> Result<Pairs, Fault> {
        let place = reader.place();
        let count = pair_count(reader)?;
        let first = pair_beside(reader, &[])?;
        let mut pairs = [first; 4];
        for at in 1..count {
            pairs[at] = pair_beside(reader, &pairs[..at])?;
        }
        Pairs::new(&pairs[..count]).or(Err(Fault { place }))
    }
}

#[tactic(auto, unfolding(crate::specs::Items::pair_count))]
fn pair_count(reader: &mut Reader) -> Result<usize, Fault>
    ensures reads { ReadsItem result reader.new (pair_count.read reader.old) }
    ensures least { IfOk result (λ count. 1 ≤ count) }
    ensures most { IfOk result (λ count. count ≤ 4) }
{
    let place = reader.place();
    match reader.byte()? {
        count @ 1..=4 => Ok(usize::from(count)),
        _ => Err(Fault { place }),
    }
}

/// Reads a pair whose key none of the others has.
fn pair_beside(reader: &mut Reader, others: &[(Key, Value)]) -> Result<(Key, Value), Fault>
    ensures reads { ReadsItem result reader.new ((key_beside others.now ▸ value).read reader.old) }
    ensures beside { IfOk result (λ pair. names others.now pair.0 ≡ false) }
{
    let key = key_beside(reader, others)?;
    let value = Value::read(reader)?;
    Ok((key, value))
}

#[tactic(auto, unfolding(crate::specs::Items::key_beside))]
fn key_beside(reader: &mut Reader, others: &[(Key, Value)]) -> Result<Key, Fault>
    ensures reads { ReadsItem result reader.new ((key_beside others.now).read reader.old) }
    ensures beside { IfOk result (λ key. names others.now key ≡ false) }
{
    let place = reader.place();
    let key = Key::read(reader)?;
    if names(others, &key) {
        return Err(Fault { place });
    }
    Ok(key)
}

/// Whether one of the pairs has the key.
fn names(pairs: &[(Key, Value)], key: &Key) -> bool
    ensures { result ≡ names pairs.now key.now }
{
    pairs.iter().any(|pair| *key == pair.0)
}

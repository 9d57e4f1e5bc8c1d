ghost use Rattle.std.specs.Prelude.{◌≡◌, IfOk, IfSome};
ghost use Rattle.std.specs.declared.cmp.Ordering.TheVariants.{Less};
ghost use Rattle.curp_base.specs.Words.{KeysAscend, Ascend};
ghost use Rattle.curp_items.specs.Calls.{ReadsItem, ReadsIfMemory, Skips};
ghost use Rattle.curp_items.specs.Format.{◌▸◌, key_after, ascending_keys, ascending_pairs};
ghost use Rattle.curp_items.specs.Items.{u32};

use crate::{Fault, Item, Reader};
use curp_base::{AscendingKeys, AscendingPairs, Failed};
use curp_cmd::{Key, RequestId};
use std::alloc::Global;

/// An item that stands in lists in strictly ascending order.
pub trait Ascending: Item + Ord {
    ghost use Rattle.curp_items.specs.Format.{Format};
    ghost use Rattle.curp_items.specs.Calls.{ReadsItem};

    /// The format of those above another.
    ghost above: { Self → Format Self };

    /// Reads an item above the last one.
    fn read_above(reader: &mut Reader, last: &Self) -> Result<Self, Fault>
        ensures reads { ReadsItem result reader.new ((above last.now).read reader.old) }
        ensures above { IfOk result (λ item. Self.cmp last.now item ≡ Less) };
}

impl Ascending for u32 {
    ghost use Rattle.curp_items.specs.Items.{u32_above};

    ghost above = { u32_above };

    #[tactic(auto, unfolding(crate::specs::Items::u32_above))]
    fn read_above(reader: &mut Reader, last: &u32) -> Result<u32, Fault> {
        let place = reader.place();
        let number = u32::read(reader)?;
        if number <= *last {
            return Err(Fault { place });
        }
        Ok(number)
    }
}

impl Ascending for Key {
    ghost use Rattle.curp_items.specs.Items.{key_above};

    ghost above = { key_above };

    #[tactic(auto, unfolding(crate::specs::Items::key_above))]
    fn read_above(reader: &mut Reader, last: &Key) -> Result<Key, Fault> {
        let place = reader.place();
        let key = Key::read(reader)?;
        if last.cmp(&key).is_ge() {
            return Err(Fault { place });
        }
        Ok(key)
    }
}

impl Ascending for RequestId {
    ghost use Rattle.curp_items.specs.Items.{id_above};

    ghost above = { id_above };

    // A client below the last one is the fault, also where no number follows it.
    #[tactic(auto, unfolding(crate::specs::Items::id_above))]
    fn read_above(reader: &mut Reader, last: &RequestId) -> Result<RequestId, Fault> {
        let place = reader.place();
        let client = u32::read(reader)?;
        if client < last.client {
            return Err(Fault { place });
        }
        let place = reader.place();
        let seq = u32::read(reader)?;
        if client == last.client && seq <= last.seq {
            return Err(Fault { place });
        }
        Ok(RequestId { client, seq })
    }
}

/// Reads a key, above the last one if there was any.
fn read_key<K: Ascending>(reader: &mut Reader, last: &Option<K>) -> Result<K, Fault>
    ensures reads { ReadsItem result reader.new ((key_after K.format K.above last.now).read reader.old) }
    ensures above { IfOk result (λ key. IfSome last.now (λ last. K.cmp last key ≡ Less)) }
{
    match last {
        None => K::read(reader),
        Some(last) => K::read_above(reader, last),
    }
}

/// Reads pairs in ascending order of their keys.
pub fn read_pairs<K: Ascending, V: Item>(
    alloc: Global,
    reader: &mut Reader,
) -> Result<AscendingPairs<K, V>, Failed<Fault>>
    ensures { ReadsIfMemory result reader.new
        ((ascending_pairs K.cmp u32 K.format K.above V.format).read reader.old) }
{
    let count = u32::read(reader)?;
    let mut pairs = Vec::new(alloc);
    let mut last = None;
    for _ in 0..count {
        let key = read_key(reader, &last)?;
        let value = V::read(reader)?;
        pairs.push((key, value))?;
        last = Some(key);
    }
    Ok(AscendingPairs::new(pairs))
}

/// Reads keys in ascending order.
pub fn read_keys<K: Ascending>(
    alloc: Global,
    reader: &mut Reader,
) -> Result<AscendingKeys<K>, Failed<Fault>>
    ensures { ReadsIfMemory result reader.new ((ascending_keys K.cmp u32 K.format K.above).read reader.old) }
{
    let count = u32::read(reader)?;
    let mut keys = Vec::new(alloc);
    let mut last = None;
    for _ in 0..count {
        let key = read_key(reader, &last)?;
        keys.push(key)?;
        last = Some(key);
    }
    Ok(AscendingKeys::new(keys))
}

/// Reads past pairs in ascending order of their keys. It takes no memory.
pub(crate) fn skip_pairs<K: Ascending, V: Item>(reader: &mut Reader) -> Result<(), Fault>
    ensures { Skips result reader.new
        ((ascending_pairs K.cmp u32 K.format K.above V.format).read reader.old) }
{
    let mut last: Option<K> = None;
    for _ in 0..u32::read(reader)? {
        let key = read_key(reader, &last)?;
        V::read(reader)?;
        last = Some(key);
    }
    Ok(())
}

/// Reads past keys in ascending order. It takes no memory.
pub(crate) fn skip_keys<K: Ascending>(reader: &mut Reader) -> Result<(), Fault>
    ensures { Skips result reader.new ((ascending_keys K.cmp u32 K.format K.above).read reader.old) }
{
    let mut last: Option<K> = None;
    for _ in 0..u32::read(reader)? {
        last = Some(read_key(reader, &last)?);
    }
    Ok(())
}

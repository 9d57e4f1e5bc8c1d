ghost use Rattle.std.specs.Prelude.{◌≡◌, ◌↔◌, length, IsTrue, IfOk};
ghost use Rattle.curp_base.specs.Words.{KeysAscend, Ascend};

use crate::NoMemory;
use std::alloc::Global;
use std::marker::Model;

/// Pairs of a key and a value, in strictly ascending order of their keys. Contracts see the list of the pairs.
#[derive(Drop)]
pub struct AscendingPairs<K: Ord, V> {
    items: Vec<(K, V)>,
}

impl<K: Ord, V> Model for AscendingPairs<K, V> {
    ghost use Rattle.std.specs.Prelude.{List};
    ghost use Rattle.std.specs.Coded.{coded×, coded_list};
    ghost use Rattle.curp_base.specs.Words.{KeysAscend};

    ghost Value = { List (K × V) };

    ghost coded = { coded_list (coded× K.code V.code) };

    ghost view = { λ a. a.items.items };

    ghost invariant = { λ a. KeysAscend K.cmp a.items.items };
}

impl<K: Ord, V> AscendingPairs<K, V> {
    /// The list with these pairs. It takes no memory.
    pub fn new(items: Vec<(K, V)>) -> AscendingPairs<K, V>
        requires { KeysAscend K.cmp items.items }
        ensures { result ≡ items.items }
    {
        AscendingPairs { items }
    }

    /// The pairs, given back. It takes no memory.
    pub fn into_vec(self) -> Vec<(K, V)>
        ensures items { result.items ≡ self }
        ensures ascend { KeysAscend K.cmp self }
    {
        self.items
    }

    pub fn as_slice(&self) -> &[(K, V)]
        ensures value { result.now ≡ self.now }
        ensures ascend { KeysAscend K.cmp self.now }
    {
        &self.items
    }

    pub fn len(&self) -> usize
        ensures { result ≡ length self.now }
    {
        self.items.len()
    }
}

impl<K: Ord + Copy, V: Copy> AscendingPairs<K, V> {
    pub fn copy(&self, alloc: Global) -> Result<AscendingPairs<K, V>, NoMemory>
        ensures { IfOk result (λ copy. copy ≡ self.now) }
    {
        let items = Vec::from_slice(alloc, &self.items)?;
        Ok(AscendingPairs { items })
    }
}

/// Whether the keys of the pairs strictly rise.
pub fn pairs_ascend<K: Ord, V>(pairs: &[(K, V)]) -> bool
    ensures { IsTrue result ↔ KeysAscend K.cmp pairs.now }
{
    for at in 1..pairs.len() {
        if pairs[at - 1].0.cmp(&pairs[at].0).is_ge() {
            return false;
        }
    }
    true
}

/// Keys in strictly ascending order. Contracts see the list of the keys.
#[derive(Drop)]
pub struct AscendingKeys<K: Ord> {
    items: Vec<K>,
}

impl<K: Ord> Model for AscendingKeys<K> {
    ghost use Rattle.std.specs.Prelude.{List};
    ghost use Rattle.std.specs.Coded.{coded_list};
    ghost use Rattle.curp_base.specs.Words.{Ascend};

    ghost Value = { List K };

    ghost coded = { coded_list K.code };

    ghost view = { λ a. a.items.items };

    ghost invariant = { λ a. Ascend K.cmp a.items.items };
}

impl<K: Ord> AscendingKeys<K> {
    /// The list with these keys. It takes no memory.
    pub fn new(items: Vec<K>) -> AscendingKeys<K>
        requires { Ascend K.cmp items.items }
        ensures { result ≡ items.items }
    {
        AscendingKeys { items }
    }

    /// The keys, given back. It takes no memory.
    pub fn into_vec(self) -> Vec<K>
        ensures items { result.items ≡ self }
        ensures ascend { Ascend K.cmp self }
    {
        self.items
    }

    pub fn as_slice(&self) -> &[K]
        ensures value { result.now ≡ self.now }
        ensures ascend { Ascend K.cmp self.now }
    {
        &self.items
    }

    pub fn len(&self) -> usize
        ensures { result ≡ length self.now }
    {
        self.items.len()
    }
}

impl<K: Ord + Copy> AscendingKeys<K> {
    pub fn copy(&self, alloc: Global) -> Result<AscendingKeys<K>, NoMemory>
        ensures { IfOk result (λ copy. copy ≡ self.now) }
    {
        let items = Vec::from_slice(alloc, &self.items)?;
        Ok(AscendingKeys { items })
    }
}

/// Whether the keys strictly rise.
pub fn keys_ascend<K: Ord>(keys: &[K]) -> bool
    ensures { IsTrue result ↔ Ascend K.cmp keys.now }
{
    for at in 1..keys.len() {
        if keys[at - 1].cmp(&keys[at]).is_ge() {
            return false;
        }
    }
    true
}

ghost use Rattle.std.specs.Prelude.{◌≡◌, ◌+◌, ◌≤◌, [], max, cond, Some, OnOk};
ghost use Rattle.std.specs.Map.{lookup};

use curp_base::NoMemory;
use std::alloc::Global;
use std::collections::HashMap;
use std::hash::Hash;
use std::marker::Model;

/// A map with reserved room, in which a key more takes no memory. Contracts see its entries, and for how many more room was
/// asked: std's map doesn't say how much it makes at most.
#[derive(Drop)]
pub struct ReservedMap<K: Eq + Hash, V> {
    map: HashMap<K, V>,
    // For so many more keys room was asked, and hasn't been used since.
    asked: usize,
}

impl<K: Eq + Hash, V> Model for ReservedMap<K, V> {
    ghost use Rattle.std.specs.Prelude.{◌≤◌};
    ghost use Rattle.std.specs.Coded.{coded×};
    ghost use Rattle.std.specs.HashMap.{spare};
    ghost use Rattle.curp_base.specs.Reserving.{Reserving, reserving_code};

    ghost Value = { Reserving (K × V) };

    ghost coded = { reserving_code (coded× K.code V.code) };

    ghost view = { λ m. record { items = m.map.entries; spare = m.asked } };

    ghost invariant = { λ m. m.asked ≤ spare m.map };
}

impl<K: Eq + Hash, V> ReservedMap<K, V> {
    /// No entries. It takes no memory.
    pub fn new(alloc: Global) -> ReservedMap<K, V>
        ensures items { result.items ≡ [] }
        ensures spare { result.spare ≡ 0 }
    {
        ReservedMap {
            map: HashMap::new(alloc),
            asked: 0,
        }
    }

    /// Makes room for so many more keys.
    pub fn reserve(&mut self, spare: usize) -> Result<(), NoMemory>
        ensures found { (key : K) → lookup (K.eq key) self.new.items ≡ lookup (K.eq key) self.old.items }
        ensures room { OnOk result (spare ≤ self.new.spare) }
        ensures kept { self.old.spare ≤ self.new.spare }
        ensures no_more { self.new.spare ≤ max self.old.spare spare }
    {
        if spare > self.asked {
            self.map.reserve(spare)?;
            self.asked = spare;
        }
        Ok(())
    }
}

impl<K: Eq + Hash + Drop, V: Copy> ReservedMap<K, V> {
    /// The value of the key, if it has one.
    pub fn value_of(&self, key: &K) -> Option<V>
        ensures { result ≡ lookup (K.eq key.now) self.now.items }
    {
        self.map.get(key).copied()
    }

    /// The key gets the value, in place of another that it had, which is told.
    pub fn put(&mut self, key: K, value: V) -> Option<V>
        requires { 1 ≤ self.old.spare }
        ensures before { result ≡ lookup (K.eq key) self.old.items }
        ensures found { (other : K) → lookup (K.eq other) self.new.items
            ≡ cond (K.eq key other) (Some value) (lookup (K.eq other) self.old.items) }
        ensures spare { self.new.spare + 1 ≡ self.old.spare }
    {
        self.asked -= 1;
        let put: Result<_, _> = self.map.insert(key, value);
        put.unwrap()
    }
}

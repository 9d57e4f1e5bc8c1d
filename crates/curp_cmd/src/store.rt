ghost use Rattle.std.specs.Prelude.{◌≡◌, ◌+◌, ◌≤◌, length, IfOk, OnOk};
ghost use Rattle.std.specs.FinMap as map;
ghost use Rattle.curp_cmd.specs.Store.{nothing, keys_of, applied, number_of};
ghost use Rattle.curp_cmd.specs.Store.{incremented, appended, swapped, with_pairs};

use crate::{Answer, Command, Key, Value};
use curp_base::{AscendingPairs, NoMemory};
use std::alloc::Global;
use std::collections::HashMap;
use std::marker::Model;

/// The one-thread store. Contracts see its contents, and for how many more keys it has room.
pub struct Store {
    pairs: HashMap<Key, Value>,
}

impl Drop for Store {
    fn drop(self) {
        let Store { pairs: _ } = self;
    }
}

impl Model for Store {
    ghost use Rattle.std.specs.HashMap.{spare};
    ghost use Rattle.std.specs.FinMap as map;
    ghost use Rattle.curp_cmd.specs.Store.{Storage, storage_code};

    ghost Value = { Storage };

    ghost coded = { storage_code };

    ghost view = { λ s. record { map = map.from_entries s.pairs.entries; spare = spare s.pairs } };
}

impl Store {
    /// The empty store. It takes no memory.
    pub fn new(alloc: Global) -> Store
        ensures { result.map ≡ nothing }
    {
        Store {
            pairs: HashMap::new(alloc),
        }
    }

    /// Makes room for so many more keys. There is no room for more than 9 * 2^28 keys in all.
    pub fn reserve(&mut self, keys: u64) -> Result<(), NoMemory>
        ensures map { self.new.map ≡ self.old.map }
        ensures room { OnOk result (keys ≤ self.new.spare) }
        ensures kept { self.old.spare ≤ self.new.spare }
    {
        self.pairs.reserve(keys as usize)
    }

    /// Does the command. It takes no memory, since there is room for each of its keys.
    #[tactic(auto, unfolding(crate::specs::Store::applied))]
    pub fn apply(&mut self, command: &Command) -> Answer
        requires { length (keys_of command.now) ≤ self.old.spare }
        ensures answer { result ≡ (applied self.old.map command.now).answer }
        ensures after { self.new.map ≡ (applied self.old.map command.now).after }
        ensures spare { self.old.spare ≤ self.new.spare + length (keys_of command.now) }
    {
        match command {
            Command::Get(key) => Answer::Found(self.get(key)),
            Command::Put(key, value) => {
                self.put(key, value);
                Answer::Done
            }
            Command::Delete(key) => Answer::Removed(self.delete(key)),
            Command::Incr(key) => self.increment(key),
            Command::Append(key, more) => self.append(key, more),
            Command::CondPut(key, expected, value) => self.put_if(key, expected, value),
            Command::Multi(pairs) => {
                self.put_all(pairs.as_slice());
                Answer::Done
            }
        }
    }

    /// The value of the key, if it has one.
    pub fn get(&self, key: &Key) -> Option<Value>
        ensures { result ≡ map.get self.now.map key.now }
    {
        self.pairs.get(key).copied()
    }

    /// Each key with its value, in ascending order of the keys.
    pub fn pairs(&self, alloc: Global) -> Result<AscendingPairs<Key, Value>, NoMemory>
        ensures { IfOk result (λ pairs. pairs ≡ map.entries self.now.map) }
    {
        let mut pairs = Vec::with_capacity(alloc, self.pairs.len())?;
        for (key, value) in &self.pairs {
            pairs.push((*key, *value))?;
        }
        pairs.sort_unstable_by_key(|pair| pair.0);
        Ok(AscendingPairs::new(pairs))
    }

    fn put(&mut self, key: &Key, value: &Value)
        requires { 1 ≤ self.old.spare }
        ensures map { self.new.map ≡ map.insert self.old.map key.now value.now }
        ensures spare { self.old.spare ≤ self.new.spare + 1 }
    {
        let put: Result<_, _> = self.pairs.insert(*key, *value);
        put.unwrap();
    }

    fn put_all(&mut self, pairs: &[(Key, Value)])
        requires { length pairs.now ≤ self.old.spare }
        ensures map { self.new.map ≡ with_pairs self.old.map pairs.now }
        ensures spare { self.old.spare ≤ self.new.spare + length pairs.now }
    {
        for (key, value) in pairs {
            self.put(key, value);
        }
    }

    /// Tells whether the key was there.
    fn delete(&mut self, key: &Key) -> bool
        ensures found { result ≡ map.contains_key self.old.map key.now }
        ensures map { self.new.map ≡ map.remove self.old.map key.now }
        ensures spare { self.old.spare ≤ self.new.spare }
    {
        self.pairs.remove(key).is_some()
    }

    fn increment(&mut self, key: &Key) -> Answer
        requires { 1 ≤ self.old.spare }
        ensures answer { result ≡ (incremented self.old.map key.now).answer }
        ensures map { self.new.map ≡ (incremented self.old.map key.now).after }
        ensures spare { self.old.spare ≤ self.new.spare + 1 }
    {
        match number_of(&self.get(key)) {
            None => Answer::NotNumber,
            Some(u64::MAX) => Answer::Overflow,
            Some(number) => {
                let next = number + 1;
                self.put(key, &Value::from_number(next));
                Answer::Number(next)
            }
        }
    }

    fn append(&mut self, key: &Key, more: &Value) -> Answer
        requires { 1 ≤ self.old.spare }
        ensures answer { result ≡ (appended self.old.map key.now more.now).answer }
        ensures map { self.new.map ≡ (appended self.old.map key.now more.now).after }
        ensures spare { self.old.spare ≤ self.new.spare + 1 }
    {
        let value = match self.get(key) {
            Some(value) => value.joined(more),
            None => Some(*more),
        };
        match value {
            Some(value) => {
                self.put(key, &value);
                Answer::Length(value.bytes().len() as u32)
            }
            None => Answer::TooLong,
        }
    }

    fn put_if(&mut self, key: &Key, expected: &Option<Value>, value: &Value) -> Answer
        requires { 1 ≤ self.old.spare }
        ensures answer { result ≡ (swapped self.old.map key.now expected.now value.now).answer }
        ensures map { self.new.map ≡ (swapped self.old.map key.now expected.now value.now).after }
        ensures spare { self.old.spare ≤ self.new.spare + 1 }
    {
        if self.get(key) == *expected {
            self.put(key, value);
            Answer::Swapped(true)
        } else {
            Answer::Swapped(false)
        }
    }
}

/// The number that a key has by its value, or by having none.
fn number_of(value: &Option<Value>) -> Option<u64>
    ensures { result ≡ number_of value.now }
{
    match value {
        Some(value) => value.to_number(),
        None => Some(0),
    }
}

ghost use Rattle.std.specs.Prelude.{◌≡◌, ◌+◌, ◌≤◌, ◌++◌, [], length, take, drop, IfOk, IfErr, OnOk, OnErr};
ghost use Rattle.std.specs.FinMap.Entries.{find, put};
ghost use Rattle.std.specs.Fn.{CalledAt};
ghost use Rattle.std.specs.List.Retain.{IsFiltered};
ghost use Rattle.curp_base.specs.Places.{IsKeyAt, IsKeyGap, put_once};
ghost use Rattle.curp_base.specs.Reserving.{most_spare};
ghost use Rattle.curp_base.specs.Words.{KeysAscend};

use crate::{NoMemory, Reserved};
use std::alloc::Global;
use std::marker::Model;

/// Pairs of a key and a value, in strictly ascending order of their keys and with reserved room, in which a pair more
/// takes no memory. Contracts see the pairs, and how many more have room. A key is found by a binary search.
#[derive(Drop)]
pub struct ReservedPairs<K: Ord, V> {
    pairs: Reserved<(K, V)>,
}

impl<K: Ord, V> Model for ReservedPairs<K, V> {
    ghost use Rattle.std.specs.Coded.{coded×};
    ghost use Rattle.curp_base.specs.Reserving.{Reserving, reserving_code};
    ghost use Rattle.curp_base.specs.Words.{KeysAscend};

    ghost Value = { Reserving (K × V) };

    ghost coded = { reserving_code (coded× K.code V.code) };

    ghost view = { λ p. p.pairs };

    ghost invariant = { λ p. KeysAscend K.cmp p.pairs.items };
}

impl<K: Ord, V> ReservedPairs<K, V> {
    /// No pairs. It takes no memory.
    pub fn new(alloc: Global) -> ReservedPairs<K, V>
        ensures items { result.items ≡ [] }
        ensures no_room { result.spare ≡ 0 }
    {
        ReservedPairs {
            pairs: Reserved::new(alloc),
        }
    }

    /// No pairs, and room for just so many.
    pub fn with_room(alloc: Global, spare: u64) -> Result<ReservedPairs<K, V>, NoMemory>
        ensures items { IfOk result (λ pairs. pairs.items ≡ []) }
        ensures room { IfOk result (λ pairs. spare ≤ pairs.spare) }
        ensures no_more { IfOk result (λ pairs. pairs.spare ≤ spare) }
    {
        let pairs = Reserved::with_room(alloc, spare)?;
        Ok(ReservedPairs { pairs })
    }

    /// Makes room for so many more pairs, or for as many as there are where that is more.
    pub fn reserve(&mut self, spare: u64) -> Result<(), NoMemory>
        ensures items { self.new.items ≡ self.old.items }
        ensures room { OnOk result (spare ≤ self.new.spare) }
        ensures kept { self.old.spare ≤ self.new.spare }
        ensures no_more { self.new.spare ≤ most_spare self.old spare }
        ensures err { OnErr result (self.new ≡ self.old) }
    {
        self.pairs.reserve(spare)
    }

    pub fn as_slice(&self) -> &[(K, V)]
        ensures value { result.now ≡ self.now.items }
        ensures ascend { KeysAscend K.cmp self.now.items }
    {
        &self.pairs
    }
}

impl<K: Ord + Copy, V: Copy> ReservedPairs<K, V> {
    /// The value of the key, if it has one.
    pub fn value_of(&self, key: &K) -> Option<V>
        ensures value { result ≡ find K.cmp key.now self.now.items }
        ensures ascend { KeysAscend K.cmp self.now.items }
    {
        match place_of(&self.pairs, key) {
            Ok(at) => Some(self.pairs[at].1),
            Err(_) => None,
        }
    }

    /// The key gets the value, in place of another that it had.
    pub fn put(&mut self, key: K, value: V)
        requires { 1 ≤ self.old.spare }
        ensures items { self.new.items ≡ put K.cmp key value self.old.items }
        ensures spare { self.old.spare ≤ self.new.spare + 1 }
    {
        match place_of(&self.pairs, &key) {
            Ok(at) => {
                let own = self.pairs[at].0;
                self.pairs.set(at, (own, value));
            }
            Err(gap) => self.pairs.insert(gap, (key, value)),
        }
    }

    /// The key gets the value, if it has none yet.
    pub fn put_once(&mut self, key: K, value: V)
        requires { 1 ≤ self.old.spare }
        ensures items { self.new.items ≡ put_once K.cmp key value self.old.items }
        ensures spare { self.old.spare ≤ self.new.spare + 1 }
    {
        if let Err(gap) = place_of(&self.pairs, &key) {
            self.pairs.insert(gap, (key, value));
        }
    }

    /// Drops the pairs from one place up to another, without a scan.
    pub fn drop_run(&mut self, start: usize, end: usize)
        requires ordered { start ≤ end }
        requires within { end ≤ length self.old.items }
        ensures items { self.new.items ≡ take start self.old.items ++ drop end self.old.items }
        ensures spare { self.old.spare ≤ self.new.spare }
        ensures room { length self.new.items + self.new.spare ≡ length self.old.items + self.old.spare }
    {
        self.pairs.drop_run(start, end);
    }

    /// Keeps the pairs of which the test says so.
    pub fn retain<F: FnMut(&(K, V)) -> bool>(&mut self, test: F)
        requires { F.IsAlwaysCallable test }
        ensures filtered { IsFiltered (CalledAt F.FnMut) test self.old.items self.new.items }
        ensures spare { self.old.spare ≤ self.new.spare }
        ensures room { length self.new.items + self.new.spare ≡ length self.old.items + self.old.spare }
    {
        self.pairs.retain(test);
    }
}

/// Where the pair with the key stands, or where it would go.
fn place_of<K: Ord + Copy, V>(pairs: &[(K, V)], key: &K) -> Result<usize, usize>
    requires { KeysAscend K.cmp pairs.now }
    ensures found { IfOk result (IsKeyAt K.cmp pairs.now key.now) }
    ensures absent { IfErr result (IsKeyGap K.cmp pairs.now key.now) }
{
    pairs.binary_search_by_key(key, |pair| pair.0)
}

ghost use Rattle.std.specs.Prelude.{◌≡◌, ◌+◌, ◌<◌, ◌≤◌, ◌++◌, [], ◌∷◌, length, take, drop, max, slice_set, slice_index_or, vec_capacity, vec_len, IfOk, IfNone, OnOk, OnErr};
ghost use Rattle.std.specs.Fn.{CalledAt};
ghost use Rattle.std.specs.List.{insert, remove};
ghost use Rattle.std.specs.List.Retain.{IsFiltered};
ghost use Rattle.std.specs.Option.{option_to_list};
ghost use Rattle.curp_base.specs.Reserving.{most_spare};

use crate::NoMemory;
use std::alloc::Global;
use std::marker::Model;
use std::ops::{DerefSlice, Index};

/// A list with reserved room, in which an item more takes no memory. Contracts see the items, and how many more have
/// room.
#[derive(Drop)]
pub struct Reserved<T> {
    items: Vec<T>,
}

impl<T> Model for Reserved<T> {
    ghost use Rattle.std.specs.Prelude.{◌-◌, vec_len, vec_capacity};
    ghost use Rattle.curp_base.specs.Reserving.{Reserving, reserving_code};

    ghost Value = { Reserving T };

    ghost coded = { reserving_code T.code };

    ghost view = { λ r. record { items = r.items.items; spare = vec_capacity r.items - vec_len r.items } };
}

impl<T> Reserved<T> {
    /// No items. It takes no memory.
    pub fn new(alloc: Global) -> Reserved<T>
        ensures items { result.items ≡ [] }
        ensures no_room { result.spare ≡ 0 }
    {
        Reserved {
            items: Vec::new(alloc),
        }
    }

    /// No items, and room for just so many.
    pub fn with_room(alloc: Global, spare: u64) -> Result<Reserved<T>, NoMemory>
        ensures items { IfOk result (λ list. list.items ≡ []) }
        ensures room { IfOk result (λ list. spare ≤ list.spare) }
        ensures no_more { IfOk result (λ list. list.spare ≤ spare) }
    {
        let items = Vec::with_capacity(alloc, spare as usize)?;
        Ok(Reserved { items })
    }

    /// The list with these items. It takes no memory.
    pub fn from_vec(items: Vec<T>) -> Reserved<T>
        ensures { result.items ≡ items.items }
    {
        Reserved { items }
    }

    /// The items, given back. It takes no memory.
    pub fn into_vec(self) -> Vec<T>
        ensures { result.items ≡ self.items }
    {
        self.items
    }

    /// Makes room for so many more items, or for as many as there are where that is more.
    pub fn reserve(&mut self, spare: u64) -> Result<(), NoMemory>
        ensures items { self.new.items ≡ self.old.items }
        ensures room { OnOk result (spare ≤ self.new.spare) }
        ensures kept { self.old.spare ≤ self.new.spare }
        ensures no_more { self.new.spare ≤ most_spare self.old spare }
        ensures err { OnErr result (self.new ≡ self.old) }
    {
        make_room(&mut self.items, spare as usize)
    }

    pub fn len(&self) -> usize
        ensures { result ≡ length self.now.items }
    {
        self.items.len()
    }

    pub fn as_slice(&self) -> &[T]
        ensures { result.now ≡ self.now.items }
    {
        &self.items
    }

    /// Adds an item behind the others.
    pub fn push(&mut self, item: T)
        requires { 1 ≤ self.old.spare }
        ensures items { self.new.items ≡ self.old.items ++ item ∷ [] }
        ensures spare { self.new.spare + 1 ≡ self.old.spare }
    {
        self.items.push_reserved(item);
    }

    /// Takes the last item out, if there is one.
    pub fn pop(&mut self) -> Option<T>
        ensures items { self.old.items ≡ self.new.items ++ option_to_list result }
        ensures none { IfNone result ((self.old.items ≡ []) × (self.new.items ≡ [])) }
        ensures room { length self.new.items + self.new.spare ≡ length self.old.items + self.old.spare }
    {
        self.items.pop()
    }
}

impl<T: Drop> Reserved<T> {
    /// Puts an item at a place, before those that stand there and behind it.
    pub fn insert(&mut self, at: usize, item: T)
        requires within { at ≤ length self.old.items }
        requires room { 1 ≤ self.old.spare }
        ensures items { self.new.items ≡ insert self.old.items at item }
        ensures spare { self.new.spare + 1 ≡ self.old.spare }
    {
        self.items.insert(at, item).unwrap();
    }

    /// Takes the item at a place out.
    pub fn remove(&mut self, at: usize) -> T
        requires { at < length self.old.items }
        ensures value { result ≡ slice_index_or self.old.items at result }
        ensures items { self.new.items ≡ remove self.old.items at }
        ensures spare { self.new.spare ≡ self.old.spare + 1 }
    {
        self.items.remove(at)
    }

    /// Puts an item in the place of another.
    pub fn set(&mut self, at: usize, item: T)
        requires { at < length self.old.items }
        ensures items { self.new.items ≡ slice_set self.old.items at item }
        ensures spare { self.new.spare ≡ self.old.spare }
    {
        self.items[at] = item;
    }

    /// Keeps the items of which the test says so, in their order.
    pub fn retain<F: FnMut(&T) -> bool>(&mut self, test: F)
        requires { F.IsAlwaysCallable test }
        ensures filtered { IsFiltered (CalledAt F.FnMut) test self.old.items self.new.items }
        ensures spare { self.old.spare ≤ self.new.spare }
        ensures room { length self.new.items + self.new.spare ≡ length self.old.items + self.old.spare }
    {
        self.items.retain(test);
    }
}

impl<T: Copy> Reserved<T> {
    /// Drops the items from one place up to another, without a scan.
    pub fn drop_run(&mut self, start: usize, end: usize)
        requires ordered { start ≤ end }
        requires within { end ≤ length self.old.items }
        ensures items { self.new.items ≡ take start self.old.items ++ drop end self.old.items }
        ensures spare { self.old.spare ≤ self.new.spare }
        ensures room { length self.new.items + self.new.spare ≡ length self.old.items + self.old.spare }
    {
        let len = self.items.len();
        self.items.copy_within(end..len, start);
        self.items.truncate(len - (end - start));
    }
}

impl<T> DerefSlice for Reserved<T> {
    type Elem = T;

    ghost deref_gives = { λ list xs. xs ≡ list.items };

    fn deref(&self) -> &[T]
        ensures value { result.now ≡ self.now.items }
    {
        &self.items
    }
}

impl<T> Index<usize> for Reserved<T> {
    type Output = T;

    ghost can_index = { λ list at. at < length list.items };

    ghost index_gives = { λ list at item. item ≡ slice_index_or list.items at item };

    fn index(&self, at: usize) -> &T
        requires { at < length self.now.items }
        ensures { result.now ≡ slice_index_or self.now.items at result.now }
    {
        &self.items[at]
    }
}

/// Makes room behind items for so many more, or for as many as there are where that is more: they are moved no more often than
/// those of a list that doubles.
pub fn make_room<T>(items: &mut Vec<T>, spare: usize) -> Result<(), NoMemory>
    ensures items { items.new.items ≡ items.old.items }
    ensures room { OnOk result (vec_len items.new + spare ≤ vec_capacity items.new) }
    ensures kept { vec_capacity items.old ≤ vec_capacity items.new }
    ensures no_more { vec_capacity items.new ≤ max (vec_capacity items.old) (vec_len items.old + max spare (vec_len items.old)) }
    ensures err { OnErr result (vec_capacity items.new ≡ vec_capacity items.old) }
{
    let len = items.len();
    if spare <= items.capacity() - len {
        return Ok(());
    }
    items.reserve_exact(spare.max(len))
}

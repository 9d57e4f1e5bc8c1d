ghost use Rattle.std.specs.Prelude.{◌≡◌, ◌++◌, [], ◌∷◌, length, drop, IfOk};

use crate::NoMemory;
use std::alloc::Global;
use std::marker::Model;

/// A list inside a message or an entry. Contracts see it as the list of its items.
#[derive(Drop)]
pub struct Items<T> {
    items: Vec<T>,
}

impl<T> Model for Items<T> {
    ghost use Rattle.std.specs.Prelude.{List};
    ghost use Rattle.std.specs.Coded.{coded_list};

    ghost Value = { List T };

    ghost coded = { coded_list T.code };

    ghost view = { λ a. a.items.items };
}

impl<T> Items<T> {
    /// The list with these items. It takes no memory.
    pub fn new(items: Vec<T>) -> Items<T>
        ensures { result ≡ items.items }
    {
        Items { items }
    }

    /// The items, given back. It takes no memory.
    pub fn into_vec(self) -> Vec<T>
        ensures { result.items ≡ self }
    {
        self.items
    }

    pub fn as_slice(&self) -> &[T]
        ensures { result.now ≡ self.now }
    {
        &self.items
    }

    pub fn len(&self) -> usize
        ensures { result ≡ length self.now }
    {
        self.items.len()
    }
}

impl<T: Copy> Items<T> {
    pub fn copy(&self, alloc: Global) -> Result<Items<T>, NoMemory>
        ensures { IfOk result (λ copy. copy ≡ self.now) }
    {
        let items = Vec::from_slice(alloc, &self.items)?;
        Ok(Items { items })
    }
}

/// A value that is copied where there is memory for it.
pub trait TryCopy: Sized {
    fn try_copy(&self, alloc: Global) -> Result<Self, NoMemory>
        ensures copy { IfOk result (λ copy. copy ≡ self.now) };
}

impl<T: TryCopy + Drop> TryCopy for Items<T> {
    fn try_copy(&self, alloc: Global) -> Result<Items<T>, NoMemory> {
        let items = copies_of(alloc, &self.items)?;
        Ok(Items { items })
    }
}

/// Copies of items, in their order.
pub fn copies_of<T: TryCopy + Drop>(alloc: Global, items: &[T]) -> Result<Vec<T>, NoMemory>
    ensures { IfOk result (λ copies. copies.items ≡ items.now) }
{
    let mut copies = Vec::with_capacity(alloc, items.len())?;
    for item in items {
        copies.push(item.try_copy(alloc)?)?;
    }
    Ok(copies)
}

/// The items past so many.
pub fn past<T>(items: &[T], count: u64) -> &[T]
    ensures { result.now ≡ drop count items.now }
{
    if count < items.len() as u64 {
        &items[count as usize..]
    } else {
        &[]
    }
}

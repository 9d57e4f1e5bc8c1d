ghost use Rattle.std.specs.Prelude.{◌≡◌, IfOk, IfErr};

use crate::{NoMemory, TryCopy};
use std::alloc::{AllocFailed, Global};
use std::marker::Model;
use std::ops::Deref;
use std::sync::Arc;

/// A value that several may hold, and that stands in memory once. Contracts see the value.
#[derive(Drop)]
pub struct Shared<T> {
    value: Arc<T>,
}

impl<T> Model for Shared<T> {
    ghost Value = { T };

    ghost coded = { T.code };

    ghost view = { λ s. s.value.value };
}

impl<T: Drop> Shared<T> {
    /// Where there is no memory, the value comes back.
    pub fn new(alloc: Global, value: T) -> Result<Shared<T>, AllocFailed<T>>
        ensures ok { IfOk result (λ shared. shared ≡ value) }
        ensures value_returned { IfErr result (λ failed. failed.value ≡ value) }
    {
        let value = Arc::new(alloc, value)?;
        Ok(Shared { value })
    }

    /// One more that holds the value. It takes no memory, and fails where 2^63 - 1 hold it.
    pub fn share(&self) -> Result<Shared<T>, NoMemory>
        ensures { IfOk result (λ shared. shared ≡ self.now) }
    {
        let value = Arc::try_clone(&self.value)?;
        Ok(Shared { value })
    }
}

impl<T: Copy + Drop> Shared<T> {
    /// A copy of that value, which others may share.
    pub fn of(alloc: Global, value: &T) -> Result<Shared<T>, NoMemory>
        ensures { IfOk result (λ shared. shared ≡ value.now) }
    {
        Ok(Shared::new(alloc, *value)?)
    }
}

impl<T> Deref for Shared<T> {
    type Target = T;

    ghost deref_gives = { λ s x. x ≡ s };

    fn deref(&self) -> &T {
        &self.value
    }
}

impl<T: PartialEq> PartialEq for Shared<T> {
    ghost eq = { T.eq };

    ghost laws = { T.laws };

    fn eq(&self, other: &Shared<T>) -> bool {
        **self == **other
    }
}

impl<T: Eq> Eq for Shared<T> {
    ghost laws = { T.Eq.laws };
}

impl<T: Drop> TryCopy for Shared<T> {
    fn try_copy(&self, _alloc: Global) -> Result<Shared<T>, NoMemory> {
        self.share()
    }
}

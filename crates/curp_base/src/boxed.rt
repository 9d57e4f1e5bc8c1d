ghost use Rattle.std.specs.Prelude.{◌≡◌, IfOk, IfErr};

use crate::{NoMemory, TryCopy};
use std::alloc::{AllocFailed, Global};
use std::marker::Model;

/// A value that stands at a place of its own, so that what holds it stays small. Contracts see the value.
#[derive(Drop)]
pub struct Boxed<T> {
    value: Box<T>,
}

impl<T> Model for Boxed<T> {
    ghost Value = { T };

    ghost coded = { T.code };

    ghost view = { λ b. b.value.value };
}

impl<T: Drop> Boxed<T> {
    /// Where there is no memory, the value comes back.
    pub fn new(alloc: Global, value: T) -> Result<Boxed<T>, AllocFailed<T>>
        ensures ok { IfOk result (λ boxed. boxed ≡ value) }
        ensures value_returned { IfErr result (λ failed. failed.value ≡ value) }
    {
        let value = Box::new(alloc, value)?;
        Ok(Boxed { value })
    }

    /// Puts another value into its place. It takes no memory.
    pub fn set(&mut self, value: T)
        ensures { self.new ≡ value }
    {
        *self.value = value;
    }
}

impl<T> Boxed<T> {
    pub fn get(&self) -> &T
        ensures { result.now ≡ self.now }
    {
        &self.value
    }
}

impl<T: Copy + Drop> Boxed<T> {
    /// A copy of that value.
    pub fn of(alloc: Global, value: &T) -> Result<Boxed<T>, NoMemory>
        ensures { IfOk result (λ boxed. boxed ≡ value.now) }
    {
        Ok(Boxed::new(alloc, *value)?)
    }

    /// Its place with a copy of another value. It takes no memory.
    pub fn with(self, value: &T) -> Boxed<T>
        ensures { result ≡ value.now }
    {
        let mut place = self;
        place.set(*value);
        place
    }

    pub fn copy(&self, alloc: Global) -> Result<Boxed<T>, NoMemory>
        ensures { IfOk result (λ copy. copy ≡ self.now) }
    {
        Ok(Boxed::new(alloc, *self.get())?)
    }
}

impl<T: TryCopy + Drop> TryCopy for Boxed<T> {
    fn try_copy(&self, alloc: Global) -> Result<Boxed<T>, NoMemory> {
        Ok(Boxed::new(alloc, self.get().try_copy(alloc)?)?)
    }
}

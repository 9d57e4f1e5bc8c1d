//! Lists, pairs and what may be absent.
ghost use Rattle.std.specs.Prelude.{◌≡◌, ◌↔◌, IsTrue};

use crate::Same;
use curp_base::{AscendingKeys, AscendingPairs, Boxed, Items, Shared};

/// Whether two lists hold the same, in the same order.
pub fn all_same<T: Same>(a: &[T], b: &[T]) -> bool
    ensures { IsTrue result ↔ (a.now ≡ b.now) }
{
    if a.len() != b.len() {
        return false;
    }
    for at in 0..a.len() {
        if !a[at].same(&b[at]) {
            return false;
        }
    }
    true
}

impl<T: Same> Same for Items<T> {
    fn same(&self, other: &Items<T>) -> bool {
        all_same(self.as_slice(), other.as_slice())
    }
}

impl<K: Ord + Same, V: Same> Same for AscendingPairs<K, V> {
    fn same(&self, other: &AscendingPairs<K, V>) -> bool {
        all_same(self.as_slice(), other.as_slice())
    }
}

impl<K: Ord + Same> Same for AscendingKeys<K> {
    fn same(&self, other: &AscendingKeys<K>) -> bool {
        all_same(self.as_slice(), other.as_slice())
    }
}

impl<T: Same> Same for Boxed<T> {
    fn same(&self, other: &Boxed<T>) -> bool {
        self.get().same(other.get())
    }
}

impl<T: Same> Same for Shared<T> {
    fn same(&self, other: &Shared<T>) -> bool {
        (**self).same(&**other)
    }
}

impl<T: Same> Same for Option<T> {
    fn same(&self, other: &Option<T>) -> bool {
        match (self, other) {
            (Some(a), Some(b)) => a.same(b),
            (None, None) => true,
            _ => false,
        }
    }
}

impl<A: Same, B: Same> Same for (A, B) {
    fn same(&self, other: &(A, B)) -> bool {
        self.0.same(&other.0) && self.1.same(&other.1)
    }
}

ghost use Rattle.std.specs.Prelude.{◌≡◌};
ghost use Rattle.std.specs.Borrow.{ftrue};

use std::marker::{Model, PhantomData};

/// A value as it was at first, which only contracts see: the state that a node began with, or a message as it was sent.
/// It takes no bytes.
#[derive(Drop)]
pub(crate) struct Opening<N> {
    marker: PhantomData<N>,
    pub(crate) ghost value: { N },
}

impl<N> Model for Opening<N> {
    ghost also_owns = { λ _. ftrue };
}

// It owns nothing.
unsafe impl<N: Send> Send for Opening<N> {}

impl<N> Opening<N> {
    pub(crate) fn of(_node: &N) -> Opening<N>
        ensures { result.value ≡ _node.now }
    {
        Opening {
            marker: PhantomData,
        }
    }
}

use crate::NoMemory;
use std::alloc::AllocFailed;
use std::error::Error;
use std::fmt;

/// Why a call failed that takes memory: there was none, or for a reason of its own.
#[derive(Clone, Copy, Debug, PartialEq, Eq)]
pub enum Failed<E> {
    /// There was no memory.
    NoMemory,
    /// The reason is this.
    Because(E),
}

impl<E> From<NoMemory> for Failed<E> {
    ghost use Rattle.std.specs.Prelude.{◌≡◌};
    ghost use Rattle.curp_base.specs.declared.failed.Failed.TheVariants as failed;

    ghost from_gives = { λ _ why. why ≡ failed.NoMemory };

    fn from(_no_memory: NoMemory) -> Failed<E> {
        Failed::NoMemory
    }
}

impl<E, T: Drop> From<AllocFailed<T>> for Failed<E> {
    ghost use Rattle.std.specs.Prelude.{◌≡◌};
    ghost use Rattle.curp_base.specs.declared.failed.Failed.TheVariants as failed;

    ghost from_gives = { λ _ why. why ≡ failed.NoMemory };

    fn from(_lost: AllocFailed<T>) -> Failed<E> {
        Failed::NoMemory
    }
}

impl<E: fmt::Display> fmt::Display for Failed<E> {
    fn fmt<W: fmt::Write>(&self, f: &mut fmt::Formatter<W>) -> fmt::Result {
        match self {
            Failed::NoMemory => f.write_str("out of memory"),
            Failed::Because(reason) => reason.fmt(f),
        }
    }
}

impl<E: fmt::Debug + fmt::Display + Drop> Error for Failed<E> {}

ghost use Rattle.std.specs.Prelude.{◌≡◌};
ghost use Rattle.curp_filter.specs.declared.end.FilterEnd.TheVariants as end;

use curp_base::{Failed, NoMemory};
use curp_durable::DurableError;

/// Why the process of a node answers no more. A place is that of the first byte of a length, counted from 0.
#[derive(Clone, Copy, Debug, PartialEq, Eq)]
pub enum FilterEnd {
    /// The input ended behind a parcel.
    End,
    /// The input ended behind this place, inside a length or before as many bytes as that says.
    Inside { at: u64 },
    /// A length stands here that no parcel has.
    TooLong { at: u64 },
    /// As many inputs came as a `u64` counts.
    TooManyInputs,
    ReadFault,
    WriteFault,
    /// The node's journal doesn't have what came last, or may not.
    NotKept(Failed<DurableError>),
    NoMemory,
}

impl From<NoMemory> for FilterEnd {
    ghost from_gives = { λ _ e. e ≡ end.NoMemory };

    fn from(_: NoMemory) -> FilterEnd {
        FilterEnd::NoMemory
    }
}

impl From<Failed<DurableError>> for FilterEnd {
    ghost from_gives = { λ why e. e ≡ end.NotKept why };

    fn from(why: Failed<DurableError>) -> FilterEnd {
        FilterEnd::NotKept(why)
    }
}

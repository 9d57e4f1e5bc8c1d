ghost use Rattle.std.specs.Prelude.{◌≡◌};
ghost use Rattle.curp_seat.specs.Taking.{newest_in, took_by};

use curp_journal::Arrived;
use curp_msg::{Body, PartConfig};

/// What kind of input a node took, as far as whoever runs it must know.
#[derive(Clone, Copy, PartialEq, Eq)]
pub enum Took {
    /// An update or a sync.
    Asks,
    /// A configuration; `newest` is the greatest number of a master that it names, 0 where it names none.
    Configuration { newest: u32 },
    /// The word that a recovery is adopted.
    Adopted,
    /// An order of whoever runs the node.
    Order,
    /// Another message.
    Other,
}

impl Took {
    pub fn of(arrived: &Arrived) -> Took
        ensures { result ≡ took_by arrived.now }
    {
        let Arrived::Message(named) = arrived else {
            return Took::Order;
        };
        match &named.message.body {
            Body::Update(_) | Body::Sync(_) => Took::Asks,
            Body::Configuration { config } => Took::Configuration {
                newest: newest_in(config.parts.as_slice()),
            },
            Body::Adopted(_) => Took::Adopted,
            _ => Took::Other,
        }
    }
}

/// The greatest number of a master of these partitions, 0 where there is none.
fn newest_in(parts: &[PartConfig]) -> u32
    ensures { result ≡ newest_in parts.now }
{
    let mut newest = 0;
    for part in parts {
        newest = part.master.number.max(newest);
    }
    newest
}

//! What comes to a node, as parcels.
ghost use Rattle.std.specs.Prelude.{◌≡◌, ◌≢◌, ℕ, List, None, Err, IfOk};
ghost use Rattle.curp_batches.specs.Arrivals.{arrival};
ghost use Rattle.curp_batches.specs.Prefixes.{Begins};
ghost use Rattle.curp_parcels.specs.Parcels.{IsIn, IsParcel, incoming};

use crate::framing::parcel_of;
use curp_base::{Failed, NoMemory};
use curp_batches::{NoEncoding, arrival_at, write_arrival};
use curp_items::{Fault, Writer};
use curp_journal::Arrived;
use std::alloc::{AllocError, Global};

/// The parcel of what comes to a node.
pub fn encode_arrival(alloc: Global, arrived: &Arrived) -> Result<Vec<u8>, Failed<NoEncoding>>
    ensures parcel { IfOk result (λ bytes. IsParcel incoming arrived.now bytes.items) }
    ensures none { result ≡ Err (Failed.Because (record {})) → (bytes : List ℕ) → IsParcel incoming arrived.now bytes → ⊥ }
{
    // The length is put there once it is known.
    let mut out = Writer::new(vec![in alloc; 0; 4]?);
    write_arrival(alloc, arrived, &mut out)?;
    match parcel_of(out.into_vec()) {
        Some(parcel) => Ok(parcel),
        None => Err(Failed::Because(NoEncoding)),
    }
}

/// What comes to a node by the bytes behind a length. There is none where they are no arrival.
pub fn arrival_in(alloc: Global, content: &[u8]) -> Result<Option<Arrived>, NoMemory>
    ensures { IfOk result (IsIn incoming content.now) }
{
    match arrival_at(alloc, content) {
        Ok((arrived, length)) => Ok(whole_arrival(content, arrived, length)),
        Err(why) => no_arrival(why),
    }
}

/// The arrival that so many first bytes are, where these are all.
fn whole_arrival(content: &[u8], arrived: Arrived, length: usize) -> Option<Arrived>
    requires { Begins arrival content.now arrived length }
    ensures { IsIn incoming content.now result }
{
    if length == content.len() {
        Some(arrived)
    } else {
        None
    }
}

/// The bytes are no arrival, or there is no memory for it.
fn no_arrival(why: Failed<Fault>) -> Result<Option<Arrived>, NoMemory>
    ensures { IfOk result (λ read. (read ≡ None) × (why ≢ Failed.NoMemory)) }
{
    match why {
        Failed::NoMemory => Err(AllocError),
        Failed::Because(_) => Ok(None),
    }
}

//! Parcels: what comes to the process of a node, and what it says, as bytes behind their length.
//!
//! `specs/Parcels.antt` has what a parcel is: a length of four bytes, and so many bytes. What comes in is an arrival as
//! `curp_batches` encodes it; `specs/Outgoing.antt` has what goes out. `specs/Reading.antt` has which parcel stands first
//! in an input, and what stands there where there is none.
//!
//! - `encode_arrival` and `encode_outgoing` write a parcel, or say that there is none; `arrival_in` and `outgoing_in` are
//!   exact, both ways: what the bytes behind a length say, or that they say nothing.
//! - `Parcels::next_parcel`, clause `bytes`: it gives the parcels of the bytes in order, whatever the sizes of the pieces
//!   in which the source gives them, and says of one that is none where it stands. `ready_parcel` gives what was read ahead
//!   whole, and has no source to ask; `ready_content` shows it and leaves it there, and `await_parcel` waits for it. No
//!   answer but a parcel, or one that is none, takes anything from the bytes.
//! - `laws`: no parcel begins another, and what stands first in an input is one thing.
#![tactic(auto)]

mod buffer;
mod framing;
mod incoming;
pub mod laws;
mod outgoing;
mod parcels;
mod saying;

pub use incoming::{arrival_in, encode_arrival};
pub use outgoing::Outgoing;
pub use parcels::{NextParcel, Parcels};
pub use saying::{encode_outgoing, outgoing_in};

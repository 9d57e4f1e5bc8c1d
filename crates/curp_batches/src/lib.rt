//! What comes to a node as bytes, in batches that end with a checksum.
//!
//! `specs/Arrivals.antt` has the encoding of one arrival: an order with its stamp, or a message with its name, as the
//! frame that `curp_wire` writes of it. `specs/Batches.antt` has that of a batch: its arrivals one behind the other, and
//! their checksum.
//!
//! - `write_arrival` and `arrival_at`: one arrival, written behind others and read at the start of bytes, exact;
//!   `write_frame` and `frame_at`: a message's frame.
//! - `encode` writes a batch, or says that one of it has no encoding; `batch_in` is exact, both ways.
//! - `laws`: bytes are the encoding of one batch at most, and with one byte changed they are none's.
#![tactic(auto)]

mod arrivals;
mod batch;
mod error;
pub mod laws;
mod order;

pub use arrivals::{arrival_at, frame_at, write_arrival, write_frame};
pub use batch::{batch_in, encode};
pub use error::NoEncoding;

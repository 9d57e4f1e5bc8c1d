//! Messages as bytes: a length, a tag, the sender, the addressee and the fields of the body.
//!
//! `curp_fields` has the table: a tag and a list of fields for each body. `Frame.antt` has what a frame is, and which one
//! bytes begin with. `encode` gives the one frame of a message, or says that there is none; `encode_light` can only want
//! for memory, where `is_light` says so before. `decode` is exact, both ways: `found`, `within`, `only`, and `exact` for
//! each error and its place. `laws`: no frame begins another, and what has none isn't refused for another reason.
#![tactic(auto)]

mod body;
mod error;
pub mod laws;
mod light;
mod limits;
mod message;
mod reading;
mod writing;

pub use error::{FrameError, NoFrame};
pub use light::is_light;
pub use limits::{CLIENT_LIMIT, LIGHT_LIMIT, NODE_LIMIT, PART_LIMIT};
pub use reading::decode;
pub use writing::{encode, encode_light};

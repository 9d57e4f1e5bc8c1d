//! Frames by calls of which the tests know nothing.

use curp_base::Failed;
use curp_msg::Message;
use curp_same::Same;
use curp_wire::{FrameError, decode, encode};
use std::alloc::Global;

/// The frame of a message, if it has one.
pub(crate) fn frame_of(alloc: Global, message: &Message) -> Option<Vec<u8>> {
    encode(alloc, message).ok()
}

/// The message whose frame the bytes begin with, and where it ends.
pub(crate) fn read_frame(
    alloc: Global,
    bytes: &[u8],
) -> Result<(Message, usize), Failed<FrameError>> {
    decode(alloc, bytes)
}

/// Whether the bytes begin with the message's frame, of that length.
pub(crate) fn reads(alloc: Global, bytes: &[u8], message: &Message, length: usize) -> bool {
    match read_frame(alloc, bytes) {
        Ok((found, end)) => {
            let reads = end == length && found.same(message);
            drop(found);
            reads
        }
        Err(_) => false,
    }
}

/// Why the bytes begin with no frame.
pub(crate) fn fault_of(alloc: Global, bytes: &[u8]) -> Option<Failed<FrameError>> {
    match read_frame(alloc, bytes) {
        Ok((found, _)) => {
            drop(found);
            None
        }
        Err(why) => Some(why),
    }
}

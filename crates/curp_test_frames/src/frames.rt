//! A message is written as its frame, and read of it; what is cut or changed is told.

use crate::build::message;
use crate::hex::{Encoded, encoding_of};
use crate::holds::must_hold;
use curp_base::{Failed, NoMemory};
use curp_msg::{Body, Message};
use curp_same::Same;
use curp_wire::{FrameError, decode, encode, encode_light, is_light};
use std::alloc::Global;
use std::process::Abort;

// ---- what is called, of which the tests know nothing

/// The frame of a light message, which both calls write.
fn frame_of(alloc: Global, message: &Message) -> Option<Vec<u8>> {
    if !is_light(message) {
        return None;
    }
    let frame = encode_light(alloc, message).ok()?;
    let other = encode(alloc, message).ok()?;
    if frame == other { Some(frame) } else { None }
}

fn read_frame(alloc: Global, bytes: &[u8]) -> Result<(Message, usize), Failed<FrameError>> {
    decode(alloc, bytes)
}

fn is_light_message(message: &Message) -> bool {
    is_light(message)
}

fn are_same(one: &Message, other: &Message) -> bool {
    one.same(other)
}

// ---- a message and its frame

fn is_written(alloc: Global, message: &Message, frame: &[u8]) -> bool {
    match frame_of(alloc, message) {
        Some(written) => written.as_slice() == frame,
        None => false,
    }
}

/// Whether the bytes begin with the message's frame, of that length.
fn reads(alloc: Global, bytes: &[u8], message: &Message, length: usize) -> bool {
    match read_frame(alloc, bytes) {
        Ok((found, end)) => {
            let reads = end == length && are_same(&found, message);
            drop(found);
            reads
        }
        Err(_) => false,
    }
}

/// Why the bytes begin with no frame.
fn fault_of(alloc: Global, bytes: &[u8]) -> Option<Failed<FrameError>> {
    match read_frame(alloc, bytes) {
        Ok((found, _)) => {
            drop(found);
            None
        }
        Err(why) => Some(why),
    }
}

/// The frame with a byte more.
fn longer(alloc: Global, frame: &[u8]) -> Result<Vec<u8>, NoMemory> {
    let mut more = Vec::from_slice(alloc, frame)?;
    more.push(0)?;
    Ok(more)
}

/// Whether the frame is read, alone and before a byte more.
fn is_read(rt: &impl Abort, alloc: Global, message: &Message, frame: &[u8]) -> bool {
    let more = longer(alloc, frame).expect(rt, "no memory");
    reads(alloc, frame, message, frame.len()) && reads(alloc, &more, message, frame.len())
}

/// Whether the prefix of a frame is short, by what its length asks for.
fn is_short(alloc: Global, frame: &[u8], end: usize) -> bool {
    let need = if end < 4 { 4 } else { frame.len() as u64 };
    match frame.get(..end) {
        Some(cut) => fault_of(alloc, cut) == Some(Failed::Because(FrameError::Short { need })),
        None => false,
    }
}

fn cuts_are_short(alloc: Global, frame: &[u8]) -> bool {
    for end in 0..frame.len() {
        if !is_short(alloc, frame, end) {
            return false;
        }
    }
    true
}

// ---- changes of a frame

/// What a byte of a frame was changed to: where, in the item of which place, and all bytes.
#[derive(Drop)]
struct Change<'a> {
    place: usize,
    item: u64,
    bytes: &'a [u8],
}

impl Change<'_> {
    /// The length was changed, if the place is in it: a fault is told at it, or where the frame now ends.
    fn is_told(&self, why: Failed<FrameError>) -> bool {
        let is_length = self.place < 4;
        let length = self.bytes.len() as u64;
        match why {
            Failed::Because(FrameError::Short { need }) => is_length && need > length,
            Failed::Because(FrameError::BadTag) => self.place == 4,
            Failed::Because(FrameError::BadField { place: 0 }) => is_length,
            Failed::Because(FrameError::BadField { place }) => {
                place > 4 && self.item <= place && place <= length
            }
            Failed::NoMemory => false,
        }
    }

    /// Whether what is read is another message, and this is its frame.
    fn is_frame_of(&self, alloc: Global, message: &Message, found: &Message) -> bool {
        self.place >= 4
            && !are_same(found, message)
            && (!is_light_message(found) || is_written(alloc, found, self.bytes))
    }

    fn is_right(&self, alloc: Global, message: &Message) -> bool {
        match read_frame(alloc, self.bytes) {
            Ok((found, length)) => {
                let is_right = length == self.bytes.len()
                    && self.is_frame_of(alloc, message, &found);
                drop(found);
                is_right
            }
            Err(why) => self.is_told(why),
        }
    }
}

/// Whether it is right with that bit of the byte changed. The bytes are then as before.
fn bit_is_told(
    alloc: Global,
    message: &Message,
    frame: &mut Vec<u8>,
    (place, item): (usize, u64),
    bit: u8,
) -> bool {
    flip(frame, place, bit);
    let change = Change {
        place,
        item,
        bytes: frame,
    };
    let is_right = change.is_right(alloc, message);
    flip(frame, place, bit);
    is_right
}

fn flip(bytes: &mut Vec<u8>, place: usize, bit: u8) {
    if let Some(byte) = bytes.get_mut(place) {
        *byte ^= bit;
    }
}

fn bits_are_told(
    alloc: Global,
    message: &Message,
    frame: &mut Vec<u8>,
    byte: (usize, u64),
) -> bool {
    for bit in [1, 2, 4, 8, 16, 32, 64, 128] {
        if !bit_is_told(alloc, message, frame, byte, bit) {
            return false;
        }
    }
    true
}

fn changes_are_told(alloc: Global, message: &Message, frame: &mut Encoded) -> bool {
    for (place, item) in frame.items.iter().enumerate() {
        if !bits_are_told(alloc, message, &mut frame.bytes, (place, *item)) {
            return false;
        }
    }
    true
}

fn try_message(rt: &impl Abort, alloc: Global, message: &Message, text: &str) {
    let mut frame = encoding_of(rt, alloc, text);
    let is_written = is_written(alloc, message, &frame.bytes);
    must_hold(rt, text, "written", is_written);
    let is_read = is_read(rt, alloc, message, &frame.bytes);
    must_hold(rt, text, "read", is_read);
    must_hold(rt, text, "cut", cuts_are_short(alloc, &frame.bytes));
    let are_told = changes_are_told(alloc, message, &mut frame);
    must_hold(rt, text, "changed", are_told);
}

/// Tries a message from client 1 to master 2, of which this is the frame.
pub(crate) fn row(rt: &impl Abort, alloc: Global, body: Body, frame: &str) {
    let message = message(body);
    try_message(rt, alloc, &message, frame);
    drop(message);
}

//! From bytes to a message.
ghost use Rattle.std.specs.Prelude.{◌≡◌, ◌≢◌, ◌<◌, ◌≤◌, ◌^◌, ◌++◌, ℕ, List, length, take, drop, Ok, Err, IfOk, IfNone, IfSome, OnSome};
ghost use Rattle.std.specs.Int.{w32, from_be_bytes};
ghost use Rattle.curp_msg.specs.declared.message.Message.{Message};
ghost use Rattle.curp_wire.specs.Errors.{GivesIfMemory};
ghost use Rattle.curp_wire.specs.Frame.{Frame, frame_in, message_in};

use crate::error::{FrameError, bad_field, frame_error};
use crate::message::{is_tag, read_message};
use curp_base::Failed;
use curp_items::Reader;
use curp_msg::Message;
use std::alloc::Global;

/// The message whose frame the bytes begin with, and the frame's length.
pub fn decode(alloc: Global, bytes: &[u8]) -> Result<(Message, usize), Failed<FrameError>>
    // What is found is a frame's message.
    ensures found { IfOk result (λ found. Frame found.0 (take found.1 bytes.now)) }
    ensures within { IfOk result (λ found. found.1 ≤ length bytes.now) }
    // Each frame is found, whatever follows it.
    ensures only { (m : Message) (frame rest : List ℕ) → Frame m frame → bytes.now ≡ frame ++ rest
        → result ≢ Err Failed.NoMemory → result ≡ Ok (m, length frame) }
    // Which error it is.
    ensures exact { GivesIfMemory result (frame_in bytes.now) }
{
    frame_at(alloc, bytes)
}

fn frame_at(alloc: Global, bytes: &[u8]) -> Result<(Message, usize), Failed<FrameError>>
    ensures { GivesIfMemory result (frame_in bytes.now) }
{
    let Some((length, rest)) = split_length(bytes) else {
        return Err(Failed::Because(FrameError::Short { need: 4 }));
    };
    if length < 11 {
        return Err(Failed::Because(FrameError::BadField { place: 0 }));
    }
    if rest.len() < length {
        let need = 4 + length as u64;
        return Err(Failed::Because(FrameError::Short { need }));
    }
    let message = message_in(alloc, &rest[..length])?;
    Ok((message, 4 + length))
}

/// The length that a frame begins with, and what follows it.
fn split_length(bytes: &[u8]) -> Option<(usize, &[u8])>
    ensures short { IfNone result (length bytes.now < 4) }
    ensures long { OnSome result (4 ≤ length bytes.now) }
    ensures length { IfSome result (λ split. split.0 ≡ from_be_bytes w32 (take 4 bytes.now)) }
    ensures small { IfSome result (λ split. split.0 < 2 ^ 32) }
    ensures rest { IfSome result (λ split. split.1.now ≡ drop 4 bytes.now) }
{
    if bytes.len() < 4 {
        return None;
    }
    let (length, rest) = bytes.split_at(4);
    let length = u32::from_be_bytes([length[0], length[1], length[2], length[3]]);
    Some((length as usize, rest))
}

/// The message of a frame's content.
fn message_in(alloc: Global, content: &[u8]) -> Result<Message, Failed<FrameError>>
    ensures { GivesIfMemory result (message_in content.now) }
{
    match content {
        [tag, rest @ ..] if is_tag(*tag) => {
            let mut reader = Reader::at(5, rest);
            let message = read_message(*tag, alloc, &mut reader).map_err(frame_error)?;
            reader.end().map_err(bad_field)?;
            Ok(message)
        }
        _ => Err(Failed::Because(FrameError::BadTag)),
    }
}

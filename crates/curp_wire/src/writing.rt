//! From a message to bytes.
ghost use Rattle.std.specs.Prelude.{◌≡◌, ◌+◌, ◌≤◌, ◌-◌, ◌++◌, true, false, length, drop, Err, IfOk, OnOk};
ghost use Rattle.std.specs.Int.{w32, to_be_bytes};
ghost use Rattle.curp_fields.specs.Encoding.{HasContent};
ghost use Rattle.curp_wire.specs.Frame.{Frame, IsMessage, content, content_limit, has_frame};
ghost use Rattle.curp_wire.specs.Light.{is_light};

use crate::error::NoFrame;
use crate::limits::CONTENT_LIMIT;
use crate::message::{has_content, write_content};
use curp_base::{Failed, NoMemory};
use curp_items::Writer;
use curp_msg::Message;
use std::alloc::Global;

/// The frame of a message. Nodes and counts are looked at before anything is written; that more bytes would stand behind
/// the length than that tells is known only once they are.
#[tactic(auto, using(crate::proofs::Frames::no_content, crate::proofs::Frames::too_long))]
pub fn encode(alloc: Global, message: &Message) -> Result<Vec<u8>, Failed<NoFrame>>
    ensures frame { IfOk result (λ bytes. Frame message.now bytes.items) }
    // `laws::a_frame_is_had`: then there is none.
    ensures none { result ≡ Err (Failed.Because (record {})) → has_frame message.now ≡ false }
{
    if !has_content(message) {
        return Err(Failed::Because(NoFrame));
    }
    let frame = behind_room(alloc, message)?;
    if frame.len() - 4 > CONTENT_LIMIT {
        return Err(Failed::Because(NoFrame));
    }
    Ok(with_length(frame))
}

/// The frame of a light message: each has one. `is_light` is the test.
pub fn encode_light(alloc: Global, message: &Message) -> Result<Vec<u8>, NoMemory>
    requires { is_light message.now ≡ true }
    ensures { IfOk result (λ bytes. Frame message.now bytes.items) }
{
    let frame = behind_room(alloc, message)?;
    Ok(with_length(frame))
}

/// What stands behind a frame's length, and room for that before it.
fn behind_room(alloc: Global, message: &Message) -> Result<Vec<u8>, NoMemory>
    requires { HasContent message.now }
    ensures message { OnOk result (IsMessage message.now) }
    ensures length { IfOk result (λ frame. length frame.items ≡ 4 + length (content message.now)) }
    ensures content { IfOk result (λ frame. drop 4 frame.items ≡ content message.now) }
{
    // The length is put there once it is known.
    let mut out = Writer::new(vec![in alloc; 0; 4]?);
    write_content(message, &mut out)?;
    Ok(out.into_vec())
}

/// Puts into the first 4 bytes how many follow them.
fn with_length(mut frame: Vec<u8>) -> Vec<u8>
    requires least { 4 ≤ length frame.items }
    requires most { length frame.items ≤ 4 + content_limit }
    ensures { result.items ≡ to_be_bytes w32 (length frame.items - 4) ++ drop 4 frame.items }
{
    set_length(&mut frame);
    frame
}

fn set_length(frame: &mut [u8])
    requires least { 4 ≤ length frame.old }
    requires most { length frame.old ≤ 4 + content_limit }
    ensures { frame.new ≡ to_be_bytes w32 (length frame.old - 4) ++ drop 4 frame.old }
{
    let length = (frame.len() - 4) as u32;
    frame[..4].copy_from_slice(&length.to_be_bytes());
}

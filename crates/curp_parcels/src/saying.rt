//! What the process of a node says, as parcels.
ghost use Rattle.std.specs.Prelude.{◌≡◌, ◌≢◌, ◌≤◌, ◌∷◌, ◌++◌, ℕ, List, None, length, option_map, false, Err, IfOk, OnOk};
ghost use Rattle.curp_batches.specs.Arrivals.{frame};
ghost use Rattle.curp_batches.specs.Prefixes.{Begins, ReadsPrefix};
ghost use Rattle.curp_items.specs.Calls.{ReadsItem};
ghost use Rattle.curp_parcels.specs.Outgoing as format;
ghost use Rattle.curp_parcels.specs.Outgoing.{ReadsWhole, capture_made, capture_parts, completion, has_encoding, is_capture};
ghost use Rattle.curp_parcels.specs.Outgoing.{outgoing, plain, plain_read, sent};
ghost use Rattle.curp_parcels.specs.Parcels.{IsIn, IsParcel};
ghost use Rattle.curp_wire.specs.Frame.{has_frame};

use crate::framing::parcel_of;
use crate::outgoing::{Outgoing, is_capture};
use curp_base::{Failed, NoMemory};
use curp_batches::{NoEncoding, frame_at, write_frame};
use curp_cmd::NodeId;
use curp_items::{Fault, Item, Reader, Writer};
use curp_msg::{Capture, Completed, Message};
use std::alloc::{AllocError, Global};

/// The parcel of what the process of a node says.
pub fn encode_outgoing(alloc: Global, said: &Outgoing) -> Result<Vec<u8>, Failed<NoEncoding>>
    ensures parcel { IfOk result (λ bytes. IsParcel outgoing said.now bytes.items) }
    // `laws::what_is_said_has_an_encoding`: then there is none.
    ensures none { result ≡ Err (Failed.Because (record {})) → has_encoding said.now ≡ false }
{
    // The length is put there once it is known.
    let mut out = Writer::new(vec![in alloc; 0; 4]?);
    write(alloc, said, &mut out)?;
    match parcel_of(out.into_vec()) {
        Some(parcel) => Ok(parcel),
        None => Err(Failed::Because(NoEncoding)),
    }
}

#[tactic(auto, unfolding(crate::specs::Outgoing::outgoing, crate::specs::Outgoing::name))]
fn write(alloc: Global, said: &Outgoing, out: &mut Writer) -> Result<(), Failed<NoEncoding>>
    ensures writes { OnOk result (out.new ≡ record { prefix = out.old.prefix; text = out.old.text ++ outgoing.of said.now }) }
    ensures fits { OnOk result (outgoing.Fits said.now) }
    ensures none { result ≡ Err (Failed.Because (record {})) → has_encoding said.now ≡ false }
{
    match said {
        Outgoing::Stands { items, last } => {
            out.byte(0)?;
            (*items, *last).write(out)?;
        }
        Outgoing::Sent {
            step,
            place,
            stamp,
            message,
        } => {
            out.byte(1)?;
            write_sent(alloc, (*step, (*place, *stamp)), message, out)?;
        }
        Outgoing::Completed { stamp, completed } => {
            out.byte(2)?;
            write_completion(*stamp, completed, out)?;
        }
        Outgoing::Refused { input, number } => {
            out.byte(3)?;
            input.write(out)?;
            out.byte(*number)?;
        }
        Outgoing::NoParcel { input, at } => {
            out.byte(4)?;
            (*input, *at).write(out)?;
        }
        Outgoing::Withheld { step, place, stamp } => {
            out.byte(5)?;
            (*step, (*place, *stamp)).write(out)?;
        }
        Outgoing::Pending { id } => {
            out.byte(6)?;
            id.write(out)?;
        }
    }
    Ok(())
}

#[tactic(auto, unfolding(crate::specs::Outgoing::sent, crate::specs::Outgoing::name))]
fn write_sent(
    alloc: Global,
    name: (u64, (u64, u64)),
    message: &Message,
    out: &mut Writer,
) -> Result<(), Failed<NoEncoding>>
    ensures writes { OnOk result (out.new ≡ record { prefix = out.old.prefix; text = out.old.text ++ sent.of (name, message.now) }) }
    ensures fits { OnOk result (sent.Fits (name, message.now)) }
    ensures none { result ≡ Err (Failed.Because (record {})) → has_frame message.now ≡ false }
{
    name.write(out)?;
    write_frame(alloc, message, out)
}

#[tactic(auto, unfolding(crate::specs::Outgoing::completion))]
fn write_completion(
    stamp: u64,
    completed: &Completed,
    out: &mut Writer,
) -> Result<(), Failed<NoEncoding>>
    ensures writes { OnOk result (out.new ≡ record { prefix = out.old.prefix; text = out.old.text ++ completion.of (stamp, completed.now) }) }
    ensures fits { OnOk result (completion.Fits (stamp, completed.now)) }
    ensures none { result ≡ Err (Failed.Because (record {})) → is_capture completed.now.by ≡ false }
{
    if !is_capture(&completed.by) {
        return Err(Failed::Because(NoEncoding));
    }
    let by = parts_of(&completed.by);
    (stamp, (completed.id, (completed.answer, by))).write(out)?;
    Ok(())
}

fn parts_of(by: &Option<Capture>) -> Option<(NodeId, (u32, u64))>
    ensures { result ≡ option_map capture_parts by.now }
{
    match by {
        None => None,
        Some(capture) => Some((capture.master, (capture.epoch, capture.number))),
    }
}

fn capture_of(parts: Option<(NodeId, (u32, u64))>) -> Option<Capture>
    ensures { result ≡ option_map capture_made parts }
{
    match parts {
        None => None,
        Some((master, (epoch, number))) => Some(Capture {
            master,
            epoch,
            number,
        }),
    }
}

/// What the bytes behind a length say. There is none where they say nothing.
pub fn outgoing_in(alloc: Global, content: &[u8]) -> Result<Option<Outgoing>, NoMemory>
    ensures { IfOk result (IsIn outgoing content.now) }
{
    match content {
        [] => Ok(None),
        [tag, rest @ ..] => {
            if *tag == 1 {
                sent_in(alloc, rest)
            } else {
                Ok(plain_in(content))
            }
        }
    }
}

/// What the bytes say, where it is no message.
fn plain_in(content: &[u8]) -> Option<Outgoing>
    ensures { (tag : ℕ) (rest : List ℕ) → content.now ≡ tag ∷ rest → tag ≢ 1 → IsIn outgoing content.now result }
{
    match whole_plain(content) {
        Ok(said) => Some(said),
        Err(_) => None,
    }
}

fn whole_plain(content: &[u8]) -> Result<Outgoing, Fault>
    ensures { ReadsWhole result (plain_read content.now) }
{
    let mut reader = Reader::new(content);
    let said = read_plain(&mut reader)?;
    reader.end()?;
    Ok(said)
}

#[tactic(auto, unfolding(crate::specs::Outgoing::plain, crate::specs::Outgoing::name))]
fn read_plain(reader: &mut Reader) -> Result<Outgoing, Fault>
    ensures { ReadsItem result reader.new (plain.read reader.old) }
{
    let place = reader.place();
    match reader.byte()? {
        0 => {
            let (items, last) = Item::read(reader)?;
            Ok(Outgoing::Stands { items, last })
        }
        2 => {
            let (stamp, completed) = read_completion(reader)?;
            Ok(Outgoing::Completed { stamp, completed })
        }
        3 => {
            let input = Item::read(reader)?;
            let number = reader.byte()?;
            Ok(Outgoing::Refused { input, number })
        }
        4 => {
            let (input, at) = Item::read(reader)?;
            Ok(Outgoing::NoParcel { input, at })
        }
        5 => {
            let (step, (place, stamp)) = Item::read(reader)?;
            Ok(Outgoing::Withheld { step, place, stamp })
        }
        6 => {
            let id = Item::read(reader)?;
            Ok(Outgoing::Pending { id })
        }
        _ => Err(Fault { place }),
    }
}

#[tactic(auto, unfolding(crate::specs::Outgoing::completion))]
fn read_completion(reader: &mut Reader) -> Result<(u64, Completed), Fault>
    ensures { ReadsItem result reader.new (completion.read reader.old) }
{
    let (stamp, (id, (answer, by))) = Item::read(reader)?;
    let completed = Completed {
        id,
        answer,
        by: capture_of(by),
    };
    Ok((stamp, completed))
}

/// The name at the start of bytes.
fn name_at(bytes: &[u8]) -> Result<((u64, (u64, u64)), usize), Failed<Fault>>
    ensures { ReadsPrefix format.name bytes.now result }
{
    let mut reader = Reader::new(bytes);
    let found = Item::read(&mut reader);
    let length = reader.place() as usize;
    match found {
        Ok(found) => Ok((found, length)),
        Err(fault) => Err(Failed::Because(fault)),
    }
}

/// The message with its name that the bytes are, behind the byte that says that they are one.
fn sent_in(alloc: Global, bytes: &[u8]) -> Result<Option<Outgoing>, NoMemory>
    ensures { IfOk result (IsIn outgoing (1 ∷ bytes.now)) }
{
    match name_at(bytes) {
        Ok((name, at)) => sent_behind(alloc, bytes, name, at),
        Err(why) => no_message(why),
    }
}

/// The same, where the name was read, up to this place.
fn sent_behind(
    alloc: Global,
    bytes: &[u8],
    name: (u64, (u64, u64)),
    at: usize,
) -> Result<Option<Outgoing>, NoMemory>
    requires begins { Begins format.name bytes.now name at }
    requires within { at ≤ length bytes.now }
    ensures { IfOk result (IsIn outgoing (1 ∷ bytes.now)) }
{
    match frame_at(alloc, &bytes[at..]) {
        Ok((message, length)) => Ok(whole_sent(bytes, name, message, at + length)),
        Err(why) => no_message(why),
    }
}

/// The message that so many first bytes are, where these are all.
fn whole_sent(
    bytes: &[u8],
    name: (u64, (u64, u64)),
    message: Message,
    length: usize,
) -> Option<Outgoing>
    requires { Begins sent bytes.now (name, message) length }
    ensures { IsIn outgoing (1 ∷ bytes.now) result }
{
    if length == bytes.len() {
        let (step, (place, stamp)) = name;
        Some(Outgoing::Sent {
            step,
            place,
            stamp,
            message,
        })
    } else {
        None
    }
}

/// The bytes are no message, or there is no memory for it.
fn no_message(why: Failed<Fault>) -> Result<Option<Outgoing>, NoMemory>
    ensures { IfOk result (λ read. (read ≡ None) × (why ≢ Failed.NoMemory)) }
{
    match why {
        Failed::NoMemory => Err(AllocError),
        Failed::Because(_) => Ok(None),
    }
}

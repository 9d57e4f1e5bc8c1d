//! One that comes to a node, as bytes.
ghost use Rattle.std.specs.Prelude.{◌≡◌, false, ◌≤◌, ◌<◌, ◌^◌, ◌∷◌, ◌++◌, length, Err, OnOk};
ghost use Rattle.curp_items.specs.Calls.{ReadsIfMemory};
ghost use Rattle.curp_batches.specs.Arrivals as format;
ghost use Rattle.curp_batches.specs.Arrivals.{arrival, frame, named, stamped};
ghost use Rattle.curp_batches.specs.Prefixes.{Begins, IsErrorOf, ReadsPrefix};
ghost use Rattle.curp_wire.specs.Frame.{has_frame};

use crate::error::{NoEncoding, encoding_error};
use crate::order::{read_order, write_order};
use curp_base::{Failed, NoMemory};
use curp_cmd::NodeId;
use curp_items::{Fault, Item, Reader, Writer, is_node};
use curp_journal::{Arrived, Named};
use curp_msg::{Local, Message};
use curp_wire::{FrameError, decode, encode};
use std::alloc::Global;

/// Writes its encoding. After an error, what was written is not to be used.
#[tactic(auto, unfolding(crate::specs::Arrivals::arrival))]
pub fn write_arrival(
    alloc: Global,
    arrived: &Arrived,
    out: &mut Writer,
) -> Result<(), Failed<NoEncoding>>
    ensures writes { OnOk result (out.new ≡ record {
      prefix = out.old.prefix;
      text = out.old.text
          ++ arrival.of arrived.now;
    }) }
    ensures fits { OnOk result (arrival.Fits arrived.now) }
    ensures none { result ≡ Err (Failed.Because (record {})) → arrival.Fits arrived.now → ⊥ }
{
    match arrived {
        Arrived::Message(named) => {
            out.byte(0)?;
            write_named(alloc, named, out)
        }
        Arrived::Local(order, stamp) => {
            out.byte(1)?;
            write_stamped(order, *stamp, out)?;
            Ok(())
        }
    }
}

#[tactic(auto, unfolding(crate::specs::Arrivals::named, crate::specs::Arrivals::name), using(crate::proofs::Encodings::no_sender, crate::proofs::Encodings::unframed))]
fn write_named(alloc: Global, sent: &Named, out: &mut Writer) -> Result<(), Failed<NoEncoding>>
    ensures writes { OnOk result (out.new ≡ record {
      prefix = out.old.prefix;
      text = out.old.text
          ++ named.of sent.now;
    }) }
    ensures fits { OnOk result (named.Fits sent.now) }
    ensures none { result ≡ Err (Failed.Because (record {})) → named.Fits sent.now → ⊥ }
{
    if !is_node(&sent.from) {
        return Err(Failed::Because(NoEncoding));
    }
    (sent.from, (sent.step, (sent.place, sent.stamp))).write(out)?;
    write_frame(alloc, &sent.message, out)
}

/// Writes a message's frame. After an error, what was written is not to be used.
#[tactic(auto, unfolding(crate::specs::Arrivals::frame), using(crate::proofs::Encodings::frame_fits, crate::proofs::Encodings::frame_text))]
pub fn write_frame(
    alloc: Global,
    message: &Message,
    out: &mut Writer,
) -> Result<(), Failed<NoEncoding>>
    ensures writes { OnOk result (out.new ≡ record {
      prefix = out.old.prefix;
      text = out.old.text
          ++ frame.of message.now;
    }) }
    ensures fits { OnOk result (frame.Fits message.now) }
    // Then there is none.
    ensures none { result ≡ Err (Failed.Because (record {})) → has_frame message.now ≡ false }
{
    let frame = encode(alloc, message).map_err(encoding_error)?;
    out.bytes(&frame)?;
    Ok(())
}

#[tactic(auto, unfolding(crate::specs::Arrivals::stamped))]
fn write_stamped(order: &Local, stamp: u64, out: &mut Writer) -> Result<(), NoMemory>
    ensures writes { OnOk result (out.new ≡ record {
      prefix = out.old.prefix;
      text = out.old.text
          ++ stamped.of (order.now, stamp);
    }) }
    ensures fits { OnOk result (stamped.Fits (order.now, stamp)) }
{
    write_order(order, out)?;
    stamp.write(out)
}

#[tactic(auto, unfolding(crate::specs::Arrivals::stamped))]
fn read_stamped(alloc: Global, reader: &mut Reader) -> Result<(Local, u64), Failed<Fault>>
    ensures { ReadsIfMemory result reader.new (stamped.read reader.old) }
{
    let order = read_order(alloc, reader)?;
    let stamp = Item::read(reader)?;
    Ok((order, stamp))
}

/// The order and its stamp at the start of bytes.
fn stamped_at(alloc: Global, bytes: &[u8]) -> Result<((Local, u64), usize), Failed<Fault>>
    ensures { ReadsPrefix stamped bytes.now result }
{
    let mut reader = Reader::new(bytes);
    let found = read_stamped(alloc, &mut reader);
    let length = reader.place() as usize;
    match found {
        Ok(found) => Ok((found, length)),
        Err(why) => Err(why),
    }
}

/// The name at the start of bytes.
fn name_at(bytes: &[u8]) -> Result<((NodeId, (u64, (u64, u64))), usize), Failed<Fault>>
    ensures { ReadsPrefix format.name bytes.now result }
{
    let mut reader = Reader::new(bytes);
    let found = Item::read(&mut reader);
    let length = reader.place() as usize;
    match found {
        Ok(found) => Ok((found, length)),
        Err(fault) => Err(Failed::Because(fault)),
    }
}

fn error_of(why: Failed<FrameError>) -> Failed<Fault>
    ensures { IsErrorOf why result }
{
    match why {
        Failed::NoMemory => Failed::NoMemory,
        Failed::Because(_) => Failed::Because(Fault { place: 0 }),
    }
}

/// The message whose frame stands at the start of bytes, and how many bytes that has.
pub fn frame_at(alloc: Global, bytes: &[u8]) -> Result<(Message, usize), Failed<Fault>>
    ensures { ReadsPrefix frame bytes.now result }
{
    match decode(alloc, bytes) {
        Ok((message, length)) => Ok((message, length)),
        Err(why) => Err(error_of(why)),
    }
}

/// The message with its name at the start of bytes.
fn named_at(alloc: Global, bytes: &[u8]) -> Result<(Named, usize), Failed<Fault>>
    ensures { ReadsPrefix named bytes.now result }
{
    match name_at(bytes) {
        Ok((name, at)) => named_behind(alloc, bytes, name, at),
        Err(why) => Err(why),
    }
}

/// The same, where the name was read, up to this place.
fn named_behind(
    alloc: Global,
    bytes: &[u8],
    name: (NodeId, (u64, (u64, u64))),
    at: usize,
) -> Result<(Named, usize), Failed<Fault>>
    requires begins { Begins format.name bytes.now name at }
    requires within { at ≤ length bytes.now }
    ensures { ReadsPrefix named bytes.now result }
{
    let (from, (step, (place, stamp))) = name;
    match frame_at(alloc, &bytes[at..]) {
        Ok((message, length)) => {
            let named = Named {
                from,
                step,
                place,
                stamp,
                message,
            };
            Ok((named, at + length))
        }
        Err(why) => Err(why),
    }
}

/// What stands at the start of bytes, and how many bytes it has.
#[tactic(auto, using(crate::proofs::Encodings::empty_not))]
pub fn arrival_at(alloc: Global, bytes: &[u8]) -> Result<(Arrived, usize), Failed<Fault>>
    ensures { ReadsPrefix arrival bytes.now result }
{
    match bytes {
        [] => Err(Failed::Because(Fault { place: 0 })),
        [tag, rest @ ..] => tagged_at(alloc, *tag, rest),
    }
}

/// What stands behind a tag.
#[tactic(auto, using(crate::proofs::Encodings::no_tag, crate::proofs::Encodings::message_begins, crate::proofs::Encodings::message_fails, crate::proofs::Encodings::order_begins, crate::proofs::Encodings::order_fails))]
fn tagged_at(alloc: Global, tag: u8, rest: &[u8]) -> Result<(Arrived, usize), Failed<Fault>>
    requires { length rest.now < 2 ^ 63 }
    ensures { ReadsPrefix arrival (tag ∷ rest.now) result }
{
    match tag {
        0 => match named_at(alloc, rest) {
            Ok((named, length)) => Ok((Arrived::Message(named), length + 1)),
            Err(why) => Err(why),
        },
        1 => match stamped_at(alloc, rest) {
            Ok((stamped, length)) => Ok((Arrived::Local(stamped.0, stamped.1), length + 1)),
            Err(why) => Err(why),
        },
        _ => Err(Failed::Because(Fault { place: 0 })),
    }
}

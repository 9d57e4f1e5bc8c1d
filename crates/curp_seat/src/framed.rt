ghost use Rattle.std.specs.Prelude.{◌≡◌, IfOk};
ghost use Rattle.curp_wire.specs.Frame.{Frame};
ghost use Rattle.curp_seat.specs.Carrying.{CrossesAs, IsFrame, IsPacked};

use crate::opening::Opening;
use curp_base::{Failed, NoMemory};
use curp_cmd::NodeId;
use curp_journal::Named;
use curp_msg::Message;
use curp_wire::{decode, encode_light, is_light};
use std::alloc::{AllocError, Global};
use std::marker::Model;

/// How a message crosses.
#[derive(Drop)]
enum Carried {
    /// By its frame.
    Frame(Vec<u8>),
    /// As it is, where it isn't light: its frame might be too long.
    Whole(Message),
}

/// A message with its name on its way between two nodes. Contracts see the message. A light message crosses as the
/// frame that was written of it, and is decoded by its receiver.
#[derive(Drop)]
pub struct Framed {
    // What was sealed, which only contracts see.
    sealed: Opening<Named>,
    from: NodeId,
    step: u64,
    place: u64,
    stamp: u64,
    carried: Carried,
}

impl Model for Framed {
    ghost use Rattle.std.specs.Prelude.{◌≡◌};
    ghost use Rattle.curp_journal.specs.declared.arrived.Named.{Named};
    ghost use Rattle.curp_seat.specs.Carrying.{CrossesAs, IsPlaceOf};

    ghost Value = { Named };

    ghost view = { λ f. f.sealed.value };

    ghost invariant = { λ f. IsPlaceOf f.from f.step f.place f.stamp f.sealed.value
        × CrossesAs f.carried f.sealed.value.message };
}

impl Framed {
    pub fn seal(alloc: Global, named: Named) -> Result<Framed, NoMemory>
        ensures { IfOk result (λ framed. framed ≡ named) }
    {
        let sealed = Opening::of(&named);
        let carried = packed(alloc, named.message)?;
        Ok(Framed {
            sealed,
            from: named.from,
            step: named.step,
            place: named.place,
            stamp: named.stamp,
            carried,
        })
    }

    pub fn open(self, alloc: Global) -> Result<Named, NoMemory>
        ensures { IfOk result (λ named. named ≡ self) }
    {
        let message = unpacked(alloc, self.carried)?;
        Ok(Named {
            from: self.from,
            step: self.step,
            place: self.place,
            stamp: self.stamp,
            message,
        })
    }
}

fn packed(alloc: Global, message: Message) -> Result<Carried, NoMemory>
    ensures { IfOk result (λ carried. CrossesAs carried message) }
{
    if is_light(&message) {
        Ok(Carried::Frame(encode_light(alloc, &message)?))
    } else {
        Ok(Carried::Whole(message))
    }
}

fn unpacked(alloc: Global, carried: Carried) -> Result<Message, NoMemory>
    requires { IsPacked carried }
    ensures { (message : Message) → CrossesAs carried message → IfOk result (λ unpacked. unpacked ≡ message) }
{
    match carried {
        Carried::Frame(frame) => message_of(alloc, &frame),
        Carried::Whole(message) => Ok(message),
    }
}

/// The message that a frame was written of.
fn message_of(alloc: Global, frame: &[u8]) -> Result<Message, NoMemory>
    requires { IsFrame frame.now }
    ensures { (message : Message) → Frame message frame.now → IfOk result (λ read. read ≡ message) }
{
    match decode(alloc, frame) {
        Ok((message, _)) => Ok(message),
        Err(Failed::NoMemory) => Err(AllocError),
        Err(_) => unreachable!(),
    }
}

//! What is said of the answers to a batch.
ghost use Rattle.std.specs.Prelude.{◌≡◌, ◌∷◌, ◌++◌, [], true, OnErr, OnOk};
ghost use Rattle.curp_parcels.specs.Outgoing.{has_encoding};
ghost use Rattle.curp_told.specs.Told.{all_told, completion_told, message_told, messages_told, parcels_of};
ghost use Rattle.curp_told.specs.Told.{said_or_withheld, told};

use curp_base::{Failed, NoMemory};
use curp_batches::NoEncoding;
use curp_durable::Answered;
use curp_journal::Item;
use curp_msg::{Completed, Message};
use curp_parcels::laws::what_is_said_has_an_encoding;
use curp_parcels::{Outgoing, encode_outgoing};
use std::alloc::{AllocError, Global};

/// Puts the parcel of what is said behind a text. After an error the text is as it was.
pub fn tell_one(alloc: Global, said: &Outgoing, text: &mut Vec<u8>) -> Result<(), NoMemory>
    requires { has_encoding said.now ≡ true }
    ensures tells { OnOk result (text.new.items ≡ text.old.items ++ parcels_of (said.now ∷ [])) }
    ensures err { OnErr result (text.new.items ≡ text.old.items) }
{
    match encode_outgoing(alloc, said) {
        Ok(parcel) => text.extend_from_slice(&parcel),
        Err(Failed::Because(NoEncoding)) => unreachable!(),
        Err(Failed::NoMemory) => Err(AllocError),
    }
}

/// Puts there the parcel of what the item of this number and stamp has at this place, or, if that has no encoding, that it is
/// withheld.
#[tactic(auto, using(crate::proofs::Joining::said_whole))]
fn tell_or_withhold(
    alloc: Global,
    said: &Outgoing,
    step: u64,
    place: u64,
    stamp: u64,
    text: &mut Vec<u8>,
) -> Result<(), NoMemory>
    ensures { OnOk result (text.new.items ≡ text.old.items
        ++ parcels_of (said_or_withheld step place stamp said.now ∷ [])) }
{
    what_is_said_has_an_encoding();
    match encode_outgoing(alloc, said) {
        Ok(parcel) => text.extend_from_slice(&parcel),
        Err(Failed::Because(NoEncoding)) => {
            tell_one(alloc, &Outgoing::Withheld { step, place, stamp }, text)
        }
        Err(Failed::NoMemory) => Err(AllocError),
    }
}

/// Puts the parcels of what is said of these answers behind a text. The first is the answer to the input of this
/// number, counted from 1; at the end of a `u64` the numbers stand still. After an error some of the parcels are there.
pub fn tell(
    alloc: Global,
    first: u64,
    answers: &[Answered],
    text: &mut Vec<u8>,
) -> Result<(), NoMemory>
    ensures tells { OnOk result (text.new.items ≡ text.old.items ++ parcels_of (all_told first answers.now)) }
{
    let mut input = first;
    for answered in answers {
        tell_answer(alloc, input, answered, text)?;
        input = input.saturating_add(1);
    }
    Ok(())
}

/// The same of one answer.
fn tell_answer(
    alloc: Global,
    input: u64,
    answered: &Answered,
    text: &mut Vec<u8>,
) -> Result<(), NoMemory>
    ensures { OnOk result (text.new.items ≡ text.old.items ++ parcels_of (told input answered.now)) }
{
    match answered {
        Answered::Made { step, item } => {
            tell_messages(alloc, *step, item.stamp, item.done.sent.as_slice(), text)?;
            tell_completion(alloc, *step, item.stamp, &item.done.completed, text)
        }
        Answered::Refused { number } => {
            let refused = Outgoing::Refused {
                input,
                number: *number,
            };
            tell_one(alloc, &refused, text)
        }
    }
}

/// Puts there the parcels of the messages of the item of this number and stamp.
fn tell_messages(
    alloc: Global,
    step: u64,
    stamp: u64,
    messages: &[Message],
    text: &mut Vec<u8>,
) -> Result<(), NoMemory>
    ensures { OnOk result (text.new.items ≡ text.old.items ++ parcels_of (messages_told step 1 stamp messages.now)) }
{
    for (before, message) in messages.iter().enumerate() {
        tell_message(alloc, step, before as u64 + 1, stamp, message, text)?;
    }
    Ok(())
}

/// The same of the message at this place.
fn tell_message(
    alloc: Global,
    step: u64,
    place: u64,
    stamp: u64,
    message: &Message,
    text: &mut Vec<u8>,
) -> Result<(), NoMemory>
    ensures { OnOk result (text.new.items ≡ text.old.items ++ parcels_of (message_told step place stamp message.now ∷ [])) }
{
    let said = Outgoing::Sent {
        step,
        place,
        stamp,
        message: message.copy(alloc)?,
    };
    tell_or_withhold(alloc, &said, step, place, stamp, text)
}

/// Puts there the parcel of the request that the item of this number and stamp completes, if it completes one.
pub(crate) fn tell_completion(
    alloc: Global,
    step: u64,
    stamp: u64,
    completed: &Option<Completed>,
    text: &mut Vec<u8>,
) -> Result<(), NoMemory>
    ensures { OnOk result (text.new.items ≡ text.old.items ++ parcels_of (completion_told step stamp completed.now)) }
{
    match completed {
        None => Ok(()),
        Some(completed) => {
            let said = Outgoing::Completed {
                stamp,
                completed: *completed,
            };
            tell_or_withhold(alloc, &said, step, 0, stamp, text)
        }
    }
}

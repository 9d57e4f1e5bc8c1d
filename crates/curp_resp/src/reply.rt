ghost use Rattle.std.specs.Prelude.{◌≡◌, IfOk};
ghost use Rattle.curp_resp.specs.Reply.{bulk, error, integer, line, number_text, other_of, protocol_error, reply_of, wrong_of};

use crate::asked::{Other, Wrong};
use curp_base::NoMemory;
use curp_cmd::Answer;
use std::alloc::Global;

/// The greatest integer of the protocol.
const GREATEST_INTEGER: u64 = (1 << 63) - 1;

/// The reply to an answer.
pub fn reply_text(alloc: Global, answer: &Answer) -> Result<Vec<u8>, NoMemory>
    ensures { IfOk result (λ text. text.items ≡ reply_of answer.now) }
{
    match answer {
        Answer::Done => simple(alloc, "+OK"),
        Answer::Removed(true) | Answer::Swapped(true) => integer(alloc, 1),
        Answer::Removed(false) | Answer::Swapped(false) => integer(alloc, 0),
        Answer::Number(number) => number_text(alloc, *number),
        Answer::Length(length) => integer(alloc, u64::from(*length)),
        Answer::NotNumber => error(alloc, "not a number"),
        Answer::Overflow => error(alloc, "overflow"),
        Answer::TooLong => error(alloc, "too long"),
        Answer::Found(None) => simple(alloc, "$-1"),
        Answer::Found(Some(value)) => bulk(alloc, value.bytes()),
    }
}

/// The reply to a request that means no command. One that asks nothing gets none, of no bytes.
pub fn other_text(alloc: Global, other: &Other) -> Result<Vec<u8>, NoMemory>
    ensures { IfOk result (λ text. text.items ≡ other_of other.now) }
{
    match other {
        Other::Nothing => Ok(Vec::new(alloc)),
        Other::Echo(text) => bulk(alloc, text.bytes()),
        Other::Wrong(wrong) => wrong_text(alloc, *wrong),
    }
}

/// The reply to a request that is wrong.
pub fn wrong_text(alloc: Global, wrong: Wrong) -> Result<Vec<u8>, NoMemory>
    ensures { IfOk result (λ text. text.items ≡ wrong_of wrong) }
{
    match wrong {
        Wrong::Unknown => error(alloc, "unknown command"),
        Wrong::Arguments => error(alloc, "arguments"),
        Wrong::Size => error(alloc, "size"),
        Wrong::KeyTwice => error(alloc, "key twice"),
        Wrong::NotInteger => error(alloc, "value is not an integer or out of range"),
        Wrong::NotOne => error(alloc, "increment by 1 only"),
    }
}

/// The reply to bytes that are no request. It takes no memory.
pub fn protocol_text() -> &'static [u8]
    ensures { result.now ≡ protocol_error }
{
    b"-ERR protocol\r\n"
}

fn number_text(alloc: Global, number: u64) -> Result<Vec<u8>, NoMemory>
    ensures { IfOk result (λ text. text.items ≡ number_text number) }
{
    if number <= GREATEST_INTEGER {
        integer(alloc, number)
    } else {
        let digits = format!(in alloc; "{number}")?;
        bulk(alloc, digits.as_bytes())
    }
}

fn integer(alloc: Global, number: u64) -> Result<Vec<u8>, NoMemory>
    ensures { IfOk result (λ text. text.items ≡ integer number) }
{
    Ok(format!(in alloc; ":{number}\r\n")?.into_bytes())
}

fn simple(alloc: Global, text: &str) -> Result<Vec<u8>, NoMemory>
    ensures { IfOk result (λ bytes. bytes.items ≡ line text.now) }
{
    Ok(format!(in alloc; "{text}\r\n")?.into_bytes())
}

fn error(alloc: Global, text: &str) -> Result<Vec<u8>, NoMemory>
    ensures { IfOk result (λ bytes. bytes.items ≡ error text.now) }
{
    Ok(format!(in alloc; "-ERR {text}\r\n")?.into_bytes())
}

fn bulk(alloc: Global, bytes: &[u8]) -> Result<Vec<u8>, NoMemory>
    ensures { IfOk result (λ text. text.items ≡ bulk bytes.now) }
{
    let mut text = format!(in alloc; "${}\r\n", bytes.len())?.into_bytes();
    text.extend_from_slice(bytes)?;
    text.extend_from_slice(b"\r\n")?;
    Ok(text)
}

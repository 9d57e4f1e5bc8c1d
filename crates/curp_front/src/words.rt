//! What of connections comes to the process of a client node and goes out of it, as parcels beside those of any node.
ghost use Rattle.std.specs.Prelude.{◌≡◌, ◌≤◌, ◌+◌, ◌∷◌, ◌++◌, length, true, IfOk, OnOk};
ghost use Rattle.std.specs.Int.{to_be_bytes, w32, w64};
ghost use Rattle.curp_front.specs.Words.{IsInput, is_short, output_parcel};

use crate::output::FrontOutput;
use curp_base::{Items, NoMemory};
use std::alloc::Global;

/// How many bytes of a reply a parcel takes: what is left of the longest parcel, 16,777,250 bytes.
const LONGEST_REPLY: usize = 16_777_241;

/// What comes of a connection.
#[derive(Drop)]
pub enum FrontInput {
    /// These bytes of it came.
    Bytes { connection: u64, bytes: Items<u8> },
    /// No more bytes of it come.
    Closed { connection: u64 },
}

/// What comes of a connection by the bytes behind a length, if they say so.
pub fn front_input_in(alloc: Global, content: &[u8]) -> Result<Option<FrontInput>, NoMemory>
    ensures { IfOk result (IsInput content.now) }
{
    match content {
        [tag, a, b, c, d, e, f, g, h, bytes @ ..] => {
            let connection = u64::from_be_bytes([*a, *b, *c, *d, *e, *f, *g, *h]);
            input_by(alloc, *tag, connection, bytes)
        }
        _ => Ok(None),
    }
}

/// The same, where these bytes stand behind a tag and the number of a connection.
fn input_by(
    alloc: Global,
    tag: u8,
    connection: u64,
    bytes: &[u8],
) -> Result<Option<FrontInput>, NoMemory>
    ensures { IfOk result (IsInput (tag ∷ to_be_bytes w64 connection ++ bytes.now)) }
{
    match tag {
        2 => Ok(Some(FrontInput::Bytes {
            connection,
            bytes: Items::new(Vec::from_slice(alloc, bytes)?),
        })),
        3 if bytes.is_empty() => Ok(Some(FrontInput::Closed { connection })),
        _ => Ok(None),
    }
}

/// Whether a parcel takes it. Each reply is far shorter.
pub fn is_short(output: &FrontOutput) -> bool
    ensures { result ≡ is_short output.now }
{
    match output {
        FrontOutput::Reply { bytes, .. } => bytes.len() <= LONGEST_REPLY,
        FrontOutput::Close { .. } | FrontOutput::More { .. } => true,
    }
}

/// Puts the parcel of what is told behind a text. `is_short` is the test.
pub fn write_front_output(output: &FrontOutput, text: &mut Vec<u8>) -> Result<(), NoMemory>
    requires { is_short output.now ≡ true }
    ensures { OnOk result (text.new.items ≡ text.old.items ++ output_parcel output.now) }
{
    match output {
        FrontOutput::Reply { connection, bytes } => {
            write_parcel(7, *connection, bytes.as_slice(), text)
        }
        FrontOutput::Close { connection } => write_parcel(8, *connection, &[], text),
        FrontOutput::More { connection } => write_parcel(9, *connection, &[], text),
    }
}

/// Puts a length, a tag, the number of a connection and bytes behind a text.
fn write_parcel(tag: u8, connection: u64, bytes: &[u8], text: &mut Vec<u8>) -> Result<(), NoMemory>
    requires { length bytes.now ≤ 16777241 }
    ensures { OnOk result (text.new.items ≡ text.old.items
        ++ to_be_bytes w32 (9 + length bytes.now) ++ tag ∷ to_be_bytes w64 connection ++ bytes.now) }
{
    let count = 9 + bytes.len() as u32;
    text.extend_from_slice(&count.to_be_bytes())?;
    text.push(tag)?;
    text.extend_from_slice(&connection.to_be_bytes())?;
    text.extend_from_slice(bytes)?;
    Ok(())
}

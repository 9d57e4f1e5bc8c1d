//! Batches as bytes.
ghost use Rattle.std.specs.Prelude.{◌≡◌, ◌≢◌, true, false, None, option_map, Err, IfOk};
ghost use Rattle.curp_base.specs.Words.{Each};
ghost use Rattle.curp_batches.specs.Arrivals.{arrival};
ghost use Rattle.curp_batches.specs.Batches.{AreArrivals, AreArrivalsIn, IsBatchIn, IsEncoding, checksum_of};

use crate::arrivals::{arrival_at, write_arrival};
use crate::error::NoEncoding;
use curp_base::{Failed, NoMemory};
use curp_cmd::bytes_hash;
use curp_items::{Fault, Writer};
use curp_journal::Arrived;
use std::alloc::{AllocError, Global};

/// How many bytes a checksum has.
const CHECKSUM_LENGTH: usize = 8;

/// Encodes a batch: its arrivals one behind the other, and the checksum of these bytes.
pub fn encode(alloc: Global, batch: &[Arrived]) -> Result<Vec<u8>, Failed<NoEncoding>>
    ensures encoding { IfOk result (λ bytes. IsEncoding batch.now bytes.items) }
    ensures none { result ≡ Err (Failed.Because (record {})) → Each arrival.Fits batch.now → ⊥ }
{
    let mut bytes = encode_arrivals(alloc, batch)?;
    let checksum = checksum_of(&bytes);
    bytes.extend_from_slice(&checksum)?;
    Ok(bytes)
}

fn encode_arrivals(alloc: Global, batch: &[Arrived]) -> Result<Vec<u8>, Failed<NoEncoding>>
    ensures encoding { IfOk result (λ bytes. AreArrivals batch.now bytes.items) }
    ensures none { result ≡ Err (Failed.Because (record {})) → Each arrival.Fits batch.now → ⊥ }
{
    let mut out = Writer::new(Vec::new(alloc));
    for arrived in batch {
        write_arrival(alloc, arrived, &mut out)?;
    }
    Ok(out.into_vec())
}

fn checksum_of(bytes: &[u8]) -> [u8; 8]
    ensures { result ≡ checksum_of bytes.now }
{
    bytes_hash(bytes).to_be_bytes()
}

/// The batch whose encoding the bytes are. There is none where they are no batch's, as where they don't end with the
/// checksum of what stands before it.
pub fn batch_in(alloc: Global, bytes: &[u8]) -> Result<Option<Vec<Arrived>>, NoMemory>
    ensures { IfOk result (λ read. IsBatchIn bytes.now (option_map (λ batch. batch.items) read)) }
{
    if bytes.len() < CHECKSUM_LENGTH {
        return Ok(None);
    }
    let at = bytes.len() - CHECKSUM_LENGTH;
    let content = &bytes[..at];
    if is_checksum_of(&bytes[at..], content) {
        arrivals_in(alloc, content)
    } else {
        Ok(None)
    }
}

fn is_checksum_of(checksum: &[u8], content: &[u8]) -> bool
    ensures yes { result ≡ true → checksum.now ≡ checksum_of content.now }
    ensures no { result ≡ false → checksum.now ≢ checksum_of content.now }
{
    checksum == checksum_of(content).as_slice()
}

/// The arrivals that the bytes are, one behind the other.
fn arrivals_in(alloc: Global, bytes: &[u8]) -> Result<Option<Vec<Arrived>>, NoMemory>
    ensures { IfOk result (λ read. AreArrivalsIn bytes.now (option_map (λ batch. batch.items) read)) }
{
    let mut batch = Vec::new(alloc);
    let mut at = 0;
    'arrivals: while at < bytes.len() {
        match arrival_at(alloc, &bytes[at..]) {
            Ok((arrived, length)) => {
                batch.push(arrived)?;
                at += length;
            }
            Err(why) => return no_arrivals(why),
        }
    }
    Ok(Some(batch))
}

/// The bytes are no arrivals, or there is no memory for them.
fn no_arrivals(why: Failed<Fault>) -> Result<Option<Vec<Arrived>>, NoMemory>
    ensures { IfOk result (λ read. (read ≡ None) × (why ≢ Failed.NoMemory)) }
{
    match why {
        Failed::NoMemory => Err(AllocError),
        Failed::Because(_) => Ok(None),
    }
}

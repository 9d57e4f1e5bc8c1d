//! Bytes that are written as words of hexadecimal digits, a word an item.

use curp_base::NoMemory;
use std::alloc::Global;
use std::process::Abort;

/// Bytes, and for each of them the place of its item's first byte.
#[derive(Drop)]
pub(crate) struct Encoded {
    pub(crate) bytes: Vec<u8>,
    pub(crate) items: Vec<u64>,
}

/// Appends the bytes of a word, and for each of them where the word begins.
fn push_item(encoded: &mut Encoded, word: &str) -> Result<(), NoMemory> {
    let item = encoded.bytes.len() as u64;
    push_word(&mut encoded.bytes, word)?;
    for _ in encoded.items.len()..encoded.bytes.len() {
        encoded.items.push(item)?;
    }
    Ok(())
}

fn push_items(encoded: &mut Encoded, text: &str) -> Result<(), NoMemory> {
    for word in text.split(' ') {
        push_item(encoded, word)?;
    }
    Ok(())
}

pub(crate) fn encoding_of(rt: &impl Abort, alloc: Global, text: &str) -> Encoded {
    let mut encoded = Encoded {
        bytes: Vec::new(alloc),
        items: Vec::new(alloc),
    };
    assert!(rt; push_items(&mut encoded, text).is_ok());
    encoded
}

/// Two digits a byte.
fn push_word(bytes: &mut Vec<u8>, word: &str) -> Result<(), NoMemory> {
    let mut high = None;
    for digit in word.as_bytes() {
        match high {
            None => high = Some(value_of(*digit)),
            Some(half) => {
                bytes.push((half << 4) | value_of(*digit))?;
                high = None;
            }
        }
    }
    Ok(())
}

fn value_of(digit: u8) -> u8 {
    match digit {
        b'0'..=b'9' => digit.wrapping_sub(b'0'),
        b'a'..=b'f' => digit.wrapping_sub(b'a').wrapping_add(10),
        _ => 0,
    }
}

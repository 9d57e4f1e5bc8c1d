ghost use Rattle.std.specs.Prelude.{◌≡◌};
ghost use Rattle.curp_cmd.specs.Hash.{hash_of, touches, conflicts};

use crate::{Command, Hashes, Key};

/// Where FNV-1a with 64 bits begins.
const OFFSET_BASIS: u64 = 0xcbf29ce484222325;

/// What FNV-1a with 64 bits multiplies by at each byte.
const PRIME: u64 = 0x100000001b3;

/// The hash of the bytes: FNV-1a with 64 bits.
#[tactic(auto, unfolding(crate::specs::Hash::hash_of))]
pub fn bytes_hash(bytes: &[u8]) -> u64
    ensures { result ≡ hash_of bytes.now }
{
    let mut hash = OFFSET_BASIS;
    for byte in bytes {
        hash = (hash ^ u64::from(*byte)).wrapping_mul(PRIME);
    }
    hash
}

/// The hash of the key's bytes. Keys may share a hash.
pub fn key_hash(key: &Key) -> u64
    ensures { result ≡ hash_of key.now }
{
    bytes_hash(key.bytes())
}

/// Whether a key of the command has this hash.
pub fn touches(command: &Command, hash: u64) -> bool
    ensures { result ≡ touches command.now hash }
{
    Hashes::of(command).as_slice().contains(&hash)
}

/// Whether a hash of the one is a hash of the other. Commands that don't conflict may be done in either order.
pub fn conflict(a: &Command, b: &Command) -> bool
    ensures { result ≡ conflicts a.now b.now }
{
    let others = Hashes::of(b);
    Hashes::of(a)
        .as_slice()
        .iter()
        .any(|hash| others.as_slice().contains(hash))
}

ghost use Rattle.std.specs.Prelude.{◌≡◌, ◌<◌, [], ◌∷◌, ◌++◌, length};
ghost use Rattle.curp_items.specs.Format.{string};
ghost use Rattle.curp_items.specs.Calls.{WritesItem};

use curp_base::NoMemory;
use std::marker::Model;

/// Bytes that are written behind others. Where memory runs out, all that was written is gone, and what stood there
/// before is as it was.
#[derive(Drop)]
pub struct Writer {
    bytes: Vec<u8>,
    start: usize,
}

impl Model for Writer {
    ghost use Rattle.std.specs.Prelude.{◌≤◌, length, take, drop};
    ghost use Rattle.curp_items.specs.Calls.{Written};

    ghost Value = { Written };

    ghost view = { λ w. record { prefix = take w.start w.bytes.items; text = drop w.start w.bytes.items } };

    ghost invariant = { λ w. w.start ≤ length w.bytes.items };
}

impl Writer {
    /// Writes behind these bytes. It takes no memory.
    pub fn new(prefix: Vec<u8>) -> Writer
        ensures { result ≡ record { prefix = prefix.items; text = [] } }
    {
        let start = prefix.len();
        Writer {
            bytes: prefix,
            start,
        }
    }

    /// The bytes from before, and what was written behind them. It takes no memory.
    pub fn into_vec(self) -> Vec<u8>
        ensures { result.items ≡ self.prefix ++ self.text }
    {
        self.bytes
    }

    pub fn byte(&mut self, byte: u8) -> Result<(), NoMemory>
        ensures { WritesItem self.old self.new result (byte ∷ []) }
    {
        self.bytes(&[byte])
    }

    pub fn bytes(&mut self, bytes: &[u8]) -> Result<(), NoMemory>
        ensures { WritesItem self.old self.new result bytes.now }
    {
        let written = self.bytes.extend_from_slice(bytes);
        if written.is_err() {
            self.bytes.truncate(self.start);
        }
        written
    }

    /// The number of the bytes, as one byte, and they.
    pub fn string(&mut self, bytes: &[u8]) -> Result<(), NoMemory>
        requires { length bytes.now < 256 }
        ensures { WritesItem self.old self.new result (string.of bytes.now) }
    {
        self.byte(bytes.len() as u8)?;
        self.bytes(bytes)
    }
}

ghost use Rattle.std.specs.Prelude.{◌≡◌, ◌≢◌, ◌≤◌, true};
ghost use Rattle.curp_io.specs.Streams.{Rose, SameCount, Writes};

use crate::sink::{Put, Sink};

/// How far a piece was written.
#[derive(Clone, Copy, PartialEq, Eq)]
pub enum Written {
    Whole,
    /// The sink failed. It may have taken bytes at the start of the piece.
    WriteFault,
    /// The sink ran out of memory. It may have taken bytes at the start of the piece.
    NoMemory,
}

/// Puts a piece, in as many calls as the sink needs.
pub fn write_piece<K: Sink>(sink: &mut K, bytes: &[u8]) -> Written
    ensures bytes { K.tells sink.old ≡ true → Writes (K.held sink.old) (K.held sink.new) result bytes.now }
    ensures tells { K.tells sink.old ≡ true → K.tells sink.new ≡ true }
    ensures cause { result ≡ Written.WriteFault → Rose (K.faults sink.old) (K.faults sink.new) }
    ensures told { result ≢ Written.WriteFault → SameCount (K.faults sink.old) (K.faults sink.new) }
    ensures never_falls { K.faults sink.old ≤ K.faults sink.new }
{
    let mut done = 0;
    'pieces: while done < bytes.len() {
        match sink.put(&bytes[done..]) {
            Put::Took(count) => done += count,
            Put::Failed => return Written::WriteFault,
            Put::NoMemory => return Written::NoMemory,
        }
    }
    Written::Whole
}

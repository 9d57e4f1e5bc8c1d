//! A buffer of bytes that are read ahead.
ghost use Rattle.std.specs.Prelude.{◌≡◌, ◌≤◌, ◌++◌, [], length, take, drop, true, vec_len};
ghost use Rattle.curp_io.specs.Streaming.{TellsFault};
ghost use Rattle.curp_io.specs.Streams.{FitsBuffer, Takes};
ghost use Rattle.curp_parcels.specs.Buffer.{Adds};

use curp_io::{Source, Taken};

/// How many bytes are asked for at a time.
const ROOM: usize = 65_536;

/// What became of a read.
#[derive(Clone, Copy, Debug, PartialEq, Eq)]
pub(crate) enum Filled {
    /// So many bytes were read; none is the end.
    Bytes(usize),
    Failed,
    NoMemory,
}

/// Drops so many bytes at the prefix.
pub(crate) fn drop_first(buffer: &mut Vec<u8>, count: usize)
    requires { count ≤ length buffer.old.items }
    ensures { buffer.new.items ≡ drop count buffer.old.items }
{
    if count > 0 {
        let rest = buffer.len() - count;
        buffer.copy_within(count.., 0);
        buffer.truncate(rest);
    }
}

/// Reads bytes of the source behind those of the buffer.
pub(crate) fn read_behind<S: Source>(buffer: &mut Vec<u8>, source: &mut S) -> Filled
    ensures adds { Adds buffer.old.items buffer.new.items result }
    ensures bytes { S.tells source.old ≡ true
        → buffer.new.items ++ S.left source.new ≡ buffer.old.items ++ S.left source.old }
    ensures end { S.tells source.old ≡ true → result ≡ Filled.Bytes 0 → S.left source.new ≡ [] }
    ensures untouched { result ≡ Filled.NoMemory → source.new ≡ source.old }
    ensures tells { S.tells source.old ≡ true → S.tells source.new ≡ true }
    ensures read_fault { TellsFault (result ≡ Filled.Failed) (S.faults source.old) (S.faults source.new) }
    ensures never_falls { S.faults source.old ≤ S.faults source.new }
{
    let length = buffer.len();
    if buffer.resize(length + ROOM, 0).is_err() {
        return Filled::NoMemory;
    }
    match take_behind(source, buffer, length) {
        Taken::Bytes(count) => {
            buffer.truncate(length + count);
            Filled::Bytes(count)
        }
        Taken::Failed => {
            buffer.truncate(length);
            Filled::Failed
        }
    }
}

/// Takes bytes of the source into the buffer from a place on.
fn take_behind<S: Source>(source: &mut S, buffer: &mut Vec<u8>, from: usize) -> Taken
    requires { from ≤ vec_len buffer.old }
    ensures prefix { take from buffer.new.items ≡ take from buffer.old.items }
    ensures len { vec_len buffer.new ≡ vec_len buffer.old }
    ensures fits { FitsBuffer result (drop from buffer.new.items) }
    ensures bytes { S.tells source.old ≡ true
        → Takes (S.left source.old) (S.left source.new) result (drop from buffer.new.items) }
    ensures tells { S.tells source.old ≡ true → S.tells source.new ≡ true }
    ensures read_fault { TellsFault (result ≡ Taken.Failed) (S.faults source.old) (S.faults source.new) }
    ensures never_falls { S.faults source.old ≤ S.faults source.new }
{
    source.take(&mut buffer[from..])
}

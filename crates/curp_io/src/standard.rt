ghost use Rattle.std.specs.Prelude.{◌≡◌, is_some, unwrap_or, [], false};
ghost use Rattle.std.specs.IoError.{error_kind};
ghost use Rattle.std.specs.Io.{ReadsAtMost, WritesAtMost};
ghost use Rattle.std.specs.Io.KnownBytes.{Keeps, ReadConsumes, WriteAppends};
ghost use Rattle.curp_io.specs.Standard.{put_of, verdict_of};

use crate::sink::{Flushed, Put, Sink};
use crate::source::{Source, Taken};
use std::io;
use std::io::{ErrorKind, Read, Write};
use std::marker::Model;

/// How often a call that a signal interrupts is made before that counts as a fault.
const TRIES: u32 = 1_000;

/// What an error of a reader or a writer means.
#[derive(Clone, Copy, PartialEq, Eq)]
pub(crate) enum Verdict {
    /// A signal interrupted the call.
    Interruption,
    NoMemory,
    Fault,
}

fn verdict_of(error: &io::Error) -> Verdict
    ensures { result ≡ verdict_of (error_kind error.now) }
{
    match error.kind() {
        ErrorKind::Interrupted => Verdict::Interruption,
        ErrorKind::OutOfMemory => Verdict::NoMemory,
        _ => Verdict::Fault,
    }
}

/// A source over a reader of std, seen as the reader and the count of faults.
///
/// It tells bytes where the reader does, so none of a file or a pipe. A read that is interrupted is tried again, 1,000
/// times in all; any other error is a fault.
#[derive(Drop)]
pub struct StdSource<R> {
    reader: R,
    faults: u64,
}

impl<R> Model for StdSource<R> {
    ghost use Rattle.std.specs.Prelude.{ℕ};
    ghost use Rattle.std.specs.Coded.{coded×, coded_ℕ};

    ghost Value = { R × ℕ };

    ghost coded = { coded× R.code coded_ℕ };

    ghost view = { λ source. (source.reader, source.faults) };
}

impl<R> StdSource<R> {
    pub fn new(reader: R) -> StdSource<R>
        ensures { result ≡ (reader, 0) }
    {
        StdSource { reader, faults: 0 }
    }
}

impl<R: Read> Source for StdSource<R> {
    ghost tells = { λ source. is_some (R.remaining source.0) };

    ghost left = { λ source. unwrap_or (R.remaining source.0) [] };

    ghost faults = { λ source. source.1 };

    fn take(&mut self, buf: &mut [u8]) -> Taken {
        match read(&mut self.reader, buf) {
            Ok(count) => Taken::Bytes(count),
            Err(_) => {
                self.faults = self.faults.saturating_add(1);
                Taken::Failed
            }
        }
    }
}

/// A sink over a writer of std, seen as the writer, the count of faults, and whether the writer was flushed after the last
/// byte that it took here.
///
/// It tells bytes where the writer does, so none of a file or a pipe. A call that is interrupted is tried again, 1,000
/// times in all. Running out of memory is `NoMemory`. Any other error is a fault, and so is a write that takes no byte of a
/// piece.
#[derive(Drop)]
pub struct StdSink<W> {
    writer: W,
    faults: u64,
    flushed: bool,
}

impl<W> Model for StdSink<W> {
    ghost use Rattle.curp_io.specs.Standard.{Adapted, adapted_code};

    ghost Value = { Adapted W };

    ghost coded = { adapted_code W.code };

    ghost view = { λ sink. record { writer = sink.writer; faults = sink.faults; flushed = sink.flushed } };
}

impl<W> StdSink<W> {
    /// The writer may hold bytes back already, so it counts as not flushed.
    pub fn new(writer: W) -> StdSink<W>
        ensures { result ≡ record { writer = writer; faults = 0; flushed = false } }
    {
        StdSink {
            writer,
            faults: 0,
            flushed: false,
        }
    }

    pub fn into_inner(self) -> W
        ensures { result ≡ self.writer }
    {
        self.writer
    }
}

impl<W: Write> Sink for StdSink<W> {
    ghost tells = { λ sink. is_some (W.contents sink.writer) };

    ghost held = { λ sink. unwrap_or (W.contents sink.writer) [] };

    ghost faults = { λ sink. sink.faults };

    ghost flushed = { λ sink. sink.flushed };

    fn put(&mut self, bytes: &[u8]) -> Put {
        let put = put_of(write(&mut self.writer, bytes), bytes.len());
        match put {
            Put::Took(count) => self.flushed = self.flushed && count == 0,
            Put::Failed => self.faults = self.faults.saturating_add(1),
            Put::NoMemory => {}
        }
        put
    }

    fn flush(&mut self) -> Flushed {
        match flush(&mut self.writer) {
            Ok(()) => {
                self.flushed = true;
                Flushed::Done
            }
            Err(_) => {
                self.faults = self.faults.saturating_add(1);
                Flushed::Failed
            }
        }
    }
}

/// What the outcome of a write of so many bytes is.
fn put_of(outcome: io::Result<usize>, len: usize) -> Put
    ensures { result ≡ put_of outcome len }
{
    match outcome {
        Ok(count) if count > 0 || len == 0 => Put::Took(count),
        Err(error) if verdict_of(&error) == Verdict::NoMemory => Put::NoMemory,
        _ => Put::Failed,
    }
}

fn read<R: Read>(reader: &mut R, buf: &mut [u8]) -> io::Result<usize>
    ensures fits { ReadsAtMost result buf.new }
    ensures bytes { ReadConsumes (R.remaining reader.old) (R.remaining reader.new) result buf.new }
{
    'tries: for _ in 0..TRIES {
        match reader.read(buf) {
            Err(error) if verdict_of(&error) == Verdict::Interruption => {}
            outcome => return outcome,
        }
    }
    Err(io::Error::from(ErrorKind::Interrupted))
}

fn write<W: Write>(writer: &mut W, bytes: &[u8]) -> io::Result<usize>
    ensures fits { WritesAtMost result bytes.now }
    ensures bytes { WriteAppends (W.contents writer.old) (W.contents writer.new) result bytes.now }
{
    'tries: for _ in 0..TRIES {
        match writer.write(bytes) {
            Err(error) if verdict_of(&error) == Verdict::Interruption => {}
            outcome => return outcome,
        }
    }
    Err(io::Error::from(ErrorKind::Interrupted))
}

fn flush<W: Write>(writer: &mut W) -> io::Result<()>
    ensures { Keeps (W.contents writer.old) (W.contents writer.new) }
{
    'tries: for _ in 0..TRIES {
        match writer.flush() {
            Err(error) if verdict_of(&error) == Verdict::Interruption => {}
            outcome => return outcome,
        }
    }
    Err(io::Error::from(ErrorKind::Interrupted))
}

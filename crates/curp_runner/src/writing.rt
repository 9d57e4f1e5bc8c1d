// What is written, and passed on before a wait and in the end.
ghost use Rattle.std.specs.Prelude.{◌≡◌, ◌≢◌, true, Err, OnOk, IfErr};
ghost use Rattle.curp_io.specs.Streaming.{TellsFault, wrote_of};
ghost use Rattle.curp_io.specs.Streams.{Rose, SameCount};
ghost use Rattle.curp_runner.specs.Status.{ended, is_fault};
ghost use Rattle.curp_runner.specs.Writing.{PassesOn, PutsText};

use crate::status::Status;
use curp_io::{Flushed, Sink, Written, write_piece};

/// Writes a piece.
pub fn write<K: Sink>(sink: &mut K, bytes: &[u8]) -> Result<(), Status>
    ensures { PutsText bytes.now (wrote_of K.tells K.held K.flushed K.faults sink.old sink.new) result }
{
    match write_piece(sink, bytes) {
        Written::Whole => Ok(()),
        Written::WriteFault => Err(Status::WriteFault),
        Written::NoMemory => Err(Status::NoMemory),
    }
}

/// Passes on what the sink holds back.
pub fn pass_on<K: Sink>(sink: &mut K) -> Result<(), Status>
    ensures held { K.tells sink.old ≡ true → K.held sink.new ≡ K.held sink.old }
    ensures flushed { OnOk result (K.flushed sink.new ≡ true) }
    ensures stops { IfErr result (λ stop. stop ≡ Status.WriteFault) }
    ensures tells { K.tells sink.old ≡ true → K.tells sink.new ≡ true }
    ensures write_fault { TellsFault (result ≡ Err Status.WriteFault) (K.faults sink.old) (K.faults sink.new) }
{
    match sink.flush() {
        Flushed::Done => Ok(()),
        Flushed::Failed => Err(Status::WriteFault),
    }
}

/// How a run ends that gave this. What it wrote is passed on, unless a fault ended it.
pub fn close<K: Sink>(sink: &mut K, outcome: Result<(), Status>) -> Status
    ensures ends { result ≢ Status.WriteFault → result ≡ ended outcome }
    ensures stays { is_fault (ended outcome) ≡ true → (result ≡ ended outcome) × (sink.new ≡ sink.old) }
    ensures held { K.tells sink.old ≡ true → K.held sink.new ≡ K.held sink.old }
    ensures passes_on { PassesOn (wrote_of K.tells K.held K.flushed K.faults sink.old sink.new) result }
    ensures fault { result ≡ Status.WriteFault → outcome ≢ Err Status.WriteFault
        → Rose (K.faults sink.old) (K.faults sink.new) }
    ensures no_fault { result ≢ Status.WriteFault → SameCount (K.faults sink.old) (K.faults sink.new) }
{
    let status = Status::of_run(outcome);
    if status.is_fault() {
        return status;
    }
    match sink.flush() {
        Flushed::Done => status,
        Flushed::Failed => Status::WriteFault,
    }
}

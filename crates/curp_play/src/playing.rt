//! A script, and what playing it writes.
ghost use Rattle.std.specs.Prelude.{◌≡◌, ◌++◌, ◌∷◌, [], true, Err};
ghost use Rattle.curp_io.specs.Streaming.{TellsFault, wrote_of};
ghost use Rattle.curp_io.specs.Streams.{HoldsPart};
ghost use Rattle.curp_play.specs.Play.{HasAnOrder, text_of};
ghost use Rattle.curp_runner.specs.Reading.{script_in};
ghost use Rattle.curp_runner.specs.Writing.{PutsText};
ghost use Rattle.curp_script.specs.Script.{Whole};
ghost use Rattle.curp_play.specs.Show.{EndsMade, IsOfMaking, played};

use crate::play_script;
use curp_io::{Sink, SureSource};
use curp_runner::{Status, close, write};
use std::alloc::Global;

/// Writes a script that is read to its end, an empty line, and what playing the script writes.
pub fn write_played<K: Sink>(alloc: Global, text: &[u8], sink: &mut K) -> Status
    requires { (script_in text.now).body.ending ≡ Whole }
    ensures wrote { K.tells sink.old ≡ true → result ≡ Status.Ok
        → K.held sink.new ≡ K.held sink.old ++ played text.now }
    ensures prefix { K.tells sink.old ≡ true → HoldsPart (K.held sink.old) (K.held sink.new) (played text.now) }
    ensures order { result ≡ Status.Ok → HasAnOrder (script_in text.now) }
    ensures flushed { result ≡ Status.Ok → K.flushed sink.new ≡ true }
    ensures of_making { IsOfMaking result }
    ensures complete { EndsMade result (K.faults sink.old) (K.faults sink.new) }
    ensures write_fault { TellsFault (result ≡ Status.WriteFault) (K.faults sink.old) (K.faults sink.new) }
{
    match write_script(text, sink) {
        Ok(()) => play_text(alloc, text, sink),
        Err(stop) => close(sink, Err(stop)),
    }
}

/// Writes a script, and an empty line.
fn write_script<K: Sink>(text: &[u8], sink: &mut K) -> Result<(), Status>
    ensures { PutsText (text.now ++ 10 ∷ []) (wrote_of K.tells K.held K.flushed K.faults sink.old sink.new) result }
{
    write(sink, text)?;
    write(sink, b"\n")
}

/// Plays a script that is read to its end. Nothing that is read can fail.
fn play_text<K: Sink>(alloc: Global, text: &[u8], sink: &mut K) -> Status
    requires { (script_in text.now).body.ending ≡ Whole }
    ensures wrote { K.tells sink.old ≡ true → result ≡ Status.Ok
        → K.held sink.new ≡ K.held sink.old ++ text_of (script_in text.now) }
    ensures prefix { K.tells sink.old ≡ true
        → HoldsPart (K.held sink.old) (K.held sink.new) (text_of (script_in text.now)) }
    ensures order { result ≡ Status.Ok → HasAnOrder (script_in text.now) }
    ensures flushed { result ≡ Status.Ok → K.flushed sink.new ≡ true }
    ensures of_making { IsOfMaking result }
    ensures complete { EndsMade result (K.faults sink.old) (K.faults sink.new) }
    ensures write_fault { TellsFault (result ≡ Status.WriteFault) (K.faults sink.old) (K.faults sink.new) }
{
    match SureSource::new(alloc, text) {
        Ok(mut source) => play_script(alloc, &mut source, sink),
        Err(_) => close(sink, Err(Status::NoMemory)),
    }
}

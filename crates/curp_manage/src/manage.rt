ghost use Rattle.std.specs.Prelude.{◌≡◌, ◌≢◌, ◌⊎◌, ◌+◌, ◌≤◌, [], true, false, ⊤};
ghost use Rattle.curp_io.specs.Streaming.{TellsFault, wrote_of};
ghost use Rattle.curp_manage.specs.Lines.{manage_script_in};
ghost use Rattle.curp_manage.specs.Text.{HoldsManaged, manage_says, managed, managed_of, texts_of_managed};
ghost use Rattle.curp_runner.specs.Status.{EndsWhole, is_cut_short, status_of};
ghost use Rattle.curp_runner.specs.Writing.{PassesOn, WritesText};
ghost use Rattle.curp_script.specs.Script.{Whole};

use crate::managing::Managing;
use crate::outcome::push_outcome;
use curp_base::NoMemory;
use curp_io::{Sink, Source};
use curp_runner::{Player, Status, close, run, write};
use curp_script::{Header, ManageLine};
use std::alloc::Global;

/// Reads a header and orders for a manager, gives them to it, and writes what it does. Its journal stands on a disk that
/// crashes where a line says so. It takes no handle, and returns.
///
/// The text of a line is put into the sink before the next line is looked at, and passed on before the source is asked
/// for more. Input and output that don't tell their bytes, as the standard streams, still have the promises on faults
/// and on the flush. The disk is one in memory, which grows by some hundred bytes for each input since the last crash.
/// Behind a crash the journal is opened from where it stood before the input that was stopped: what is read of it, and
/// given to the manager, is what came since.
pub fn manage_orders<S: Source, K: Sink>(alloc: Global, source: &mut S, sink: &mut K) -> Status
    // It ends as the script does, read to its end or at the first line that is refused, unless a fault or want of
    // memory cuts it short.
    ensures ends { S.tells source.old ≡ true → is_cut_short result ≡ false
        → result ≡ status_of (manage_script_in (S.left source.old)).body.ending }
    ensures end { S.tells source.old ≡ true → result ≡ Status.Ok → S.left source.new ≡ [] }
    // So a script within the grammar and its limits is done to its end, where there is memory and no fault.
    ensures complete { S.tells source.old ≡ true → (manage_script_in (S.left source.old)).body.ending ≡ Whole
        → EndsWhole result (S.faults source.old) (S.faults source.new) (K.faults sink.old) (K.faults sink.new) }

    // It writes the text of the script, and passes it on.
    ensures wrote { S.tells source.old ≡ true → WritesText (managed_of (manage_script_in (S.left source.old)))
        (wrote_of K.tells K.held K.flushed K.faults sink.old sink.new) result }
    ensures passes_on { PassesOn (wrote_of K.tells K.held K.flushed K.faults sink.old sink.new) result }
    // Where reading fails, it has written what the whole lines say that it was given.
    ensures at_fault { S.tells source.old ≡ true → K.tells sink.old ≡ true → result ≡ Status.ReadFault
        → HoldsManaged (S.left source.old) (S.left source.new) (K.held sink.old) (K.held sink.new) }
    // Before it waited for more input it had passed on what it wrote.
    ensures passed_on { result ≡ Status.ReadFault → (K.flushed sink.new ≡ true) ⊎ (sink.new ≡ sink.old) }

    // A fault comes exactly where the count of faults rose first.
    ensures read_fault { TellsFault (result ≡ Status.ReadFault) (S.faults source.old) (S.faults source.new) }
    ensures write_fault { TellsFault (result ≡ Status.WriteFault) (K.faults sink.old) (K.faults sink.new) }
    ensures never_usage { result ≢ Status.Usage }
{
    let managed = run::<Managing, S, K>(alloc, source, sink);
    close(sink, managed)
}

/// A manager does its lines: it writes what came of each, and behind them how many inputs are kept.
impl Player for Managing {
    type Line = ManageLine;

    ghost rules = { managed };

    ghost Fits = { λ number m. m.decisions + 1 ≤ number };

    ghost Holds = { λ _. ⊤ };

    ghost ending = { λ bytes. (manage_script_in bytes).body.ending };

    ghost script_text = { λ bytes. managed_of (manage_script_in bytes) };

    ghost line_texts = { λ bytes. texts_of_managed (manage_script_in bytes) };

    ghost Stands = { λ _. ⊤ };

    fn open(alloc: Global, header: &Header) -> Result<Managing, NoMemory> {
        Managing::begin(alloc, header)
    }

    #[tactic(auto, using(crate::proofs::Lines::one_more_at_most, crate::proofs::Orders::own_line), unfolding(crate::specs::Text::managed_text))]
    fn do_line(
        self,
        number: u64,
        line: &ManageLine,
        text: &mut String,
    ) -> Result<Managing, NoMemory> {
        let first = self.next();
        let (managing, outcome) = self.obey(line)?;
        push_outcome(text, number, first, &outcome)?;
        Ok(managing)
    }

    fn write_end<K: Sink>(&self, alloc: Global, _number: u64, sink: &mut K) -> Result<(), Status> {
        let text = format!(in alloc; "decisions {}\n", self.decisions())?;
        write(sink, text.as_bytes())
    }

    ghost says = { manage_says };
}

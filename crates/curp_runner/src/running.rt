ghost use Rattle.std.specs.Prelude.{◌≡◌, ◌≢◌, ◌⊎◌, ◌+◌, ◌≤◌, ◌++◌, ℕ, [], true, false, List, None, Err, Ok, OnOk, IfOk, string_bytes};
ghost use Rattle.curp_io.specs.Streaming.{TellsFault, wrote_of};
ghost use Rattle.curp_io.specs.Streams.{HoldsPart};
ghost use Rattle.curp_msg.specs.Limits.{step_limit};
ghost use Rattle.curp_msg.specs.declared.script.Header.{Header};
ghost use Rattle.curp_runner.specs.Reading.{HoldsRead, IsBehind, IsSaid, due};
ghost use Rattle.curp_runner.specs.Run.{Rules, SaysOfBytes, after, line_texts_in, text_due};
ghost use Rattle.curp_runner.specs.Status.{ended, is_cut_short, status_of};
ghost use Rattle.curp_runner.specs.Writing.{PutsText, WritesText};
ghost use Rattle.curp_script.specs.Headers.{bad_field};
ghost use Rattle.curp_script.specs.Script.{Ending};

use crate::reading::{ScriptLine, ScriptReader};
use crate::status::Status;
use crate::writing::write;
use curp_base::NoMemory;
use curp_io::{Sink, Source};
use curp_script::Header;
use std::alloc::Global;

/// What does the lines of a script one by one.
pub trait Player: Drop {
    /// What a line says.
    type Line: ScriptLine;

    /// What a header opens, what lines lead to, and the texts of them.
    ghost rules: { Rules Self.Line Self };

    /// What holds of it before the line of that number.
    ghost Fits: { ℕ → Self → Type 0 };

    /// What holds of it once its closing text is written.
    ghost Holds: { Self → Type 0 };

    /// How a script of these bytes ends, as all that follows in the words of who plays it.
    ghost ending: { List ℕ → Ending };

    /// The text of a script of these bytes.
    ghost script_text: { List ℕ → List ℕ };

    /// The texts of its lines alone.
    ghost line_texts: { List ℕ → List ℕ };

    /// What stands once a script of these bytes was done to its end.
    ghost Stands: { List ℕ → Type 0 };

    /// The player of a header, before any line.
    fn open(alloc: Global, header: &Header) -> Result<Self, NoMemory>
        requires { bad_field header.now ≡ None }
        ensures opening { IfOk result (λ player. player ≡ rules.opening header.now) }
        ensures fits { IfOk result (λ player. Fits 1 player) };

    /// Does what a line says, and adds its text. After running out of memory a part of it may stand there.
    fn do_line(self, number: u64, line: &Self::Line, text: &mut String) -> Result<Self, NoMemory>
        requires fits { Fits number self }
        requires counted { number ≤ step_limit }
        requires said { IsSaid Self.Line.meaning line.now }
        requires valid { Self.Line.IsValid line.now }
        ensures next { IfOk result (λ next. next ≡ rules.next self line.now) }
        ensures text { OnOk result (string_bytes text.new ≡ string_bytes text.old ++ rules.text number self line.now) }
        ensures fits { IfOk result (λ next. Fits (number + 1) next) };

    /// Writes the closing text, behind as many lines as are before that number.
    fn write_end<K: Sink>(&self, alloc: Global, number: u64, sink: &mut K) -> Result<(), Status>
        requires fits { Fits number self.now }
        requires counted { number ≤ step_limit + 1 }
        ensures puts { PutsText (rules.closing self.now)
            (wrote_of K.tells K.held K.flushed K.faults sink.old sink.new) result }
        ensures holds { OnOk result (Holds self.now) };

    /// What is said of bytes is what their lines mean and do.
    ghost says: { SaysOfBytes Self.Line.meaning rules Holds ending script_text line_texts Stands };
}

/// Reads a script, does what its lines say, and writes what comes of it.
///
/// The text of a line is put into the sink before the next line is looked at, and passed on before the source is asked
/// for more: who waits for it has it while the source is waited for. A sink that holds back what it is given until then
/// makes one call of the lines that came together.
pub fn run<P: Player, S: Source, K: Sink>(
    alloc: Global,
    source: &mut S,
    sink: &mut K,
) -> Result<(), Status>
    ensures ends { S.tells source.old ≡ true → is_cut_short (ended result) ≡ false
        → ended result ≡ status_of (P.ending (S.left source.old)) }
    ensures end { S.tells source.old ≡ true → OnOk result (S.left source.new ≡ []) }
    ensures wrote { S.tells source.old ≡ true → WritesText (P.script_text (S.left source.old))
        (wrote_of K.tells K.held K.flushed K.faults sink.old sink.new) (ended result) }
    ensures at_fault { S.tells source.old ≡ true → K.tells sink.old ≡ true → result ≡ Err Status.ReadFault
        → HoldsRead P.line_texts (S.left source.old) (S.left source.new) (K.held sink.old) (K.held sink.new) }
    ensures passed_on { result ≡ Err Status.ReadFault → (K.flushed sink.new ≡ true) ⊎ (sink.new ≡ sink.old) }
    ensures stands { S.tells source.old ≡ true → OnOk result (P.Stands (S.left source.old)) }
    ensures tells { K.tells sink.old ≡ true → K.tells sink.new ≡ true }
    ensures read_fault { TellsFault (result ≡ Err Status.ReadFault) (S.faults source.old) (S.faults source.new) }
    ensures write_fault { TellsFault (result ≡ Err Status.WriteFault) (K.faults sink.old) (K.faults sink.new) }
    ensures never_usage { result ≢ Err Status.Usage }
    ensures never_ok { result ≢ Err Status.Ok }
{
    let mut script = ScriptReader::new(alloc)?;
    let header = script.read_header(source)?;
    let player = P::open(alloc, &header)?;
    do_lines(alloc, player, &mut script, source, sink)
}

/// Does what the lines behind a header say, and writes what comes of them.
fn do_lines<P: Player, S: Source, K: Sink>(
    alloc: Global,
    mut player: P,
    script: &mut ScriptReader<P::Line>,
    source: &mut S,
    sink: &mut K,
) -> Result<(), Status>
    requires behind { IsBehind script.old 1 }
    requires fits { P.Fits 1 player }
    ensures ends { S.tells source.old ≡ true → is_cut_short (ended result) ≡ false
        → ended result ≡ status_of (due P.Line.meaning script.old (S.left source.old)).ending }
    ensures end { S.tells source.old ≡ true → OnOk result (S.left source.new ≡ []) }
    ensures wrote { S.tells source.old ≡ true → K.tells sink.old ≡ true → is_cut_short (ended result) ≡ false
        → K.held sink.new
        ≡ K.held sink.old ++ text_due P.rules 1 player (due P.Line.meaning script.old (S.left source.old)) }
    ensures prefix { S.tells source.old ≡ true → K.tells sink.old ≡ true → HoldsPart (K.held sink.old) (K.held sink.new)
        (text_due P.rules 1 player (due P.Line.meaning script.old (S.left source.old))) }
    ensures at_fault { S.tells source.old ≡ true → K.tells sink.old ≡ true → result ≡ Err Status.ReadFault
        → HoldsRead (line_texts_in P.Line.meaning P.rules player) (script.old.ahead ++ S.left source.old)
        (S.left source.new) (K.held sink.old) (K.held sink.new) }
    ensures passed_on { result ≡ Err Status.ReadFault → K.flushed sink.new ≡ true }
    ensures holds { S.tells source.old ≡ true
        → OnOk result (P.Holds (after P.rules player (due P.Line.meaning script.old (S.left source.old)).lines)) }
    ensures tells { K.tells sink.old ≡ true → K.tells sink.new ≡ true }
    ensures read_fault { TellsFault (result ≡ Err Status.ReadFault) (S.faults source.old) (S.faults source.new) }
    ensures write_fault { TellsFault (result ≡ Err Status.WriteFault) (K.faults sink.old) (K.faults sink.new) }
    ensures never_usage { result ≢ Err Status.Usage }
    ensures never_ok { result ≢ Err Status.Ok }
{
    let mut text = String::new(alloc);
    let mut number = 1;
    'lines: while let Some(line) = script.read_line(number, source, sink)? {
        player = do_line(player, number, &line, &mut text, sink)?;
        number += 1;
    }
    player.write_end(alloc, number, sink)
}

/// Does what a line says, and writes its text.
fn do_line<P: Player, K: Sink>(
    player: P,
    number: u64,
    line: &P::Line,
    text: &mut String,
    sink: &mut K,
) -> Result<P, Status>
    requires fits { P.Fits number player }
    requires counted { number ≤ step_limit }
    requires said { IsSaid P.Line.meaning line.now }
    requires valid { P.Line.IsValid line.now }
    ensures next { IfOk result (λ next. next ≡ P.rules.next player line.now) }
    ensures puts { PutsText (P.rules.text number player line.now)
        (wrote_of K.tells K.held K.flushed K.faults sink.old sink.new) result }
    ensures fits { IfOk result (λ next. P.Fits (number + 1) next) }
{
    text.clear();
    let player = player.do_line(number, line, text)?;
    write(sink, text.as_bytes())?;
    Ok(player)
}

ghost use Rattle.std.specs.Prelude.{◌≡◌, ◌≢◌, ◌+◌, ◌≤◌, ◌++◌, ℕ, [], true, None, Some, List, Ok, Err, Result, OnOk, IfOk, IfErr, IfSome, ⊤};
ghost use Rattle.curp_io.specs.Streaming.{TellsFault};
ghost use Rattle.curp_io.specs.Text.{lines_of, nothing_read};
ghost use Rattle.curp_base.specs.Failing.{Gives};
ghost use Rattle.curp_script.specs.Grammar.{header_in, step_in};
ghost use Rattle.curp_script.specs.Headers.{bad_field};
ghost use Rattle.curp_script.specs.Manage.{HasCall, manage_in};
ghost use Rattle.curp_script.specs.declared.error.LineError.{LineError};
ghost use Rattle.curp_msg.specs.Limits.{step_limit};
ghost use Rattle.curp_runner.specs.Reading.{GivesSaid, HasNoHeader, IsBehind, IsNoHeader, IsOfReading, IsSaid};
ghost use Rattle.curp_runner.specs.Reading.{LeavesLess, ReadsLine, Said, StopsAs, due, script_by, with_line};

use crate::status::Status;
use crate::writing::pass_on;
use curp_base::{Failed, NoMemory};
use curp_io::{Lines, NextLine, Sink, Source};
use curp_msg::STEP_LIMIT;
use curp_script::{Header, LineError, LineReader, ManageLine, Step};
use std::alloc::Global;
use std::marker::{Model, PhantomData};

/// What a line behind the header of a script says.
pub trait ScriptLine: Drop {
    /// What a line says, or why it is none.
    ghost meaning: { List ℕ → Result Self LineError };

    /// What holds of each that is read.
    ghost IsValid: { Self → Type 0 };

    /// Reads a line. `NoMemory` says nothing of it.
    fn parse(reader: &mut LineReader, line: &[u8]) -> Result<Self, Failed<LineError>>
        ensures reads { Gives (meaning line.now) result }
        ensures valid { IfOk result IsValid };
}

impl ScriptLine for Step {
    ghost meaning = { step_in };

    ghost IsValid = { λ _. ⊤ };

    fn parse(reader: &mut LineReader, line: &[u8]) -> Result<Step, Failed<LineError>> {
        reader.parse_line(line)
    }
}

impl ScriptLine for ManageLine {
    ghost meaning = { manage_in };

    ghost IsValid = { HasCall };

    fn parse(reader: &mut LineReader, line: &[u8]) -> Result<ManageLine, Failed<LineError>> {
        reader.parse_order(line)
    }
}

/// Reads a script line by line. Contracts see the lines read so far.
#[derive(Drop)]
pub(crate) struct ScriptReader<L> {
    lines: Lines,
    line_reader: LineReader,
    says: PhantomData<L>,
}

impl<L> Model for ScriptReader<L> {
    ghost use Rattle.curp_io.specs.Text.{Progress};

    ghost Value = { Progress };

    ghost view = { λ r. r.lines };
}

impl<L: ScriptLine> ScriptReader<L> {
    pub(crate) fn new(alloc: Global) -> Result<ScriptReader<L>, NoMemory>
        ensures { IfOk result (λ reader. reader ≡ nothing_read) }
    {
        Ok(ScriptReader {
            lines: Lines::new(alloc)?,
            line_reader: LineReader::new(alloc),
            says: PhantomData,
        })
    }

    /// Reads the header of the script, which is its first line. An input without any line is refused as if its first
    /// line were no JSON.
    pub(crate) fn read_header<S: Source>(&mut self, source: &mut S) -> Result<Header, Status>
        requires { self.old ≡ nothing_read }
        ensures opened { S.tells source.old ≡ true
            → IfOk result (λ header. script_by L.meaning (lines_of (S.left source.old))
            ≡ record { header = Some header; body = due L.meaning self.new (S.left source.new) }) }
        ensures refused { S.tells source.old ≡ true
            → IfErr result (HasNoHeader (script_by L.meaning (lines_of (S.left source.old)))) }
        ensures line { S.tells source.old ≡ true → IfOk result (λ header. ReadsLine header_in (S.left source.old) header
            (self.new.ahead ++ S.left source.new)) }
        ensures fault { S.tells source.old ≡ true → result ≡ Err Status.ReadFault
            → LeavesLess (S.left source.old) self.new.ahead (S.left source.new) }
        ensures valid { IfOk result (λ header. bad_field header ≡ None) }
        ensures goes_on { OnOk result (IsBehind self.new 1) }
        ensures reading { IfErr result IsOfReading }
        ensures tells { S.tells source.old ≡ true → S.tells source.new ≡ true }
        ensures read_fault { TellsFault (result ≡ Err Status.ReadFault) (S.faults source.old) (S.faults source.new) }
    {
        match self.lines.next_line(source) {
            NextLine::Line => header_of_line(&mut self.line_reader, self.lines.text()),
            NextLine::End => Err(Status::BadLine {
                line: 1,
                reason: LineError::BadJson,
            }),
            NextLine::ReadFault => Err(Status::ReadFault),
            NextLine::TooLong { at } => Err(Status::LineTooLong { line: at }),
        }
    }

    /// Reads what the line of the step of that number says, which is the line behind it. None is left at the end of the
    /// script. What the sink holds back is passed on before the source is asked for more.
    pub(crate) fn read_line<S: Source, K: Sink>(
        &mut self,
        number: u64,
        source: &mut S,
        sink: &mut K,
    ) -> Result<Option<L>, Status>
        requires behind { IsBehind self.old number }
        requires counted { number ≤ step_limit + 1 }
        ensures due { S.tells source.old ≡ true → GivesSaid (due L.meaning self.old (S.left source.old)) result
            (due L.meaning self.new (S.left source.new)) }
        ensures line { S.tells source.old ≡ true → IfOk result (λ read. IfSome read (λ line. ReadsLine L.meaning
            (self.old.ahead ++ S.left source.old) line (self.new.ahead ++ S.left source.new))) }
        ensures fault { S.tells source.old ≡ true → result ≡ Err Status.ReadFault
            → LeavesLess (self.old.ahead ++ S.left source.old) self.new.ahead (S.left source.new) }
        ensures end { S.tells source.old ≡ true → result ≡ Ok None → S.left source.new ≡ [] }
        ensures goes_on { IfOk result (λ read. IfSome read (λ line. IsBehind self.new (number + 1))) }
        ensures counted { IfOk result (λ read. IfSome read (λ line. number ≤ step_limit)) }
        ensures said { IfOk result (λ read. IfSome read (λ line. IsSaid L.meaning line)) }
        ensures valid { IfOk result (λ read. IfSome read L.IsValid) }
        ensures held { K.tells sink.old ≡ true → K.held sink.new ≡ K.held sink.old }
        ensures passed_on { result ≡ Err Status.ReadFault → K.flushed sink.new ≡ true }
        ensures source_tells { S.tells source.old ≡ true → S.tells source.new ≡ true }
        ensures sink_tells { K.tells sink.old ≡ true → K.tells sink.new ≡ true }
        ensures read_fault { TellsFault (result ≡ Err Status.ReadFault) (S.faults source.old) (S.faults source.new) }
        ensures write_fault { TellsFault (result ≡ Err Status.WriteFault) (K.faults sink.old) (K.faults sink.new) }
        ensures never_usage { result ≢ Err Status.Usage }
        ensures never_ok { result ≢ Err Status.Ok }
    {
        if let Some(line) = self.ready_line(number)? {
            return Ok(Some(line));
        }
        pass_on(sink)?;
        self.wait_for_line(number, source, sink)
    }

    /// Reads a line that was read ahead whole. None says that there is no such line.
    fn ready_line(&mut self, number: u64) -> Result<Option<L>, Status>
        requires behind { IsBehind self.old number }
        requires counted { number ≤ step_limit + 1 }
        ensures due { (left : List ℕ) → result ≢ Ok None
            → GivesSaid (due L.meaning self.old left) result (due L.meaning self.new left) }
        ensures line { (left : List ℕ) → IfOk result (λ read. IfSome read (λ line. ReadsLine L.meaning
            (self.old.ahead ++ left) line (self.new.ahead ++ left))) }
        ensures not_ready { result ≡ Ok None → self.new ≡ record self.old { line = [] } }
        ensures goes_on { IfOk result (λ read. IfSome read (λ line. IsBehind self.new (number + 1))) }
        ensures counted { IfOk result (λ read. IfSome read (λ line. number ≤ step_limit)) }
        ensures said { IfOk result (λ read. IfSome read (λ line. IsSaid L.meaning line)) }
        ensures valid { IfOk result (λ read. IfSome read L.IsValid) }
        ensures reading { IfErr result IsOfReading }
        ensures never_read { result ≢ Err Status.ReadFault }
    {
        if !self.lines.ready_line() {
            return Ok(None);
        }
        let line = line_of_text(&mut self.line_reader, number, self.lines.text())?;
        Ok(Some(line))
    }

    /// Reads a line, for which the source may be asked. The sink holds nothing back meanwhile: who sends the lines may
    /// wait for what it was told of them.
    fn wait_for_line<S: Source, K: Sink>(
        &mut self,
        number: u64,
        source: &mut S,
        sink: &K,
    ) -> Result<Option<L>, Status>
        requires behind { IsBehind self.old number }
        requires counted { number ≤ step_limit + 1 }
        requires passed_on { K.flushed sink.now ≡ true }
        ensures due { S.tells source.old ≡ true → GivesSaid (due L.meaning self.old (S.left source.old)) result
            (due L.meaning self.new (S.left source.new)) }
        ensures line { S.tells source.old ≡ true → IfOk result (λ read. IfSome read (λ line. ReadsLine L.meaning
            (self.old.ahead ++ S.left source.old) line (self.new.ahead ++ S.left source.new))) }
        ensures fault { S.tells source.old ≡ true → result ≡ Err Status.ReadFault
            → LeavesLess (self.old.ahead ++ S.left source.old) self.new.ahead (S.left source.new) }
        ensures end { S.tells source.old ≡ true → result ≡ Ok None → S.left source.new ≡ [] }
        ensures goes_on { IfOk result (λ read. IfSome read (λ line. IsBehind self.new (number + 1))) }
        ensures counted { IfOk result (λ read. IfSome read (λ line. number ≤ step_limit)) }
        ensures said { IfOk result (λ read. IfSome read (λ line. IsSaid L.meaning line)) }
        ensures valid { IfOk result (λ read. IfSome read L.IsValid) }
        ensures reading { IfErr result IsOfReading }
        ensures tells { S.tells source.old ≡ true → S.tells source.new ≡ true }
        ensures read_fault { TellsFault (result ≡ Err Status.ReadFault) (S.faults source.old) (S.faults source.new) }
    {
        match self.lines.next_line(source) {
            NextLine::Line => {
                let text = self.lines.text();
                let line = line_of_text(&mut self.line_reader, number, text)?;
                Ok(Some(line))
            }
            NextLine::End => Ok(None),
            NextLine::ReadFault => Err(Status::ReadFault),
            NextLine::TooLong { at } => Err(Status::LineTooLong { line: at }),
        }
    }
}

/// The header that the first line is.
fn header_of_line(line_reader: &mut LineReader, text: &[u8]) -> Result<Header, Status>
    ensures ok { IfOk result (λ header. header_in text.now ≡ Ok header) }
    ensures err { IfErr result (IsNoHeader (header_in text.now)) }
    ensures valid { IfOk result (λ header. bad_field header ≡ None) }
    ensures reading { IfErr result IsOfReading }
    ensures never_read { result ≢ Err Status.ReadFault }
{
    match line_reader.parse_header(text) {
        Ok(header) => Ok(header),
        Err(failed) => Err(Status::refused_at(1, failed)),
    }
}

/// Reads what the line of the step of that number says.
fn line_of_text<L: ScriptLine>(
    line_reader: &mut LineReader,
    number: u64,
    text: &[u8],
) -> Result<L, Status>
    requires { number ≤ step_limit + 1 }
    ensures gives { IfOk result (λ line. L.meaning text.now ≡ Ok line) }
    ensures counted { OnOk result (number ≤ step_limit) }
    ensures valid { IfOk result L.IsValid }
    ensures stops { (more : Said L) → IfErr result (StopsAs (with_line (number + 1) (L.meaning text.now) more)) }
    ensures reading { IfErr result IsOfReading }
    ensures never_read { result ≢ Err Status.ReadFault }
{
    let line = match L::parse(line_reader, text) {
        Ok(line) => line,
        Err(failed) => return Err(Status::refused_at(number + 1, failed)),
    };
    if number > STEP_LIMIT {
        return Err(Status::TooManySteps);
    }
    Ok(line)
}

ghost use Rattle.std.specs.Prelude.{◌≡◌, ◌≢◌, ◌↔◌, ◌+◌, ◌<◌, ◌≤◌, ◌++◌, [], true, false, Ok, Err, OnOk, IfErr};
ghost use Rattle.curp_io.specs.Streaming.{TellsFault};
ghost use Rattle.curp_io.specs.Streams.{HoldsPart};
ghost use Rattle.curp_check.specs.Claim.{ClaimText, Claimed, IsClaimOfOrder, claim_in, claim_limit, nothing_claimed, with_read};
ghost use Rattle.curp_check.specs.declared.verdict.Clause.{Clause};
ghost use Rattle.curp_script.specs.Events.{event_in};
ghost use Rattle.curp_base.specs.Failing.{IfBecause};
ghost use Rattle.curp_script.specs.Script.{Whole};
ghost use Rattle.curp_runner.specs.Reading.{IsBehind, IsOfReading, IsOfWriting};
ghost use Rattle.curp_runner.specs.Status.{ended, is_cut_short};
ghost use Rattle.curp_runner.specs.Check.{EndsAs, EndsJudged, GivesLineOf, IsBrokenClaim, IsJudgedPrefix, StopsAt, after_line, claim_due, is_verdict, status_of_verdict, verdict_text};

use crate::{Status, close, write};
use curp_base::Failed;
use curp_check::{CLAIM_LIMIT, Claim, Verdict, check};
use curp_io::{Lines, NextLine, Sink, Source};
use curp_script::{LineError, LineReader};
use std::alloc::Global;

/// Reads a history and the order that is claimed for it, and writes whether the order is one of the history: *yes*, or
/// *no* with the number of the first clause that fails. It takes no handle, and returns.
///
/// Nothing is written before the end of the input.
pub fn check_claim<S: Source, K: Sink>(alloc: Global, source: &mut S, sink: &mut K) -> Status
    // It ends with the verdict on the claim, read to its end, or at the first line that is refused, is too long or is
    // one too many, unless a fault or running out of memory cuts it short.
    ensures ends { S.tells source.old ≡ true → is_cut_short result ≡ false → EndsAs (S.left source.old) result }
    ensures yes { S.tells source.old ≡ true → is_cut_short result ≡ false
        → (result ≡ Status.Ok) ↔ IsClaimOfOrder (S.left source.old) }
    ensures no { (clause : Clause) → S.tells source.old ≡ true → is_cut_short result ≡ false
        → (result ≡ Status.No clause) ↔ IsBrokenClaim (S.left source.old) clause }
    ensures end { S.tells source.old ≡ true → is_verdict result ≡ true → S.left source.new ≡ [] }
    ensures complete { S.tells source.old ≡ true → (claim_in (S.left source.old)).ending ≡ Whole
        → EndsJudged result (S.faults source.old) (S.faults source.new) (K.faults sink.old) (K.faults sink.new) }

    // It writes the verdict, if there is one, and passes it on; where it is cut short, it writes a prefix of it.
    ensures wrote { K.tells sink.old ≡ true → is_cut_short result ≡ false
        → K.held sink.new ≡ K.held sink.old ++ verdict_text result }
    ensures prefix { S.tells source.old ≡ true → K.tells sink.old ≡ true
        → IsJudgedPrefix (S.left source.old) (K.held sink.old) (K.held sink.new) }
    ensures flushed { is_cut_short result ≡ false → K.flushed sink.new ≡ true }

    // A fault comes exactly where the count of faults rose first.
    ensures read_fault { TellsFault (result ≡ Status.ReadFault) (S.faults source.old) (S.faults source.new) }
    ensures write_fault { TellsFault (result ≡ Status.WriteFault) (K.faults sink.old) (K.faults sink.new) }
    ensures never_usage { result ≢ Status.Usage }
{
    let judged = judge(alloc, source, sink);
    close(sink, judged)
}

// Reads a claim, and writes the verdict on it. A verdict that is no yes is an error here.
fn judge<S: Source, K: Sink>(alloc: Global, source: &mut S, sink: &mut K) -> Result<(), Status>
    ensures ends { S.tells source.old ≡ true → is_cut_short (ended result) ≡ false
        → EndsAs (S.left source.old) (ended result) }
    ensures end { S.tells source.old ≡ true → is_verdict (ended result) ≡ true → S.left source.new ≡ [] }
    ensures wrote { K.tells sink.old ≡ true → is_cut_short (ended result) ≡ false
        → K.held sink.new ≡ K.held sink.old ++ verdict_text (ended result) }
    ensures prefix { S.tells source.old ≡ true → K.tells sink.old ≡ true
        → IsJudgedPrefix (S.left source.old) (K.held sink.old) (K.held sink.new) }
    ensures tells { K.tells sink.old ≡ true → K.tells sink.new ≡ true }
    ensures read_fault { TellsFault (result ≡ Err Status.ReadFault) (S.faults source.old) (S.faults source.new) }
    ensures write_fault { TellsFault (result ≡ Err Status.WriteFault) (K.faults sink.old) (K.faults sink.new) }
    ensures never_usage { result ≢ Err Status.Usage }
    ensures never_ok { result ≢ Err Status.Ok }
{
    let mut claim = Claim::new(alloc);
    let judged = judge_claim(alloc, source, &mut claim, sink);
    drop(claim);
    judged
}

fn judge_claim<S: Source, K: Sink>(
    alloc: Global,
    source: &mut S,
    claim: &mut Claim,
    sink: &mut K,
) -> Result<(), Status>
    requires { claim.old ≡ nothing_claimed }
    ensures ends { S.tells source.old ≡ true → is_cut_short (ended result) ≡ false
        → EndsAs (S.left source.old) (ended result) }
    ensures end { S.tells source.old ≡ true → is_verdict (ended result) ≡ true → S.left source.new ≡ [] }
    ensures wrote { K.tells sink.old ≡ true → is_cut_short (ended result) ≡ false
        → K.held sink.new ≡ K.held sink.old ++ verdict_text (ended result) }
    ensures prefix { S.tells source.old ≡ true → K.tells sink.old ≡ true
        → IsJudgedPrefix (S.left source.old) (K.held sink.old) (K.held sink.new) }
    ensures tells { K.tells sink.old ≡ true → K.tells sink.new ≡ true }
    ensures read_fault { TellsFault (result ≡ Err Status.ReadFault) (S.faults source.old) (S.faults source.new) }
    ensures write_fault { TellsFault (result ≡ Err Status.WriteFault) (K.faults sink.old) (K.faults sink.new) }
    ensures never_usage { result ≢ Err Status.Usage }
    ensures never_ok { result ≢ Err Status.Ok }
{
    read_claim(alloc, source, claim)?;
    let verdict = check(alloc, claim)?;
    write_verdict(alloc, verdict, sink)
}

// Writes a verdict. One that is no yes is an error here.
fn write_verdict<K: Sink>(alloc: Global, verdict: Verdict, sink: &mut K) -> Result<(), Status>
    ensures wrote { K.tells sink.old ≡ true → is_cut_short (ended result) ≡ false
        → K.held sink.new ≡ K.held sink.old ++ verdict_text (status_of_verdict verdict) }
    ensures prefix { K.tells sink.old ≡ true
        → HoldsPart (K.held sink.old) (K.held sink.new) (verdict_text (status_of_verdict verdict)) }
    ensures verdict { is_cut_short (ended result) ≡ false → ended result ≡ status_of_verdict verdict }
    ensures cut { is_cut_short (ended result) ≡ true → IfErr result IsOfWriting }
    ensures tells { K.tells sink.old ≡ true → K.tells sink.new ≡ true }
    ensures write_fault { TellsFault (result ≡ Err Status.WriteFault) (K.faults sink.old) (K.faults sink.new) }
    ensures never_ok { result ≢ Err Status.Ok }
{
    match verdict {
        Verdict::Yes => write(sink, b"yes\n"),
        Verdict::No { clause } => {
            let text = format!(in alloc; "no {}\n", clause.number())?;
            write(sink, text.as_bytes())?;
            Err(Status::No { clause })
        }
    }
}

// Reads a claim to its end.
fn read_claim<S: Source>(alloc: Global, source: &mut S, claim: &mut Claim) -> Result<(), Status>
    requires { claim.old ≡ nothing_claimed }
    ensures whole { S.tells source.old ≡ true
        → OnOk result (claim_in (S.left source.old) ≡ record { claim = claim.new; ending = Whole }) }
    ensures stops { S.tells source.old ≡ true → IfErr result (StopsAt (claim_in (S.left source.old))) }
    ensures end { S.tells source.old ≡ true → OnOk result (S.left source.new ≡ []) }
    ensures reading { IfErr result IsOfReading }
    ensures read_fault { TellsFault (result ≡ Err Status.ReadFault) (S.faults source.old) (S.faults source.new) }
{
    let mut lines = Lines::new(alloc)?;
    let mut line_reader = LineReader::new(alloc);
    let mut count = 0;
    'lines: while read_line(&mut lines, &mut line_reader, count, source, claim)? {
        count += 1;
    }
    Ok(())
}

// Reads the next line, behind so many, and adds it to the claim. Where none is left, it tells so.
fn read_line<S: Source>(
    lines: &mut Lines,
    line_reader: &mut LineReader,
    count: u64,
    source: &mut S,
    claim: &mut Claim,
) -> Result<bool, Status>
    requires behind { IsBehind lines.old count }
    requires few { count ≤ claim_limit }
    ensures due { S.tells source.old ≡ true → GivesLineOf (claim_due lines.old claim.old (S.left source.old))
        result claim.new (claim_due lines.new claim.new (S.left source.new)) }
    ensures end { S.tells source.old ≡ true → result ≡ Ok false → S.left source.new ≡ [] }
    ensures goes_on { result ≡ Ok true → IsBehind lines.new (count + 1) }
    ensures counted { result ≡ Ok true → count < claim_limit }
    ensures reading { IfErr result IsOfReading }
    ensures tells { S.tells source.old ≡ true → S.tells source.new ≡ true }
    ensures read_fault { TellsFault (result ≡ Err Status.ReadFault) (S.faults source.old) (S.faults source.new) }
{
    match lines.next_line(source) {
        NextLine::Line => {
            add_line(line_reader, count, lines.text(), claim)?;
            Ok(true)
        }
        NextLine::End => Ok(false),
        NextLine::ReadFault => Err(Status::ReadFault),
        NextLine::TooLong { at } => Err(Status::LineTooLong { line: at }),
    }
}

// Adds the line behind so many to the claim.
fn add_line(
    line_reader: &mut LineReader,
    count: u64,
    text: &[u8],
    claim: &mut Claim,
) -> Result<(), Status>
    requires few { count ≤ claim_limit }
    ensures added { OnOk result (with_read claim.old (event_in text.now) ≡ Ok claim.new) }
    ensures counted { OnOk result (count < claim_limit) }
    ensures stops { (rest : Claimed → ClaimText) → IfErr result
        (StopsAt (after_line count claim.old rest (event_in text.now))) }
    ensures reading { IfErr result IsOfReading }
    ensures never_read { result ≢ Err Status.ReadFault }
{
    if count >= CLAIM_LIMIT {
        return Err(Status::TooManyLines);
    }
    match add_text(line_reader, text, claim) {
        Ok(()) => Ok(()),
        Err(failed) => Err(Status::refused_at(count + 1, failed)),
    }
}

fn add_text(
    line_reader: &mut LineReader,
    text: &[u8],
    claim: &mut Claim,
) -> Result<(), Failed<LineError>>
    ensures added { OnOk result (with_read claim.old (event_in text.now) ≡ Ok claim.new) }
    ensures refused { IfErr result (IfBecause (λ reason. with_read claim.old (event_in text.now) ≡ Err reason)) }
{
    match line_reader.parse_event(text) {
        Ok(line) => claim.add(&line),
        Err(failed) => Err(failed),
    }
}

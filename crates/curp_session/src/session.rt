ghost use Rattle.std.specs.Prelude.{◌≡◌, ◌≢◌, ◌≤◌, ◌+◌, ◌-◌, ◌++◌, List, [], drop, take, ℕ, Bool, true, false, None, Some, Ok, Err, length, OnOk, IfOk, IfErr};
ghost use Rattle.curp_base.specs.Words.{Each};
ghost use Rattle.curp_io.specs.Streaming.{TellsFault, wrote_of};
ghost use Rattle.curp_io.specs.Streams.{HoldsPart};
ghost use Rattle.curp_law_print.specs.Ranges.{StepInRange};
ghost use Rattle.curp_law_served.specs.Served.{begun, header_of};
ghost use Rattle.curp_msg.specs.Limits.{step_limit};
ghost use Rattle.curp_msg.specs.Script.{IsHeader};
ghost use Rattle.curp_runner.specs.Reading.{script_in};
ghost use Rattle.curp_runner.specs.Status.{ended, is_cut_short};
ghost use Rattle.curp_runner.specs.Writing.{PassesOn, PutsText, WritesText};
ghost use Rattle.curp_resp.specs.Input.{Decomposes};
ghost use Rattle.curp_resp.specs.Next.{IsNextRequest, nothing_read, repeated};
ghost use Rattle.curp_resp.specs.Reply.{other_of, protocol_error, reply_of};
ghost use Rattle.curp_script.specs.Printed.{NamesNode};
ghost use Rattle.curp_script.specs.Script.{Whole};
ghost use Rattle.curp_script.specs.Texts.{line_text, lines_text};
ghost use Rattle.curp_serve.specs.Serving.{answer_in, begins, limit_in, next};
ghost use Rattle.curp_session.specs.Answering.{Aim, AnswersNext, AreReadBack, Finishes, HasAnswered, IsAt, IsOfAnswering, IsSession, aim_of, due_of, ended_by, if_replies, so_far};
ghost use Rattle.curp_session.specs.Session.{EndsSession, HoldsAnswers, Session, answered_by, fresh, most_requests, reads, reply_to, session, session_text};
ghost use Rattle.curp_words.specs.Plan.{IsRespPlan};
ghost use Rattle.curp_words.specs.declared.task.RespPlan.{RespPlan};

use curp_base::NoMemory;
use curp_cmd::{Answer, Command};
use curp_io::{Sink, Source};
use curp_law_print::{printed_scripts_are_read, step_is_in_range};
use curp_msg::Step;
use curp_print::{print_header, print_line};
use curp_resp::{Asked, NextRequest, Other, Requests, other_text, protocol_text, reply_text};
use curp_runner::{Status, close, pass_on, write};
use curp_serve::{ServeError, Served};
use curp_words::{RespOutput, RespPlan};
use std::alloc::Global;

/// How many requests may be read.
const REQUEST_LIMIT: u64 = 200_000;

/// Reads requests of Redis' protocol, has each command served by a cluster, and writes the replies; or, as the plan
/// asks, the script of the steps that the cluster made. It takes no handle, and returns.
///
/// What is due for a request is put into the sink before the next one is looked at, and passed on before the source is
/// asked for more: replies to requests that came together go out together, and who waits for one has it.
pub fn answer_requests<S: Source, K: Sink>(
    alloc: Global,
    plan: &RespPlan,
    source: &mut S,
    sink: &mut K,
) -> Status
    requires { IsRespPlan plan.now }
    // It ends by the first limit that is met, or as the input does, unless a fault or running out of memory cuts it short.
    ensures ends { (requests : List (List (List ℕ))) (rest : List ℕ) → S.tells source.old ≡ true
        → Decomposes requests (S.left source.old) rest → is_cut_short result ≡ false
        → EndsSession (session plan.now requests).served.stopped (length
        (S.left source.old) - length rest) rest result }
    // It writes the text of the session, and passes it on.
    ensures wrote { (requests : List (List (List ℕ))) (rest : List ℕ) → S.tells source.old ≡ true
        → Decomposes requests (S.left source.old) rest → WritesText (session_text plan.now requests rest)
        (wrote_of K.tells K.held K.flushed K.faults sink.old sink.new) result }
    ensures passes_on { PassesOn (wrote_of K.tells K.held K.flushed K.faults sink.old sink.new) result }
    // Where reading fails, it has written what is due for the whole requests that it was given.
    ensures at_fault { S.tells source.old ≡ true → K.tells sink.old ≡ true → result ≡ Status.ReadFault
        → HoldsAnswers plan.now (S.left source.old) (S.left source.new) (K.held sink.old) (K.held sink.new) }
    // Before it waited for more input it had passed on what it wrote.
    ensures passed_on { result ≡ Status.ReadFault → K.flushed sink.new ≡ true }

    // The script that it writes is read whole: as the header and the steps of the session.
    ensures plays { (requests : List (List (List ℕ))) (rest : List ℕ) → S.tells source.old ≡ true
        → Decomposes requests (S.left source.old) rest → is_cut_short result ≡ false
        → plan.now.output ≡ RespOutput.Script
        → script_in (session_text plan.now requests rest) ≡ record {
          header = Some (header_of plan.now.f);
          body = record { steps = (session plan.now requests).served.steps; ending = Whole };
        } }

    // A fault comes exactly where the count of faults rose first.
    ensures read_fault { TellsFault (result ≡ Status.ReadFault) (S.faults source.old) (S.faults source.new) }
    ensures write_fault { TellsFault (result ≡ Status.WriteFault) (K.faults sink.old) (K.faults sink.new) }
    ensures never_usage { result ≢ Status.Usage }
{
    printed_scripts_are_read();
    let answered = answer_all(alloc, plan, source, sink);
    close(sink, answered)
}

// Answers requests until none is left. What ends it before that is an error here.
fn answer_all<S: Source, K: Sink>(
    alloc: Global,
    plan: &RespPlan,
    source: &mut S,
    sink: &mut K,
) -> Result<(), Status>
    requires { IsRespPlan plan.now }
    ensures finishes { (requests : List (List (List ℕ))) (rest : List ℕ) → S.tells source.old ≡ true
        → Decomposes requests (S.left source.old) rest → Finishes
        (aim_of plan.now requests rest (S.left source.old) (K.held sink.old)) (K.tells sink.old) (K.held sink.new)
        (ended result) }
    ensures at_fault { S.tells source.old ≡ true → K.tells sink.old ≡ true → result ≡ Err Status.ReadFault
        → HoldsAnswers plan.now (S.left source.old) (S.left source.new) (K.held sink.old) (K.held sink.new) }
    ensures passed_on { result ≡ Err Status.ReadFault → K.flushed sink.new ≡ true }
    ensures tells { K.tells sink.old ≡ true → K.tells sink.new ≡ true }
    ensures write_fault { TellsFault (result ≡ Err Status.WriteFault) (K.faults sink.old) (K.faults sink.new) }
    ensures read_fault { TellsFault (result ≡ Err Status.ReadFault) (S.faults source.old) (S.faults source.new) }
    ensures never_usage { result ≢ Err Status.Usage }
{
    let mut requests = Requests::new(alloc)?;
    let mut served = Served::begin(alloc, plan.f, plan.every)?;
    let answered = answer_begun(alloc, plan, &mut requests, &mut served, source, sink);
    drop(requests);
    drop(served);
    answered
}

fn answer_begun<S: Source, K: Sink>(
    alloc: Global,
    plan: &RespPlan,
    requests: &mut Requests,
    served: &mut Served,
    source: &mut S,
    sink: &mut K,
) -> Result<(), Status>
    requires fits { IsRespPlan plan.now }
    requires fresh { requests.old ≡ nothing_read }
    requires begun { served.old ≡ begins plan.now.f plan.now.every }
    ensures finishes { (requests : List (List (List ℕ))) (rest : List ℕ) → S.tells source.old ≡ true
        → Decomposes requests (S.left source.old) rest → Finishes
        (aim_of plan.now requests rest (S.left source.old) (K.held sink.old)) (K.tells sink.old) (K.held sink.new)
        (ended result) }
    ensures at_fault { S.tells source.old ≡ true → K.tells sink.old ≡ true → result ≡ Err Status.ReadFault
        → HoldsAnswers plan.now (S.left source.old) (S.left source.new) (K.held sink.old) (K.held sink.new) }
    ensures passed_on { result ≡ Err Status.ReadFault → K.flushed sink.new ≡ true }
    ensures tells { K.tells sink.old ≡ true → K.tells sink.new ≡ true }
    ensures write_fault { TellsFault (result ≡ Err Status.WriteFault) (K.faults sink.old) (K.faults sink.new) }
    ensures read_fault { TellsFault (result ≡ Err Status.ReadFault) (S.faults source.old) (S.faults source.new) }
    ensures never_usage { result ≢ Err Status.Usage }
{
    write_opening(alloc, plan.output, served, sink)?;
    let mut count = 0;
    'answers: while answer_next(alloc, plan.output, requests, count, served, source, sink)? {
        count += 1;
    }
    Ok(())
}

// Answers the next request, behind so many. Where none is left, it tells so.
fn answer_next<S: Source, K: Sink>(
    alloc: Global,
    output: RespOutput,
    requests: &mut Requests,
    count: u64,
    served: &mut Served,
    source: &mut S,
    sink: &mut K,
) -> Result<bool, Status>
    requires going { served.old.is_spent ≡ false }
    requires reading { requests.old.failed ≡ None }
    requires few { count ≤ most_requests }
    ensures next { (aim : Aim) (tells : Bool) → aim.output ≡ output → aim.f ≡ served.old.f
        → aim.every ≡ served.old.every
        → S.tells source.old ≡ true → (tells ≡ true → K.tells sink.old ≡ true)
        → IsSession aim tells (K.held sink.old) served.old.state count (requests.old.ahead
        ++ S.left source.old) requests.old.passed
        → AnswersNext aim tells (K.held sink.new) served.new.state (count + 1)
        (requests.new.ahead ++ S.left source.new) requests.new.passed result }
    ensures reads { (plan : RespPlan) (input before : List ℕ) → plan.output ≡ output → plan.f ≡ served.old.f
        → plan.every ≡ served.old.every
        → S.tells source.old ≡ true → K.tells sink.old ≡ true
        → HasAnswered plan input before (K.held sink.old) served.old.state count (requests.old.ahead ++ S.left source.old)
        → result ≡ Ok true
        → HasAnswered plan input before (K.held sink.new) served.new.state (count + 1)
        (requests.new.ahead ++ S.left source.new) }
    ensures at_fault { (plan : RespPlan) (input before : List ℕ) → plan.output ≡ output → plan.f ≡ served.old.f
        → plan.every ≡ served.old.every
        → S.tells source.old ≡ true → K.tells sink.old ≡ true
        → HasAnswered plan input before (K.held sink.old) served.old.state count (requests.old.ahead ++ S.left source.old)
        → result ≡ Err Status.ReadFault → HoldsAnswers plan input (S.left source.new) before (K.held sink.new) }
    ensures passed_on { result ≡ Err Status.ReadFault → K.flushed sink.new ≡ true }
    ensures going { result ≡ Ok true → served.new.is_spent ≡ false }
    ensures reading { result ≡ Ok true → requests.new.failed ≡ None }
    ensures few { result ≡ Ok true → count + 1 ≤ most_requests }
    ensures f { served.new.f ≡ served.old.f }
    ensures every { served.new.every ≡ served.old.every }
    ensures source_tells { S.tells source.old ≡ true → S.tells source.new ≡ true }
    ensures tells { K.tells sink.old ≡ true → K.tells sink.new ≡ true }
    ensures write_fault { TellsFault (result ≡ Err Status.WriteFault) (K.faults sink.old) (K.faults sink.new) }
    ensures read_fault { TellsFault (result ≡ Err Status.ReadFault) (S.faults source.old) (S.faults source.new) }
    ensures never_usage { result ≢ Err Status.Usage }
{
    let next = next_request(requests, source, sink)?;
    match next {
        NextRequest::Asked(asked) => {
            answer(alloc, output, served, count, asked, sink)?;
            Ok(true)
        }
        NextRequest::End => Ok(false),
        NextRequest::ReadFault => Err(Status::ReadFault),
        NextRequest::BadRequest { at } => {
            write_protocol(output, sink)?;
            Err(Status::BadRequest { at })
        }
    }
}

// Gives the next request. What the sink holds back is passed on before the source is asked for more.
fn next_request<S: Source, K: Sink>(
    requests: &mut Requests,
    source: &mut S,
    sink: &mut K,
) -> Result<NextRequest, Status>
    requires { requests.old.failed ≡ None }
    ensures bytes { S.tells source.old ≡ true
        → IfOk result (λ next. IsNextRequest (requests.old.ahead ++ S.left source.old) requests.old.passed next
        (requests.new.ahead ++ S.left source.new) requests.new.passed) }
    ensures failed { IfOk result (λ next. requests.new.failed ≡ repeated next) }
    ensures none_ahead { result ≡ Ok NextRequest.ReadFault → requests.new.ahead ≡ [] }
    ensures passed_on { result ≡ Ok NextRequest.ReadFault → K.flushed sink.new ≡ true }
    ensures held { K.tells sink.old ≡ true → K.held sink.new ≡ K.held sink.old }
    ensures stops { IfErr result (λ stop. stop ≡ Status.WriteFault) }
    ensures source_tells { S.tells source.old ≡ true → S.tells source.new ≡ true }
    ensures tells { K.tells sink.old ≡ true → K.tells sink.new ≡ true }
    ensures write_fault { TellsFault (result ≡ Err Status.WriteFault) (K.faults sink.old) (K.faults sink.new) }
    ensures read_fault { TellsFault (result ≡ Ok NextRequest.ReadFault) (S.faults source.old) (S.faults source.new) }
{
    if requests.has_request() {
        return Ok(requests.next_request(source));
    }
    pass_on(sink)?;
    Ok(wait_for_request(requests, source, sink))
}

// Gives the next request, for which the source may be asked. The sink holds nothing back meanwhile: who sends the
// requests may wait for the replies.
fn wait_for_request<S: Source, K: Sink>(
    requests: &mut Requests,
    source: &mut S,
    sink: &K,
) -> NextRequest
    requires reading { requests.old.failed ≡ None }
    requires passed_on { K.flushed sink.now ≡ true }
    ensures bytes { S.tells source.old ≡ true
        → IsNextRequest (requests.old.ahead ++ S.left source.old) requests.old.passed result
        (requests.new.ahead ++ S.left source.new) requests.new.passed }
    ensures failed { requests.new.failed ≡ repeated result }
    ensures none_ahead { result ≡ NextRequest.ReadFault → requests.new.ahead ≡ [] }
    ensures tells { S.tells source.old ≡ true → S.tells source.new ≡ true }
    ensures read_fault { TellsFault (result ≡ NextRequest.ReadFault) (S.faults source.old) (S.faults source.new) }
{
    requests.next_request(source)
}

// Answers a request, behind so many. A limit that is met is an error here.
fn answer<K: Sink>(
    alloc: Global,
    output: RespOutput,
    served: &mut Served,
    count: u64,
    asked: Asked,
    sink: &mut K,
) -> Result<(), Status>
    requires { served.old.is_spent ≡ false }
    ensures limit { (k : Session) → IsAt k served.old.state count → is_cut_short (ended result) ≡ false
        → result ≡ ended_by (reads served.old.every asked k).served.stopped }
    ensures state { (k : Session) → IsAt k served.old.state count
        → OnOk result (served.new.state ≡ (reads served.old.every asked k).served) }
    ensures wrote { (k : Session) (before : List ℕ) → K.tells sink.old ≡ true → IsAt k served.old.state count
        → K.held sink.old ≡ before ++ so_far output served.old.f k → is_cut_short (ended result) ≡ false
        → K.held sink.new ≡ before ++ so_far output served.old.f (reads served.old.every asked k) }
    ensures prefix { (k : Session) (before : List ℕ) → K.tells sink.old ≡ true → IsAt k served.old.state count
        → K.held sink.old ≡ before ++ so_far output served.old.f k
        → HoldsPart before (K.held sink.new) (so_far output served.old.f (reads served.old.every asked k)) }
    ensures printable { (k : Session) → IsAt k served.old.state count → output ≡ RespOutput.Script
        → is_cut_short (ended result) ≡ false → AreReadBack served.old.state.steps
        → AreReadBack (reads served.old.every asked k).served.steps }
    ensures counted { OnOk result (count ≢ most_requests) }
    ensures going { OnOk result (served.new.is_spent ≡ false) }
    ensures f { served.new.f ≡ served.old.f }
    ensures every { served.new.every ≡ served.old.every }
    ensures answering { IfErr result IsOfAnswering }
    ensures tells { K.tells sink.old ≡ true → K.tells sink.new ≡ true }
    ensures write_fault { TellsFault (result ≡ Err Status.WriteFault) (K.faults sink.old) (K.faults sink.new) }
{
    if count == REQUEST_LIMIT {
        return Err(Status::TooManySteps);
    }
    match asked {
        Asked::Command(command) => answer_command(alloc, output, served, command, sink),
        Asked::Other(other) => write_other(alloc, output, &other, sink),
    }
}

// Has a command served, and writes what is due for it. A limit that is met is an error here.
fn answer_command<K: Sink>(
    alloc: Global,
    output: RespOutput,
    served: &mut Served,
    command: Command,
    sink: &mut K,
) -> Result<(), Status>
    requires { served.old.is_spent ≡ false }
    ensures limit { is_cut_short (ended result) ≡ false → result ≡ ended_by (next served.old command).stopped }
    ensures state { is_cut_short (ended result) ≡ false → served.new.state ≡ next served.old command }
    ensures wrote { (k : Session) (before : List ℕ) → K.tells sink.old ≡ true → k.served ≡ served.old.state
        → K.held sink.old ≡ before ++ so_far output served.old.f k → is_cut_short (ended result) ≡ false
        → K.held sink.new ≡ before ++ so_far output served.old.f (answered_by served.old.every
        (Asked.Command command) k) }
    ensures prefix { (k : Session) (before : List ℕ) → K.tells sink.old ≡ true → k.served ≡ served.old.state
        → K.held sink.old ≡ before ++ so_far output served.old.f k
        → HoldsPart before (K.held sink.new)
        (so_far output served.old.f (answered_by served.old.every (Asked.Command command) k)) }
    ensures printable { output ≡ RespOutput.Script → is_cut_short (ended result) ≡ false
        → AreReadBack served.old.state.steps → AreReadBack (next served.old command).steps }
    ensures going { OnOk result (served.new.is_spent ≡ false) }
    ensures f { served.new.f ≡ served.old.f }
    ensures every { served.new.every ≡ served.old.every }
    ensures answering { IfErr result IsOfAnswering }
    ensures tells { K.tells sink.old ≡ true → K.tells sink.new ≡ true }
    ensures write_fault { TellsFault (result ≡ Err Status.WriteFault) (K.faults sink.old) (K.faults sink.new) }
{
    let before = served.steps().len();
    let ended = Ended::of(served.serve(command))?;
    write_due(alloc, output, ended.answer, served, before, sink)?;
    ended.limit
}

/// How a command was served: its answer, if it was completed, and the limit that was met, if one was.
#[derive(Clone, Copy)]
struct Ended {
    answer: Option<Answer>,
    limit: Result<(), Status>,
}

impl Ended {
    // Running out of memory is an error.
    fn of(served: Result<Answer, ServeError>) -> Result<Ended, Status>
        ensures answer { IfOk result (λ ended. ended.answer ≡ answer_in served) }
        ensures made { IfOk result (λ ended. served ≢ Err ServeError.NoMemory) }
        ensures no_memory { IfErr result (λ stop. stop ≡ Status.NoMemory) }
        ensures limit { IfOk result (λ ended. ended.limit ≡ ended_by (limit_in served)) }
    {
        match served {
            Ok(answer) => Ok(Ended {
                answer: Some(answer),
                limit: Ok(()),
            }),
            Err(ServeError::TooManySteps { answer }) => Ok(Ended {
                answer,
                limit: Err(Status::TooManySteps),
            }),
            Err(ServeError::TooLarge { weight, answer }) => Ok(Ended {
                answer,
                limit: Err(Status::TooLarge { weight }),
            }),
            Err(ServeError::NoMemory) => Err(Status::NoMemory),
        }
    }
}

// Writes the line of the header, where a script is written.
fn write_opening<K: Sink>(
    alloc: Global,
    output: RespOutput,
    served: &Served,
    sink: &mut K,
) -> Result<(), Status>
    requires { IsHeader (header_of served.now.f) }
    ensures { PutsText (so_far output served.now.f (fresh served.now.f))
        (wrote_of K.tells K.held K.flushed K.faults sink.old sink.new) result }
{
    match output {
        RespOutput::Replies => Ok(()),
        RespOutput::Script => write_line(print_header(alloc, served.header())?, sink),
    }
}

// Writes the reply to an answer, if there is one.
fn write_reply<K: Sink>(alloc: Global, answer: Option<Answer>, sink: &mut K) -> Result<(), Status>
    ensures { PutsText (reply_to answer) (wrote_of K.tells K.held K.flushed K.faults sink.old sink.new) result }
{
    match answer {
        Some(answer) => write(sink, &reply_text(alloc, &answer)?),
        None => Ok(()),
    }
}

// Writes the reply to a request that means no command, where replies are written.
fn write_other<K: Sink>(
    alloc: Global,
    output: RespOutput,
    other: &Other,
    sink: &mut K,
) -> Result<(), Status>
    ensures { PutsText (if_replies output (other_of other.now))
        (wrote_of K.tells K.held K.flushed K.faults sink.old sink.new) result }
{
    match output {
        RespOutput::Replies => write(sink, &other_text(alloc, other)?),
        RespOutput::Script => Ok(()),
    }
}

// Writes the reply to bytes that are no request, where replies are written.
fn write_protocol<K: Sink>(output: RespOutput, sink: &mut K) -> Result<(), Status>
    ensures { PutsText (if_replies output protocol_error)
        (wrote_of K.tells K.held K.flushed K.faults sink.old sink.new) result }
{
    match output {
        RespOutput::Replies => write(sink, protocol_text()),
        RespOutput::Script => Ok(()),
    }
}

// Writes what is due for a command that has this answer, and the steps behind so many.
fn write_due<K: Sink>(
    alloc: Global,
    output: RespOutput,
    answer: Option<Answer>,
    served: &Served,
    before: usize,
    sink: &mut K,
) -> Result<(), Status>
    requires { before ≤ length served.now.state.steps }
    ensures puts { PutsText (due_of output answer (drop before served.now.state.steps))
        (wrote_of K.tells K.held K.flushed K.faults sink.old sink.new) result }
    ensures printable { output ≡ RespOutput.Script → Each StepInRange (take before served.now.state.steps)
        → OnOk result (AreReadBack served.now.state.steps) }
{
    match output {
        RespOutput::Replies => write_reply(alloc, answer, sink),
        RespOutput::Script => write_steps(alloc, served, before, sink),
    }
}

// Writes the lines of the steps behind so many.
fn write_steps<K: Sink>(
    alloc: Global,
    served: &Served,
    before: usize,
    sink: &mut K,
) -> Result<(), Status>
    requires { before ≤ length served.now.state.steps }
    ensures puts { PutsText (lines_text (drop before served.now.state.steps))
        (wrote_of K.tells K.held K.flushed K.faults sink.old sink.new) result }
    ensures named { Each NamesNode served.now.state.steps }
    ensures few { length served.now.state.steps ≤ step_limit }
    ensures in_range { OnOk result (Each StepInRange (drop before served.now.state.steps)) }
{
    let steps = served.steps();
    write_lines(alloc, &steps[before..], sink)
}

// Writes the lines of steps.
fn write_lines<K: Sink>(alloc: Global, steps: &[Step], sink: &mut K) -> Result<(), Status>
    requires { Each NamesNode steps.now }
    ensures puts { PutsText (lines_text steps.now)
        (wrote_of K.tells K.held K.flushed K.faults sink.old sink.new) result }
    ensures in_range { OnOk result (Each StepInRange steps.now) }
{
    for step in steps {
        step_is_in_range(step);
        write_line(print_line(alloc, step)?, sink)?;
    }
    Ok(())
}

// Writes a line, with a line feed.
fn write_line<K: Sink>(mut line: Vec<u8>, sink: &mut K) -> Result<(), Status>
    ensures { PutsText (line_text line.items) (wrote_of K.tells K.held K.flushed K.faults sink.old sink.new) result }
{
    line.reserve(1)?;
    line.push_reserved(b'\n');
    write(sink, &line)
}

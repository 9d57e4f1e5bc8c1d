ghost use Rattle.std.specs.Prelude.{◌≡◌, ◌≢◌, ◌≤◌, ◌<◌, ◌^◌, ◌++◌, ◌↔◌, ℕ, List, [], true, false, None, Some, IfOk};
ghost use Rattle.curp_io.specs.Streaming.{TellsFault};
ghost use Rattle.curp_io.specs.Streams.{Rose, SameCount};
ghost use Rattle.curp_resp.specs.Feeds.{Feeds, Passes, read_on};
ghost use Rattle.curp_resp.specs.Input.{NoneStandsFirst, SomeStandsFirst, StandsFirst};
ghost use Rattle.curp_resp.specs.Meaning.{meaning};
ghost use Rattle.curp_resp.specs.Next.{BreaksOffAt, IsNextRequest, nothing_read, repeated};

use crate::asked::Asked;
use crate::reading::{Progress, Reading};
use crate::window::Window;
use curp_base::NoMemory;
use curp_io::{Source, Taken};
use std::alloc::Global;
use std::marker::Model;

/// What a call of `next_request` found.
#[derive(Clone, Copy, PartialEq, Eq)]
pub enum NextRequest {
    /// A request, by what it means.
    Asked(Asked),
    /// No byte was left.
    End,
    /// The source failed.
    ReadFault,
    /// The byte at this place, from 0, is the first that no encoding of a request allows, or the input ends inside a
    /// request and has so many bytes. A place past the end of a `u64` is told as that end.
    BadRequest { at: u64 },
}

/// Takes the bytes of a source apart into requests.
///
/// A request is `*n\r\n` and `n` bulk strings `$len\r\nbytes\r\n`, where `n` is 0 to 64 and `len` 0 to 65,536, each in
/// one to five decimal digits; or it has no arguments, and is `*-1\r\n`, `\r\n` or `\n`. Bytes that were read ahead are
/// kept here, so one source is to be read by one of these.
pub struct Requests {
    window: Window,
    failed: Option<NextRequest>,
}

impl Drop for Requests {
    fn drop(self) {
        let Requests {
            window: _,
            failed: _,
        } = self;
    }
}

impl Model for Requests {
    ghost use Rattle.std.specs.Prelude.{◌<◌, ◌^◌};
    ghost use Rattle.curp_resp.specs.Next.{RequestsRead};

    ghost Value = { RequestsRead };

    ghost view = { λ r. record { ahead = r.window.bytes; passed = r.window.passed; failed = r.failed } };

    ghost invariant = { λ r. r.window.passed < 2 ^ 64 };
}

impl NextRequest {
    /// What every later call answers after this answer, if it repeats.
    fn repeated(&self) -> Option<NextRequest>
        ensures { result ≡ repeated self.now }
    {
        match self {
            NextRequest::Asked(_) | NextRequest::End => None,
            NextRequest::ReadFault | NextRequest::BadRequest { .. } => Some(*self),
        }
    }
}

impl Requests {
    /// Takes a buffer of 65,536 bytes.
    pub fn new(alloc: Global) -> Result<Requests, NoMemory>
        ensures { IfOk result (λ requests. requests ≡ nothing_read) }
    {
        Ok(Requests {
            window: Window::new(alloc)?,
            failed: None,
        })
    }

    /// Whether a whole request is read ahead: then `next_request` gives it, and reads nothing.
    pub fn has_request(&self) -> bool
        ensures yes { result ≡ true → SomeStandsFirst self.now.ahead }
        ensures no { result ≡ false → NoneStandsFirst self.now.ahead }
    {
        begins_with_request(self.window.bytes())
    }

    /// Gives the next request of the bytes read ahead and those that the source has left. It takes no memory, and takes
    /// what the source gives at a time, and nothing while a whole request is read ahead. A read fault and a bad request
    /// are answered by every later call again, which then reads nothing.
    pub fn next_request<S: Source>(&mut self, source: &mut S) -> NextRequest
        ensures bytes { S.tells source.old ≡ true → self.old.failed ≡ None
            → IsNextRequest (self.old.ahead ++ S.left source.old) self.old.passed result
            (self.new.ahead ++ S.left source.new) self.new.passed }

        // Each answer comes where it is due, unless the source fails.
        ensures asked { S.tells source.old ≡ true → self.old.failed ≡ None → result ≢ NextRequest.ReadFault
            → (arguments : List (List ℕ)) (rest : List ℕ)
            → StandsFirst (self.old.ahead ++ S.left source.old) arguments rest
            → result ≡ NextRequest.Asked (meaning arguments) }
        ensures end { S.tells source.old ≡ true → self.old.failed ≡ None → result ≢ NextRequest.ReadFault
            → (result ≡ NextRequest.End) ↔ (self.old.ahead ++ S.left source.old ≡ []) }
        ensures bad_request { S.tells source.old ≡ true → self.old.failed ≡ None → result ≢ NextRequest.ReadFault
            → (at : ℕ) → (result ≡ NextRequest.BadRequest at)
            ↔ BreaksOffAt (self.old.ahead ++ S.left source.old) self.old.passed at }

        // A request that is read ahead is given before anything is read.
        ensures waits { (arguments : List (List ℕ)) (rest : List ℕ) → StandsFirst self.old.ahead arguments rest
            → source.new ≡ source.old }
        ensures ready { (arguments : List (List ℕ)) (rest : List ℕ) → StandsFirst self.old.ahead arguments rest
            → self.old.failed ≡ None → result ≢ NextRequest.ReadFault }
        ensures none_ahead { self.old.failed ≡ None → result ≡ NextRequest.ReadFault → self.new.ahead ≡ [] }
        ensures failed { self.old.failed ≡ None → self.new.failed ≡ repeated result }
        ensures repeats { (answer : NextRequest) → self.old.failed ≡ Some answer
            → (result ≡ answer) × (self.new ≡ self.old) × (source.new ≡ source.old) }
        ensures tells { S.tells source.old ≡ true → S.tells source.new ≡ true }
        ensures cause { self.old.failed ≡ None → result ≡ NextRequest.ReadFault
            → Rose (S.faults source.old) (S.faults source.new) }
        ensures told { result ≢ NextRequest.ReadFault → SameCount (S.faults source.old) (S.faults source.new) }
        ensures never_falls { S.faults source.old ≤ S.faults source.new }
    {
        if let Some(answer) = self.failed {
            return answer;
        }
        let answer = find_request(&mut self.window, source);
        self.failed = answer.repeated();
        answer
    }
}

/// Whether bytes begin with a whole request.
fn begins_with_request(bytes: &[u8]) -> bool
    ensures yes { result ≡ true → SomeStandsFirst bytes.now }
    ensures no { result ≡ false → NoneStandsFirst bytes.now }
{
    let mut reading = Reading::new();
    'reads: for byte in bytes {
        match reading.take(*byte) {
            Progress::More => {}
            Progress::Whole => return true,
            Progress::Refused => return false,
        }
    }
    false
}

/// Finds what is next, and reads as much as that needs.
fn find_request<S: Source>(window: &mut Window, source: &mut S) -> NextRequest
    requires { window.old.passed < 2 ^ 64 }
    ensures bytes { S.tells source.old ≡ true
        → IsNextRequest (window.old.bytes ++ S.left source.old) window.old.passed result
        (window.new.bytes ++ S.left source.new) window.new.passed }
    ensures range { window.new.passed < 2 ^ 64 }
    ensures waits { (arguments : List (List ℕ)) (rest : List ℕ) → StandsFirst window.old.bytes arguments rest
        → source.new ≡ source.old }
    ensures ready { (arguments : List (List ℕ)) (rest : List ℕ) → StandsFirst window.old.bytes arguments rest
        → result ≢ NextRequest.ReadFault }
    ensures none_ahead { result ≡ NextRequest.ReadFault → window.new.bytes ≡ [] }
    ensures tells { S.tells source.old ≡ true → S.tells source.new ≡ true }
    ensures read_fault { TellsFault (result ≡ NextRequest.ReadFault) (S.faults source.old) (S.faults source.new) }
    ensures never_falls { S.faults source.old ≤ S.faults source.new }
{
    let mut reading = Reading::new();
    'pieces: loop {
        match window.fill(source) {
            Taken::Failed => return NextRequest::ReadFault,
            Taken::Bytes(0) if reading.is_fresh() => return NextRequest::End,
            Taken::Bytes(0) => return bad_request(window),
            Taken::Bytes(_) => {}
        }
        match feed(window, &mut reading) {
            Progress::More => {}
            Progress::Whole => return NextRequest::Asked(reading.meaning()),
            Progress::Refused => return bad_request(window),
        }
    }
}

fn bad_request(window: &Window) -> NextRequest
    ensures { result ≡ NextRequest.BadRequest window.now.passed }
{
    NextRequest::BadRequest {
        at: window.passed(),
    }
}

/// Reads the bytes ahead, as far as the request goes.
fn feed(window: &mut Window, reading: &mut Reading) -> Progress
    requires { window.old.passed < 2 ^ 64 }
    ensures read { Feeds (read_on window.old.bytes reading.old) result reading.new window.new.bytes }
    ensures passes { (prefix : List ℕ) × Passes window.old window.new prefix }
{
    'bytes: while let Some(byte) = window.first() {
        match reading.take(byte) {
            Progress::More => window.pass(),
            Progress::Whole => {
                window.pass();
                return Progress::Whole;
            }
            Progress::Refused => return Progress::Refused,
        }
    }
    Progress::More
}

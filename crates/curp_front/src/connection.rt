ghost use Rattle.std.specs.Prelude.{◌≡◌, ◌≤◌, ◌++◌, ◌∷◌, [], length, map, drop, position, OnOk, OnErr, IfOk};
ghost use Rattle.curp_resp.specs.First.{first_in};
ghost use Rattle.curp_front.specs.Conversation.{came, command_of, completed, completed_due, failed, asked_command, first_command, fresh, gone, is_given};
ghost use Rattle.curp_front.specs.Conversation.{is_gone, is_over, is_overfull, is_part, is_paused, is_closed, is_served, is_serving, more_may_come, passed};
ghost use Rattle.curp_front.specs.Conversation.{said_at, said_behind, said_by, said_inside, said_of_due, said_to, settled, settled_due, taken, without_first};
ghost use Rattle.curp_front.specs.declared.due.DueReply.TheVariants as given;

use crate::due::{DueReply, InvokeRefusal};
use curp_base::NoMemory;
use curp_cmd::{Answer, Command, RequestId};
use curp_resp::{Asked, FirstRequest, Other, first_request};
use std::alloc::Global;
use std::marker::Model;

/// How many bytes of a connection may wait.
const MOST_BYTES: usize = 131_072;

/// How many replies may be due to the commands of a connection.
const MOST_DUE: usize = 16;

/// What the other end of a connection does.
#[derive(Clone, Copy)]
pub enum Peer {
    /// It may send more.
    Sending,
    /// It sent bytes, and waits until more may come.
    Paused,
    /// It sends no more.
    Gone,
}

/// How far a connection is.
#[derive(Clone, Copy)]
pub enum ConnectionStage {
    /// Its bytes are taken, and its requests served.
    Serving,
    /// More bytes came than may wait. Those that came before are served.
    Overfull,
    /// It was told an error that ends it.
    Failed,
    /// Its end was told.
    Closed,
}

/// What a connection is told.
#[derive(Clone, Copy)]
pub enum Said {
    /// More bytes may come.
    More,
    /// The answer to the first command to which a reply is due.
    Answer(Answer),
    /// Why that command wasn't invoked.
    Refused(InvokeRefusal),
    /// What its first request means, which means no command. It may be no reply, of no bytes.
    Other(Other),
    /// Its bytes begin with no request.
    Protocol,
    /// More bytes came than may wait.
    TooMuch,
    /// It ends here.
    Close,
}

impl Peer {
    fn is_gone(self) -> bool
        ensures { result ≡ is_gone self }
    {
        matches!(self, Peer::Gone)
    }

    fn is_paused(self) -> bool
        ensures { result ≡ is_paused self }
    {
        matches!(self, Peer::Paused)
    }
}

impl ConnectionStage {
    fn is_serving(self) -> bool
        ensures { result ≡ is_serving self }
    {
        matches!(self, ConnectionStage::Serving)
    }

    fn is_overfull(self) -> bool
        ensures { result ≡ is_overfull self }
    {
        matches!(self, ConnectionStage::Overfull)
    }

    /// Whether the requests that came are served.
    fn is_served(self) -> bool
        ensures { result ≡ is_served self }
    {
        matches!(self, ConnectionStage::Serving | ConnectionStage::Overfull)
    }

    fn is_closed(self) -> bool
        ensures { result ≡ is_closed self }
    {
        matches!(self, ConnectionStage::Closed)
    }
}

/// A connection. Contracts see a `Conversation`.
#[derive(Drop)]
pub(crate) struct Connection {
    number: u64,
    // Those before `start` were taken apart.
    bytes: Vec<u8>,
    start: usize,
    due: Vec<DueReply>,
    peer: Peer,
    stage: ConnectionStage,
}

impl Model for Connection {
    ghost use Rattle.std.specs.Prelude.{◌≤◌, drop, vec_len};
    ghost use Rattle.curp_front.specs.Conversation.{Conversation};

    ghost Value = { Conversation };

    ghost view = { λ c. record {
      number = c.number;
      bytes = drop c.start c.bytes.items;
      due = c.due.items;
      peer = c.peer;
      stage = c.stage;
    } };

    ghost invariant = { λ c. c.start ≤ vec_len c.bytes };
}

impl Connection {
    /// One of which nothing has come. It takes no memory.
    pub(crate) fn new(alloc: Global, number: u64) -> Connection
        ensures { result ≡ fresh number }
    {
        Connection {
            number,
            bytes: Vec::new(alloc),
            start: 0,
            due: Vec::new(alloc),
            peer: Peer::Sending,
            stage: ConnectionStage::Serving,
        }
    }

    pub(crate) fn number(&self) -> u64
        ensures { result ≡ self.now.number }
    {
        self.number
    }

    /// Whether its end was told, and no more bytes come.
    pub(crate) fn is_over(&self) -> bool
        ensures { result ≡ is_over self.now }
    {
        self.stage.is_closed() && self.peer.is_gone()
    }

    // ---- what comes

    /// Bytes came.
    pub(crate) fn on_bytes(&mut self, bytes: &[u8]) -> Result<(), NoMemory>
        ensures ok { OnOk result (self.new ≡ came bytes.now self.old) }
        ensures err { OnErr result (self.new ≡ self.old) }
    {
        if self.peer.is_gone() || !self.stage.is_serving() {
            return Ok(());
        }
        if self.waiting().len() + bytes.len() > MOST_BYTES {
            self.stage = ConnectionStage::Overfull;
            return Ok(());
        }
        self.append(bytes)?;
        self.peer = Peer::Paused;
        Ok(())
    }

    /// No more bytes come.
    pub(crate) fn on_end(&mut self)
        ensures { self.new ≡ gone self.old }
    {
        self.peer = Peer::Gone;
    }

    /// The first command that was given, and of which nothing has come so far, was invoked or refused.
    pub(crate) fn settle(&mut self, due: &DueReply)
        ensures { self.new ≡ settled due.now self.old }
    {
        settle_first(&mut self.due, due);
    }

    /// A request was completed, which may be of this connection.
    pub(crate) fn complete(&mut self, id: &RequestId, answer: &Answer)
        ensures { self.new ≡ completed id.now answer.now self.old }
    {
        complete_each(&mut self.due, id, answer);
    }

    // ---- what is to be done

    /// The command that is to be invoked next.
    pub(crate) fn command(&self) -> Option<Command>
        ensures { result ≡ command_of self.now }
    {
        if self.stage.is_served() && self.due.len() < MOST_DUE {
            command_in(&first_request(self.waiting()))
        } else {
            None
        }
    }

    /// The command that is to be invoked next is given to be invoked.
    pub(crate) fn take_command(&mut self) -> Result<Option<Command>, NoMemory>
        ensures command { IfOk result (λ command. command ≡ command_of self.old) }
        ensures ok { OnOk result (self.new ≡ taken self.old) }
        ensures err { OnErr result (self.new ≡ self.old) }
    {
        match self.command() {
            None => Ok(None),
            Some(command) => {
                add_given(&mut self.due)?;
                self.pass_first();
                Ok(Some(command))
            }
        }
    }

    /// What it is told next.
    pub(crate) fn said(&self) -> Option<Said>
        ensures { result ≡ said_by self.now }
    {
        match self.stage {
            ConnectionStage::Closed => None,
            ConnectionStage::Failed => Some(Said::Close),
            ConnectionStage::Overfull => self.said_of_due(),
            ConnectionStage::Serving => {
                if self.more_may_come() {
                    Some(Said::More)
                } else {
                    self.said_of_due()
                }
            }
        }
    }

    /// It was told this.
    pub(crate) fn pass(&mut self, said: &Said)
        ensures { self.new ≡ passed said.now self.old }
    {
        match said {
            Said::More => self.peer = Peer::Sending,
            Said::Answer(_) | Said::Refused(_) => drop_due(&mut self.due),
            Said::Other(_) => self.pass_first(),
            Said::Protocol | Said::TooMuch => self.fail(),
            Said::Close => self.stage = ConnectionStage::Closed,
        }
    }

    // ---- within

    /// The bytes that were not taken apart.
    fn waiting(&self) -> &[u8]
        ensures { result.now ≡ self.now.bytes }
    {
        &self.bytes[self.start..]
    }

    /// Whether it waits until more bytes may come, and no whole request of it waits.
    fn more_may_come(&self) -> bool
        ensures { result ≡ more_may_come self.now }
    {
        self.peer.is_paused() && is_part(&first_request(self.waiting()))
    }

    /// The first reply that is due, where it is there; or what is said of the bytes, where none is due.
    fn said_of_due(&self) -> Option<Said>
        ensures { result ≡ said_of_due self.now.due self.now }
    {
        match self.due.as_slice() {
            [] => self.said_at(first_request(self.waiting())),
            [first, ..] => first.said(),
        }
    }

    /// What is said of what stands first among the bytes.
    fn said_at(&self, first: FirstRequest) -> Option<Said>
        ensures { result ≡ said_at first self.now }
    {
        match first {
            FirstRequest::Whole { asked, .. } => said_to(&asked),
            FirstRequest::Broken => Some(Said::Protocol),
            FirstRequest::Part => self.said_inside(),
        }
    }

    /// What is said where no request is whole.
    fn said_inside(&self) -> Option<Said>
        ensures { result ≡ said_inside self.now }
    {
        if self.stage.is_overfull() {
            Some(Said::TooMuch)
        } else if self.peer.is_gone() {
            Some(said_behind(self.waiting()))
        } else {
            None
        }
    }

    /// The first request is taken apart, where one is whole.
    fn pass_first(&mut self)
        ensures { self.new ≡ without_first self.old }
    {
        if let FirstRequest::Whole { len, .. } = first_request(self.waiting()) {
            self.pass_bytes(len);
        }
    }

    /// So many bytes are taken apart.
    fn pass_bytes(&mut self, len: usize)
        requires { len ≤ length self.old.bytes }
        ensures { self.new ≡ record self.old { bytes = drop len self.old.bytes } }
    {
        self.start += len;
    }

    /// It was told an error that ends it.
    fn fail(&mut self)
        ensures { self.new ≡ failed self.old }
    {
        self.bytes.clear();
        self.start = 0;
        self.stage = ConnectionStage::Failed;
    }

    /// Bytes come behind those that wait.
    fn append(&mut self, bytes: &[u8]) -> Result<(), NoMemory>
        ensures ok { OnOk result (self.new ≡ record self.old { bytes = self.old.bytes ++ bytes.now }) }
        ensures err { OnErr result (self.new ≡ self.old) }
    {
        self.tidy();
        Ok(self.bytes.extend_from_slice(bytes)?)
    }

    /// Gives the room of what was taken apart to what comes.
    fn tidy(&mut self)
        ensures { self.new ≡ self.old }
    {
        drop_first(&mut self.bytes, self.start);
        self.start = 0;
    }
}

/// Drops so many bytes at the front.
fn drop_first(bytes: &mut Vec<u8>, count: usize)
    requires { count ≤ length bytes.old.items }
    ensures { bytes.new.items ≡ drop count bytes.old.items }
{
    if count > 0 {
        let rest = bytes.len() - count;
        bytes.copy_within(count.., 0);
        bytes.truncate(rest);
    }
}

/// The reply that is due first was told.
fn drop_due(due: &mut Vec<DueReply>)
    ensures { due.new.items ≡ drop 1 due.old.items }
{
    if !due.is_empty() {
        due.remove(0);
    }
}

/// A reply is due to one command more, which is given.
fn add_given(due: &mut Vec<DueReply>) -> Result<(), NoMemory>
    ensures ok { OnOk result (due.new.items ≡ due.old.items ++ given.Given ∷ []) }
    ensures err { OnErr result (due.new.items ≡ due.old.items) }
{
    // A `push` of a `DueReply` gets no generated proof.
    Ok(due.extend_from_slice(&[DueReply::Given])?)
}

/// Where the first stands that was given, and of which nothing has come.
fn first_given(due: &[DueReply]) -> Option<usize>
    ensures { result ≡ position is_given due.now }
{
    due.iter().position(|each| each.is_given())
}

/// That one is this from then on.
fn settle_first(due: &mut [DueReply], new: &DueReply)
    ensures { due.new ≡ settled_due new.now due.old }
{
    if let Some(at) = first_given(due) {
        due[at] = *new;
    }
}

/// A request was completed, which may be one of these.
fn complete_each(due: &mut Vec<DueReply>, id: &RequestId, answer: &Answer)
    ensures { due.new.items ≡ map (completed_due id.now answer.now) due.old.items }
{
    for at in 0..due.len() {
        due[at].complete(id, answer);
    }
}

// ---- what stands first

/// The command that it means.
fn command_in(first: &FirstRequest) -> Option<Command>
    ensures { result ≡ first_command first.now }
{
    match first {
        FirstRequest::Whole { asked, .. } => command_asked(asked),
        FirstRequest::Part | FirstRequest::Broken => None,
    }
}

fn command_asked(asked: &Asked) -> Option<Command>
    ensures { result ≡ asked_command asked.now }
{
    match asked {
        Asked::Command(command) => Some(*command),
        Asked::Other(_) => None,
    }
}

fn is_part(first: &FirstRequest) -> bool
    ensures { result ≡ is_part first.now }
{
    matches!(first, FirstRequest::Part)
}

/// What is said to a request that means no command.
fn said_to(asked: &Asked) -> Option<Said>
    ensures { result ≡ said_to asked.now }
{
    match asked {
        Asked::Other(other) => Some(Said::Other(*other)),
        Asked::Command(_) => None,
    }
}

/// What is said behind the last bytes, where these were left.
fn said_behind(bytes: &[u8]) -> Said
    ensures { result ≡ said_behind bytes.now }
{
    match bytes {
        [] => Said::Close,
        _ => Said::Protocol,
    }
}

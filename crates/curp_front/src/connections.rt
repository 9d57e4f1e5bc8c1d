//! Connections beside each other. Each call changes one of them, and leaves the others as they are.
ghost use Rattle.std.specs.Prelude.{◌≡◌, ◌<◌, ◌↔◌, ◌∷◌, ◌++◌, [], Some, true, length, position, map, OnOk, OnErr, IfOk};
ghost use Rattle.curp_front.specs.Conversation.{Conversation, came, completed, fresh, gone, has_number, said_by, settled, speaks, wants};
ghost use Rattle.curp_front.specs.Finding.{Found, StandsAt, found_by, in_place};
ghost use Rattle.curp_front.specs.Fronts.{after_output, after_taking_of, bytes_came, ended, is_full, kept, next_output, passed_by, settled_in};
ghost use Rattle.curp_front.specs.Fronts.{taken_of, told_of};

use crate::connection::Connection;
use crate::due::DueReply;
use crate::output::FrontOutput;
use curp_base::NoMemory;
use curp_cmd::{Answer, Command, RequestId};
use std::alloc::Global;

/// How many connections there may be.
const MOST_CONNECTIONS: usize = 1_024;

/// Whether bytes were taken.
#[derive(Clone, Copy, Debug, PartialEq, Eq)]
pub enum Admitted {
    /// They are a connection's, or were passed over since it is to end.
    Taken,
    /// They would be of one connection more than there may be. Nothing was taken: it is to be told `too_many_text`, and to
    /// be closed.
    TooMany,
}

// ---- where a connection stands

/// Where that of a number stands.
fn place_of(connections: &[Connection], number: u64) -> Option<usize>
    ensures { result ≡ position (has_number number) connections.now }
{
    connections
        .iter()
        .position(|connection| connection.number() == number)
}

/// Where the first stands that has a command to be invoked.
fn first_wanting(connections: &[Connection]) -> Option<usize>
    ensures { result ≡ position wants connections.now }
{
    connections
        .iter()
        .position(|connection| connection.command().is_some())
}

/// Where the first stands that is to be told something.
fn first_speaking(connections: &[Connection]) -> Option<usize>
    ensures { result ≡ position speaks connections.now }
{
    connections
        .iter()
        .position(|connection| connection.said().is_some())
}

// ---- what comes

/// Bytes came of the connection of a number.
pub(crate) fn add_bytes(
    alloc: Global,
    connections: &mut Vec<Connection>,
    number: u64,
    bytes: &[u8],
) -> Result<Admitted, NoMemory>
    ensures admitted { IfOk result (λ admitted.
        (admitted ≡ Admitted.TooMany) ↔ (is_full number connections.old.items ≡ true)) }
    ensures ok { OnOk result (connections.new.items ≡ bytes_came number bytes.now connections.old.items) }
    ensures err { OnErr result (connections.new.items ≡ connections.old.items) }
{
    if let Some(at) = place_of(connections, number) {
        add_bytes_at(connections, at, bytes)?;
        return Ok(Admitted::Taken);
    }
    if connections.len() >= MOST_CONNECTIONS {
        return Ok(Admitted::TooMany);
    }
    let mut first = Connection::new(alloc, number);
    first.on_bytes(bytes)?;
    connections.push(first)?;
    Ok(Admitted::Taken)
}

fn add_bytes_at(connections: &mut Vec<Connection>, at: usize, bytes: &[u8]) -> Result<(), NoMemory>
    requires { at < length connections.old.items }
    ensures ok { (found : Found Conversation) → StandsAt connections.old.items at found
        → OnOk result (connections.new.items ≡ in_place (came bytes.now found.it ∷ []) found) }
    ensures err { OnErr result (connections.new.items ≡ connections.old.items) }
{
    connections[at].on_bytes(bytes)
}

/// No more bytes come of the connection of a number.
pub(crate) fn end(connections: &mut Vec<Connection>, number: u64)
    ensures { connections.new.items ≡ ended number connections.old.items }
{
    if let Some(at) = place_of(connections, number) {
        end_at(connections, at);
    }
}

fn end_at(connections: &mut Vec<Connection>, at: usize)
    requires { at < length connections.old.items }
    ensures { (found : Found Conversation) → StandsAt connections.old.items at found
        → connections.new.items ≡ in_place (kept (gone found.it)) found }
{
    connections[at].on_end();
    forget(connections, at);
}

/// This came of the first command of that connection that was given, and of which nothing had come.
pub(crate) fn settle(connections: &mut Vec<Connection>, number: u64, due: &DueReply)
    ensures { connections.new.items ≡ settled_in number due.now connections.old.items }
{
    if let Some(at) = place_of(connections, number) {
        settle_at(connections, at, due);
    }
}

fn settle_at(connections: &mut Vec<Connection>, at: usize, due: &DueReply)
    requires { at < length connections.old.items }
    ensures { (found : Found Conversation) → StandsAt connections.old.items at found
        → connections.new.items ≡ in_place (settled due.now found.it ∷ []) found }
{
    connections[at].settle(due);
}

/// A request was completed, which may be of one of these.
pub(crate) fn complete(connections: &mut Vec<Connection>, id: &RequestId, answer: &Answer)
    ensures { connections.new.items ≡ map (completed id.now answer.now) connections.old.items }
{
    for at in 0..connections.len() {
        connections[at].complete(id, answer);
    }
}

// ---- what is to be done

/// The command of the first connection that has one is given, and that connection has its next turn behind the others.
pub(crate) fn take_command(
    connections: &mut Vec<Connection>,
) -> Result<Option<(u64, Command)>, NoMemory>
    ensures command { IfOk result (λ given. given ≡ taken_of (found_by wants connections.old.items)) }
    ensures ok { OnOk result (connections.new.items
        ≡ after_taking_of connections.old.items (found_by wants connections.old.items)) }
    ensures err { OnErr result (connections.new.items ≡ connections.old.items) }
{
    match first_wanting(connections) {
        Some(at) => take_command_at(connections, at),
        None => Ok(None),
    }
}

fn take_command_at(
    connections: &mut Vec<Connection>,
    at: usize,
) -> Result<Option<(u64, Command)>, NoMemory>
    requires { at < length connections.old.items }
    ensures command { (found : Found Conversation) → StandsAt connections.old.items at found
        → IfOk result (λ given. given ≡ taken_of (Some found)) }
    ensures ok { (found : Found Conversation) → StandsAt connections.old.items at found
        → OnOk result (connections.new.items ≡ after_taking_of connections.old.items (Some found)) }
    ensures err { OnErr result (connections.new.items ≡ connections.old.items) }
{
    let number = connections[at].number();
    let command = connections[at].take_command()?;
    connections.rotate_left(at + 1);
    Ok(command.map(|command| (number, command)))
}

/// The first connection that is to be told something is told it.
pub(crate) fn take_output(
    alloc: Global,
    connections: &mut Vec<Connection>,
) -> Result<Option<FrontOutput>, NoMemory>
    ensures output { IfOk result (λ output. output ≡ next_output connections.old.items) }
    ensures ok { OnOk result (connections.new.items ≡ after_output connections.old.items) }
    ensures err { OnErr result (connections.new.items ≡ connections.old.items) }
{
    match first_speaking(connections) {
        Some(at) => take_output_at(alloc, connections, at),
        None => Ok(None),
    }
}

fn take_output_at(
    alloc: Global,
    connections: &mut Vec<Connection>,
    at: usize,
) -> Result<Option<FrontOutput>, NoMemory>
    requires { at < length connections.old.items }
    ensures output { (found : Found Conversation) → StandsAt connections.old.items at found
        → IfOk result (λ output. output ≡ told_of (Some found)) }
    ensures ok { (found : Found Conversation) → StandsAt connections.old.items at found
        → OnOk result (connections.new.items ≡ in_place (passed_by (said_by found.it) found.it) found) }
    ensures err { OnErr result (connections.new.items ≡ connections.old.items) }
{
    let Some(said) = connections[at].said() else {
        return Ok(None);
    };
    let output = FrontOutput::of(alloc, connections[at].number(), &said)?;
    connections[at].pass(&said);
    forget(connections, at);
    Ok(Some(output))
}

/// The connection at a place is forgotten, where it is over.
fn forget(connections: &mut Vec<Connection>, at: usize)
    requires { at < length connections.old.items }
    ensures { (found : Found Conversation) → StandsAt connections.old.items at found
        → connections.new.items ≡ in_place (kept found.it) found }
{
    if connections[at].is_over() {
        connections.remove(at);
    }
}

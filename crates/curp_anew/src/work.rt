ghost use Rattle.std.specs.Prelude.{◌≡◌, ◌≢◌, ◌↔◌, ℕ, List, ◌+◌, ◌^◌, ◌<◌, ◌≤◌, ◌++◌, if◌then◌else◌, is_some, length, map, None, IsTrue, IfSome};
ghost use Rattle.curp_base.specs.Words.{Each};
ghost use Rattle.curp_cmd.specs.declared.command.Command.{Command};
ghost use Rattle.curp_journal.specs.Work.{DidWork, IsCompletedIn, invoked_by, invoked_in};
ghost use Rattle.curp_anew.specs.Work.{DidInOrder, FewPending};

use curp_cmd::{Command, RequestId};
use curp_journal::{Arrived, Item};
use curp_msg::Local;
use curp_nodes::{ClientNode, PENDING_AT_ONCE};
use curp_same::Same;
use curp_seat::Kept;

/// Whether each client did its list of work; the first has the number 1.
pub fn did_all(work: &[Vec<Command>], clients: &[Kept<ClientNode>]) -> bool
    requires { length work.now + 1 < 2 ^ 32 }
    ensures did { IsTrue result → DidInOrder (map (λ list. list.items) work.now) clients.now }
    ensures all { Each (λ list. length list.items < 2 ^ 32) work.now
        → DidInOrder (map (λ list. list.items) work.now) clients.now → IsTrue result }
{
    if clients.len() != work.len() {
        return false;
    }
    for (index, client) in clients.iter().enumerate() {
        let commands = &work[index];
        if client.id().number != index as u32 + 1
            || !did_work(index as u32 + 1, commands.as_slice(), client.journal())
        {
            return false;
        }
    }
    true
}

/// Whether a client invoked these commands in order, and each completed.
fn did_work(number: u32, commands: &[Command], items: &[Item]) -> bool
    ensures did { IsTrue result → DidWork number commands.now items.now }
    ensures all { length commands.now < 2 ^ 32 → DidWork number commands.now items.now → IsTrue result }
{
    invoked(items, commands) && all_completed(number, commands.len(), items)
}

/// Whether the commands were invoked, in this order and no others.
fn invoked(items: &[Item], commands: &[Command]) -> bool
    ensures { IsTrue result ↔ (invoked_in items.now ≡ commands.now) }
{
    let mut left = commands;
    for item in items {
        let Some(rest) = left_after(item, left) else {
            return false;
        };
        left = rest;
    }
    left.is_empty()
}

/// The commands that are still to be invoked after an item. None where it invokes another one.
fn left_after<'a>(item: &Item, commands: &'a [Command]) -> Option<&'a [Command]>
    ensures left { IfSome result (λ left. invoked_by item.now.input ++ left.now ≡ commands.now) }
    ensures another { result ≡ None → (left : List Command) → invoked_by item.now.input ++ left ≢ commands.now }
{
    let Arrived::Local(Local::Invoke(command), _) = &item.input else {
        return Some(commands);
    };
    match commands {
        [first, left @ ..] if first.same(command) => Some(left),
        _ => None,
    }
}

/// Whether the first so many requests of a client are completed.
fn all_completed(client: u32, count: usize, items: &[Item]) -> bool
    ensures completed { IsTrue result → ((seq : ℕ) → 1 ≤ seq → seq ≤ count
        → IsCompletedIn items.now (record { client = client; seq = seq })) }
    ensures all { count < 2 ^ 32 → ((seq : ℕ) → 1 ≤ seq → seq ≤ count
        → IsCompletedIn items.now (record { client = client; seq = seq })) → IsTrue result }
{
    let Ok(count) = u32::try_from(count) else {
        return false;
    };
    for seq in 1..=count {
        if !is_completed(items, RequestId { client, seq }) {
            return false;
        }
    }
    true
}

/// Whether an item completes the request.
fn is_completed(items: &[Item], id: RequestId) -> bool
    ensures { IsTrue result ↔ IsCompletedIn items.now id }
{
    for item in items {
        if let Some(completed) = &item.done.completed {
            if completed.id == id {
                return true;
            }
        }
    }
    false
}

/// Whether each client never has more than so few requests pending.
pub fn all_have_few_pending(clients: &[Kept<ClientNode>]) -> bool
    ensures { IsTrue result ↔ Each (λ log. FewPending log.items) clients.now }
{
    for client in clients {
        if !has_few_pending(client.journal()) {
            return false;
        }
    }
    true
}

/// Whether so few requests at most are pending after each of the items.
fn has_few_pending(items: &[Item]) -> bool
    ensures { IsTrue result ↔ FewPending items.now }
{
    let mut invoked: u64 = 0;
    let mut completed: u64 = 0;
    for item in items {
        invoked += invocations(item);
        completed += completions(item);
        if invoked.saturating_sub(completed) > PENDING_AT_ONCE as u64 {
            return false;
        }
    }
    true
}

/// How many requests an item invokes.
fn invocations(item: &Item) -> u64
    ensures count { result ≡ length (invoked_by item.now.input) }
    ensures one { result ≤ 1 }
{
    matches!(&item.input, Arrived::Local(Local::Invoke(_), _)) as u64
}

/// How many it completes.
fn completions(item: &Item) -> u64
    ensures count { result ≡ if is_some item.now.done.completed then 1 else 0 }
    ensures one { result ≤ 1 }
{
    item.done.completed.is_some() as u64
}

ghost use Rattle.std.specs.Prelude.{◌≡◌, ◌∷◌, ◌++◌, [], if◌then◌else◌, IfOk, OnOk};
ghost use Rattle.curp_cmd.specs.Node.{master_node};
ghost use Rattle.curp_model.specs.Master.{refuse};
ghost use Rattle.curp_model.specs.Recovery.{fence_of, freeze_of, recovered_message, unanswered_log, unanswered_requests};
ghost use Rattle.curp_msg.specs.Moved.{says, says_each};
ghost use Rattle.curp_recover.specs.Stage.{fenced_entries};

use crate::stage::FencedLog;
use curp_base::{Items, NoMemory, Shared};
use curp_cmd::{Entry, NodeId, Request, RequestId};
use curp_msg::{Append, Body, Message, Recover, Recovered, Refusal, Refuse};
use std::alloc::Global;

/// The backup is asked for its log.
pub fn fence(number: u32, order: &Recover) -> Message
    ensures { result ∷ [] ≡ fence_of number order.now }
{
    Message {
        from: NodeId::master(number),
        to: order.backup,
        body: Body::Fence { epoch: order.epoch },
    }
}

/// The witness is asked for what it holds.
pub fn freeze(number: u32, order: &Recover) -> Message
    ensures { result ∷ [] ≡ freeze_of number order.now }
{
    Message {
        from: NodeId::master(number),
        to: order.witness,
        body: Body::Freeze { epoch: order.epoch },
    }
}

/// The manager is told that all is stored.
pub fn recovered(number: u32, order: &Recover) -> Message
    ensures { result ∷ [] ≡ recovered_message number order.now }
{
    Message {
        from: NodeId::master(number),
        to: NodeId::manager(),
        body: Body::Recovered(Recovered {
            part: order.part,
            epoch: order.epoch,
        }),
    }
}

/// A request isn't answered.
pub fn refuse(number: u32, id: RequestId, refusal: Refusal) -> Message
    ensures { result ≡ refuse number id refusal }
{
    Message {
        from: NodeId::master(number),
        to: NodeId::client(id.client),
        body: Body::Refuse(Refuse { id, refusal }),
    }
}

/// What is asked for and isn't there yet.
pub fn unanswered(
    alloc: Global,
    number: u32,
    order: &Recover,
    log: &Option<FencedLog>,
    requests: &Option<Items<Shared<Request>>>,
) -> Result<Vec<Message>, NoMemory>
    ensures { IfOk result (λ messages. messages.items
        ≡ unanswered_log number order.now (fenced_entries log.now) ++ unanswered_requests number order.now requests.now) }
{
    let mut messages = Vec::with_capacity(alloc, 2)?;
    if log.is_none() {
        messages.push(fence(number, order))?;
    }
    if requests.is_none() {
        messages.push(freeze(number, order))?;
    }
    Ok(messages)
}

/// The manager is told, if all is stored.
pub fn told(
    alloc: Global,
    number: u32,
    order: &Recover,
    is_stored: bool,
) -> Result<Vec<Message>, NoMemory>
    ensures { IfOk result (λ messages. messages.items
        ≡ (if is_stored then recovered_message number order.now else [])) }
{
    let mut messages = Vec::new(alloc);
    if is_stored {
        messages.push(recovered(number, order))?;
    }
    Ok(messages)
}

/// The whole log to each of these backups: these entries, and those behind them.
pub fn appends(
    alloc: Global,
    number: u32,
    epoch: u32,
    round: u64,
    entries: &[Entry],
    behind: &[Entry],
    backups: &[NodeId],
) -> Result<Vec<Message>, NoMemory>
    ensures { IfOk result (λ messages. messages.items ≡ says_each (master_node number) backups.now (Body.Append
        (record { epoch = epoch; base = 0; round = round; entries = entries.now ++ behind.now }))) }
{
    let mut messages = Vec::with_capacity(alloc, backups.len())?;
    for backup in backups {
        let whole = joined(alloc, entries, behind)?;
        messages.push(append(number, *backup, epoch, round, whole))?;
    }
    Ok(messages)
}

/// Copies of entries and of those behind them.
fn joined(alloc: Global, entries: &[Entry], behind: &[Entry]) -> Result<Vec<Entry>, NoMemory>
    ensures { IfOk result (λ whole. whole.items ≡ entries.now ++ behind.now) }
{
    let count = entries.len().saturating_add(behind.len());
    let mut whole = Vec::with_capacity(alloc, count)?;
    add_copies(alloc, &mut whole, entries)?;
    add_copies(alloc, &mut whole, behind)?;
    Ok(whole)
}

/// Puts copies of entries behind others.
fn add_copies(alloc: Global, to: &mut Vec<Entry>, entries: &[Entry]) -> Result<(), NoMemory>
    ensures { OnOk result (to.new.items ≡ to.old.items ++ entries.now) }
{
    for entry in entries {
        to.push(entry.copy(alloc)?)?;
    }
    Ok(())
}

/// The whole log to a backup.
fn append(number: u32, backup: NodeId, epoch: u32, round: u64, entries: Vec<Entry>) -> Message
    ensures { result ≡ says (master_node number) backup
        (Body.Append (record { epoch = epoch; base = 0; round = round; entries = entries.items })) }
{
    Message {
        from: NodeId::master(number),
        to: backup,
        body: Body::Append(Append {
            epoch,
            base: 0,
            round,
            entries: Items::new(entries),
        }),
    }
}

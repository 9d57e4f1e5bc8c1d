//! What the process of a node says first.
ghost use Rattle.std.specs.Prelude.{◌≡◌, ◌++◌, ◌+◌, ◌-◌, ◌^◌, ◌∷◌, [], if◌then◌else◌, length, min, set, true};
ghost use Rattle.std.specs.Prelude.{IfOk, OnOk};
ghost use Rattle.curp_cmd.specs.RequestId.{same_id};
ghost use Rattle.curp_journal.specs.Journal.{last_stamp};
ghost use Rattle.curp_told.specs.Marks.{AreMarks, MarksMore};
ghost use Rattle.curp_told.specs.Told.{completes, completions_told, greeting, invoked, invokes, parcels_of};
ghost use Rattle.curp_told.specs.Told.{pending_of, pending_told, requests_told};

use crate::telling::{tell_completion, tell_one};
use curp_base::NoMemory;
use curp_cmd::{NodeId, NodeKind, RequestId};
use curp_journal::{Arrived, Item};
use curp_msg::{Completed, Local};
use curp_parcels::Outgoing;
use std::alloc::Global;

/// Puts behind a text what the process of that node says before it reads anything, where these are the items of its
/// journal. After an error some of the parcels are there.
pub fn greet(
    alloc: Global,
    node: &NodeId,
    items: &[Item],
    text: &mut Vec<u8>,
) -> Result<(), NoMemory>
    ensures greets { OnOk result (text.new.items ≡ text.old.items ++ parcels_of (greeting node.now items.now)) }
{
    let stands = Outgoing::Stands {
        items: items.len() as u64,
        last: last_stamp(items),
    };
    tell_one(alloc, &stands, text)?;
    tell_completions(alloc, items, text)?;
    tell_requests(alloc, node, items, text)
}

/// The stamp of the last of them, 0 if there is none.
fn last_stamp(items: &[Item]) -> u64
    ensures { result ≡ last_stamp 0 items.now }
{
    match items.last() {
        Some(item) => item.stamp,
        None => 0,
    }
}

/// Puts there the parcels of the requests that the items complete.
fn tell_completions(alloc: Global, items: &[Item], text: &mut Vec<u8>) -> Result<(), NoMemory>
    ensures { OnOk result (text.new.items ≡ text.old.items ++ parcels_of (completions_told 1 items.now)) }
{
    for (before, item) in items.iter().enumerate() {
        tell_completion(
            alloc,
            before as u64 + 1,
            item.stamp,
            &item.done.completed,
            text,
        )?;
    }
    Ok(())
}

/// Puts there the parcels of the requests of that node that are pending.
fn tell_requests(
    alloc: Global,
    node: &NodeId,
    items: &[Item],
    text: &mut Vec<u8>,
) -> Result<(), NoMemory>
    ensures { OnOk result (text.new.items ≡ text.old.items ++ parcels_of (requests_told node.now.kind node.now.number items.now)) }
{
    match node.kind {
        NodeKind::Client => tell_pending(alloc, node.number, items, text),
        NodeKind::Manager | NodeKind::Master | NodeKind::Backup | NodeKind::Witness => Ok(()),
    }
}

/// The same of the client of this number.
fn tell_pending(
    alloc: Global,
    client: u32,
    items: &[Item],
    text: &mut Vec<u8>,
) -> Result<(), NoMemory>
    ensures { OnOk result (text.new.items ≡ text.old.items ++ parcels_of (pending_told (pending_of client items.now))) }
{
    let marks = completed_among(alloc, client, invoked(items), items)?;
    for (before, is_completed) in marks.iter().enumerate() {
        let id = RequestId {
            client,
            seq: before as u32 + 1,
        };
        tell_unless_completed(alloc, id, *is_completed, text)?;
    }
    Ok(())
}

fn tell_unless_completed(
    alloc: Global,
    id: RequestId,
    is_completed: bool,
    text: &mut Vec<u8>,
) -> Result<(), NoMemory>
    ensures { OnOk result (text.new.items ≡ text.old.items ++ parcels_of (pending_told (if is_completed then [] else id ∷ []))) }
{
    if is_completed {
        Ok(())
    } else {
        tell_one(alloc, &Outgoing::Pending { id }, text)
    }
}

/// How many requests the items invoke.
fn invoked(items: &[Item]) -> u32
    ensures { result ≡ invoked items.now }
{
    let mut count = 0;
    for item in items {
        count = counted(count, &item.input);
    }
    count
}

/// So many requests, and one more where one is invoked. A client has no more than these numbers.
fn counted(count: u32, arrived: &Arrived) -> u32
    ensures { result ≡ (if invokes arrived.now then min (count + 1) (2 ^ 32 - 1) else count) }
{
    match arrived {
        Arrived::Local(Local::Invoke(_), _) => count.saturating_add(1),
        _ => count,
    }
}

/// Which of so many first requests of the client the items complete.
fn completed_among(
    alloc: Global,
    client: u32,
    count: u32,
    items: &[Item],
) -> Result<Vec<bool>, NoMemory>
    ensures many { IfOk result (λ marks. length marks.items ≡ count) }
    ensures marks { IfOk result (λ marks. AreMarks client items.now marks.items) }
{
    let mut marks = vec![in alloc; false; count as usize]?;
    for item in items {
        mark(client, &item.done.completed, &mut marks);
    }
    Ok(marks)
}

/// Marks the request that an item completes, where it is one of the client's that have a mark.
fn mark(client: u32, completed: &Option<Completed>, marks: &mut Vec<bool>)
    ensures many { length marks.new.items ≡ length marks.old.items }
    ensures marks { MarksMore (λ id. completes id completed.now) client marks.old.items marks.new.items }
{
    match completed {
        None => {}
        Some(completed) => mark_request(client, completed.id, marks),
    }
}

/// Marks this request, where it is one of those.
fn mark_request(client: u32, id: RequestId, marks: &mut Vec<bool>)
    ensures many { length marks.new.items ≡ length marks.old.items }
    ensures marks { MarksMore (same_id id) client marks.old.items marks.new.items }
{
    if id.client != client {
        return;
    }
    if id.seq == 0 {
        return;
    }
    mark_at(id.seq as usize - 1, marks);
}

/// Marks what has this place, if there is a mark for it.
fn mark_at(place: usize, marks: &mut Vec<bool>)
    ensures { marks.new.items ≡ set marks.old.items place true }
{
    if place < marks.len() {
        marks[place] = true;
    }
}

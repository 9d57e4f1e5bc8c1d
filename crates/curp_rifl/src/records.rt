//! The records of requests that are done, in ascending order of the ids, so that those of a client stand together.
ghost use Rattle.std.specs.Prelude.{◌≡◌, ◌+◌, ◌==◌, ◌≤◌, ◌++◌, true, false, not, drop, length, map, take, IfOk};
ghost use Rattle.std.specs.List.{filter};
ghost use Rattle.std.specs.List.Sorted.{IsPartitionPoint};
ghost use Rattle.curp_base.specs.Words.{KeysAscend};
ghost use Rattle.curp_cmd.specs.RequestId.{id_cmp};
ghost use Rattle.curp_model.specs.Table.{is_below, is_of_use};
ghost use Rattle.curp_rifl.specs.Clients.{clients_alone};
ghost use Rattle.curp_rifl.specs.Records.{is_before, is_up_to, is_before_first, with_records};

use crate::clients::{ClientMark, mark_of};
use crate::kept::NotedAnswer;
use curp_base::{NoMemory, ReservedPairs};
use curp_cmd::{Answer, RequestId};
use std::alloc::Global;

/// How many records belong to clients below this one.
fn count_before(records: &[(RequestId, NotedAnswer)], client: u32) -> usize
    requires { KeysAscend id_cmp records.now }
    ensures within { result ≤ length records.now }
    ensures point { IsPartitionPoint
        (λ e. is_before client e ≡ true) (λ e. is_before client e ≡ false) records.now result }
{
    records.partition_point(|record| record.0.client < client)
}

/// How many records belong to this client or to clients below it.
fn count_up_to(records: &[(RequestId, NotedAnswer)], client: u32) -> usize
    requires { KeysAscend id_cmp records.now }
    ensures within { result ≤ length records.now }
    ensures point { IsPartitionPoint
        (λ e. is_up_to client e ≡ true) (λ e. is_up_to client e ≡ false) records.now result }
{
    records.partition_point(|record| record.0.client <= client)
}

/// How many records belong to clients below this one, or to this one with a lower number.
fn count_before_first(records: &[(RequestId, NotedAnswer)], client: u32, first: u32) -> usize
    requires { KeysAscend id_cmp records.now }
    ensures within { result ≤ length records.now }
    ensures point { IsPartitionPoint (λ e. is_before_first client first e ≡ true)
        (λ e. is_before_first client first e ≡ false) records.now result }
{
    records.partition_point(|record| {
        let id = &record.0;
        id.client < client || (id.client == client && id.seq < first)
    })
}

/// Drops the records from one place up to another. Where there are none between them, no record is moved.
fn drop_run(records: &mut ReservedPairs<RequestId, NotedAnswer>, start: usize, end: usize)
    requires ordered { start ≤ end }
    requires within { end ≤ length records.old.items }
    ensures items { records.new.items ≡ take start records.old.items ++ drop end records.old.items }
    ensures spare { records.old.spare ≤ records.new.spare }
{
    if start < end {
        records.drop_run(start, end);
    }
}

/// Drops the client's records below that number.
pub fn drop_below(records: &mut ReservedPairs<RequestId, NotedAnswer>, client: u32, first: u32)
    ensures items { records.new.items ≡ filter (λ e. not (is_below client first e.0)) records.old.items }
    ensures spare { records.old.spare ≤ records.new.spare }
{
    let start = count_before(records.as_slice(), client);
    let end = count_before_first(records.as_slice(), client, first);
    drop_run(records, start, end);
}

/// Drops all records of the client.
pub fn drop_client(records: &mut ReservedPairs<RequestId, NotedAnswer>, client: u32)
    ensures items { records.new.items ≡ filter (λ e. not (e.0.client == client)) records.old.items }
    ensures spare { records.old.spare ≤ records.new.spare }
{
    let start = count_before(records.as_slice(), client);
    let end = count_up_to(records.as_slice(), client);
    drop_run(records, start, end);
}

/// Adds the records whose ids have none, as those of the entry with that index. It takes no memory.
pub fn add_records(
    records: &mut ReservedPairs<RequestId, NotedAnswer>,
    added: &[(RequestId, Answer)],
    index: u64,
)
    requires { length added.now ≤ records.old.spare }
    ensures items { records.new.items ≡ with_records index records.old.items added.now }
    ensures spare { records.old.spare ≤ records.new.spare + length added.now }
{
    for (id, answer) in added {
        records.put_once(*id, NotedAnswer::new(*answer, index));
    }
}

/// Whether a record of that id is of use: its client isn't gone, and hasn't acknowledged it.
fn is_of_use(clients: &ReservedPairs<u32, ClientMark>, id: &RequestId) -> bool
    ensures { result ≡ is_of_use (clients_alone clients.now.items) id.now }
{
    let mark = mark_of(clients, id.client);
    !mark.is_gone() && mark.first <= id.seq
}

/// Keeps only the records that are of use.
pub fn keep_of_use(
    records: &mut ReservedPairs<RequestId, NotedAnswer>,
    clients: &ReservedPairs<u32, ClientMark>,
)
    ensures items { records.new.items
        ≡ filter (λ e. is_of_use (clients_alone clients.now.items) e.0) records.old.items }
    ensures spare { records.old.spare ≤ records.new.spare }
{
    records.retain(|record| is_of_use(clients, &record.0));
}

/// The answers of the records, with their ids.
pub fn answers_of(
    alloc: Global,
    records: &[(RequestId, NotedAnswer)],
) -> Result<Vec<(RequestId, Answer)>, NoMemory>
    requires { KeysAscend id_cmp records.now }
    ensures answers { IfOk result (λ answers. answers.items ≡ map (λ e. (e.0, e.1.answer)) records.now) }
    ensures ascend { IfOk result (λ answers. KeysAscend id_cmp answers.items) }
{
    let mut answers = Vec::with_capacity(alloc, records.len())?;
    for (id, kept) in records {
        answers.push((*id, kept.answer()))?;
    }
    Ok(answers)
}

//! A backup: what it answers to each call, and which entries it keeps.

use crate::build::{must, right, right_at};
use curp_backup::{AppendError, Backup, Fenced};
use curp_base::Failed;
use curp_cmd::Entry;
use std::alloc::Global;
use std::process::Abort;

// A call with what it answers. An entry is told by the client that it lets go.
#[derive(Clone, Copy)]
enum Row {
    Install(u32, Result<(), Fenced>),
    Append(u32, u64, &'static [u32], Result<u64, AppendError>),
    Fence(u32, Result<&'static [u32], Fenced>),
}

fn installs(backup: &mut Backup, epoch: u32, answer: Result<(), Fenced>) -> bool {
    match (backup.install(epoch), answer) {
        (Ok(()), Ok(())) => true,
        (Err(why), Err(expected)) => why.epoch == expected.epoch,
        _ => false,
    }
}

fn appends(
    rt: &impl Abort,
    alloc: Global,
    backup: &mut Backup,
    (epoch, base): (u32, u64),
    clients: &[u32],
    answer: Result<u64, AppendError>,
) -> bool {
    let entries = entries_of(rt, alloc, clients);
    let found = backup.append(epoch, base, &entries, 1);
    drop(entries);
    match (found, answer) {
        (Ok(length), Ok(expected)) => length == expected,
        (Err(Failed::Because(why)), Err(expected)) => why == expected,
        _ => false,
    }
}

fn entries_of(rt: &impl Abort, alloc: Global, clients: &[u32]) -> Vec<Entry> {
    let mut entries = Vec::new(alloc);
    for client in clients {
        must(rt, entries.push(Entry::Expire { client: *client }));
    }
    entries
}

fn fences(backup: &mut Backup, epoch: u32, answer: Result<&[u32], Fenced>) -> bool {
    let found = backup.fence(epoch);
    let is = match (&found, answer) {
        (Ok(log), Ok(clients)) => are_of(log, clients),
        (Err(Failed::Because(why)), Err(expected)) => why.epoch == expected.epoch,
        _ => false,
    };
    drop(found);
    is
}

fn are_of(entries: &[Entry], clients: &[u32]) -> bool {
    for (at, entry) in entries.iter().enumerate() {
        match (entry, clients.get(at)) {
            (Entry::Expire { client }, Some(expected)) if *client == *expected => {}
            _ => return false,
        }
    }
    entries.len() == clients.len()
}

fn answers(rt: &impl Abort, alloc: Global, backup: &mut Backup, row: Row) -> bool {
    match row {
        Row::Install(epoch, answer) => installs(backup, epoch, answer),
        Row::Append(epoch, base, clients, answer) => {
            appends(rt, alloc, backup, (epoch, base), clients, answer)
        }
        Row::Fence(epoch, answer) => fences(backup, epoch, answer),
    }
}

fn try_rows(rt: &impl Abort, alloc: Global, backup: &mut Backup, rows: &[Row]) {
    for (at, row) in rows.iter().enumerate() {
        right_at(rt, answers(rt, alloc, backup, *row), "rows", at as u64);
    }
}

const ROWS: [Row; 19] = [
    Row::Append(1, 0, &[7], Err(AppendError::NotInstalled)),
    Row::Install(1, Ok(())),
    Row::Install(1, Ok(())),
    Row::Install(2, Err(Fenced { epoch: 1 })),
    Row::Append(1, 0, &[7, 8], Ok(2)),
    Row::Append(1, 1, &[8, 9], Ok(3)),
    Row::Append(1, 0, &[7], Ok(3)),
    Row::Append(1, 4, &[11], Err(AppendError::Gap { length: 3 })),
    Row::Append(2, 4, &[11], Err(AppendError::NotInstalled)),
    Row::Append(1, 3, &[10], Ok(4)),
    Row::Fence(1, Ok(&[7, 8, 9, 10])),
    Row::Append(1, 4, &[11], Ok(5)),
    Row::Fence(3, Ok(&[7, 8, 9, 10, 11])),
    Row::Fence(3, Ok(&[7, 8, 9, 10, 11])),
    Row::Fence(2, Err(Fenced { epoch: 3 })),
    Row::Append(1, 5, &[12], Err(AppendError::Fenced { epoch: 3 })),
    Row::Append(2, 9, &[12], Err(AppendError::Fenced { epoch: 3 })),
    Row::Install(1, Err(Fenced { epoch: 3 })),
    Row::Install(3, Err(Fenced { epoch: 1 })),
];

#[test]
fn answers_each_call(rt: HostRuntime) {
    let mut backup = Backup::new(rt.alloc());
    try_rows(&rt, rt.alloc(), &mut backup, &ROWS);
    try_end(&rt, &backup);
    drop(backup);
}

fn try_end(rt: &impl Abort, backup: &Backup) {
    right(rt, backup.epoch() == Some(1), "end (1)");
    right(rt, backup.fence_epoch() == 3, "end (2)");
    let log = must(rt, backup.log());
    right(rt, are_of(&log, &[7, 8, 9, 10, 11]), "end (3)");
    drop(log);
}

#[test]
fn keeps_many_entries(rt: HostRuntime) {
    let entries = entries_of(&rt, rt.alloc(), &[7; 5000]);
    let mut backup = Backup::new(rt.alloc());
    try_many(&rt, rt.alloc(), &mut backup, &entries);
    drop(backup);
    drop(entries);
}

fn try_append(
    rt: &impl Abort,
    backup: &mut Backup,
    (base, round): (u64, u64),
    entries: &[Entry],
    length: u64,
) {
    match backup.append(1, base, entries, round) {
        Ok(found) => right(rt, found == length, "append"),
        Err(_) => rt.panic("no append"),
    }
}

fn try_many(rt: &impl Abort, alloc: Global, backup: &mut Backup, entries: &[Entry]) {
    let rows = [Row::Install(1, Ok(()))];
    try_rows(rt, alloc, backup, &rows);
    try_append(rt, backup, (0, 1), entries, 5000);
    try_append(rt, backup, (2500, 2), entries, 7500);
    let log = must(rt, backup.fence(2));
    right(rt, log.len() == 7500, "many");
    drop(log);
}

const BELOW_ITS_FENCE: [Row; 5] = [
    Row::Fence(2, Ok(&[])),
    Row::Install(1, Err(Fenced { epoch: 2 })),
    Row::Append(2, 0, &[7], Err(AppendError::NotInstalled)),
    Row::Install(2, Ok(())),
    Row::Append(2, 0, &[7], Ok(1)),
];

#[test]
fn installs_no_epoch_below_its_fence(rt: HostRuntime) {
    let mut backup = Backup::new(rt.alloc());
    try_rows(&rt, rt.alloc(), &mut backup, &BELOW_ITS_FENCE);
    drop(backup);
}

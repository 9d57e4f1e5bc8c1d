// Suspects of witnesses, each in turn, at a master's log and queue.
ghost use Rattle.std.specs.Prelude.{◌≡◌, ◌≤◌, ◌+◌, ◌&&◌, length, IfOk};
ghost use Rattle.curp_cmd.specs.Hash.{hashes};
ghost use Rattle.curp_cmd.specs.declared.entry.Entry.TheVariants.{Op};
ghost use Rattle.curp_model.specs.Log.{is_new, meaning};
ghost use Rattle.curp_model.specs.Master.{MasterState, treat};
ghost use Rattle.curp_model.specs.Ranges.{owns_all};
ghost use Rattle.curp_model.specs.Table.{check};
ghost use Rattle.curp_model.specs.declared.Check.TheVariants.{New};
ghost use Rattle.curp_master_log.specs.Suspects.{HasOpRoom, IsTreated, brings, keeping, news};

use crate::MasterLog;
use curp_base::{NoMemory, Shared};
use curp_cmd::laws::names_one_to_four_keys;
use curp_cmd::{Answer, Entry, Request};
use curp_log::Log;
use curp_model::Check;
use curp_rifl::Table;
use curp_tail::Queue;
use std::alloc::Global;

/// What the suspects bring into the log. Those that were seen to come are known by their ids.
pub fn news(alloc: Global, log: &Log, suspects: &[Shared<Request>]) -> Result<Vec<Entry>, NoMemory>
    ensures { IfOk result (λ ops. ops.items ≡ news log.now.lo log.now.hi log.now.entries suspects.now) }
{
    let mut seen = Table::new(alloc);
    let mut ops = Vec::new(alloc);
    for suspect in suspects {
        if can_come(log, &seen, suspect) {
            ops.push(unacknowledging(suspect.share()?))?;
            seen.reserve(1)?;
            seen.finish(suspect.id, Answer::Done, 0, 0);
        }
    }
    Ok(ops)
}

// It is new in the log and among those that were seen, and its hashes are owned.
fn can_come(log: &Log, seen: &Table, suspect: &Shared<Request>) -> bool
    ensures { result ≡ ((is_new (check (meaning log.now.lo log.now.hi log.now.entries).table suspect.now.id)
        && is_new (check seen.now.table suspect.now.id))
        && owns_all (meaning log.now.lo log.now.hi log.now.entries).owned (hashes suspect.now.command)) }
{
    is_new(log.check(&suspect.id)) && is_new(seen.check(&suspect.id)) && log.owns(&suspect.command)
}

fn is_new(check: Check) -> bool
    ensures { result ≡ is_new check }
{
    match check {
        Check::New => true,
        _ => false,
    }
}

// A request as an entry by which its client acknowledges nothing.
fn unacknowledging(request: Shared<Request>) -> Entry
    ensures { result ≡ Op request 0 }
{
    Entry::Op {
        request,
        acknowledge: 0,
    }
}

/// Each suspect in turn. It takes no memory, since there is room.
pub fn treat_each(master_log: &mut MasterLog, queue: &mut Queue, suspects: Vec<Shared<Request>>)
    requires room { HasOpRoom master_log.old
        (length (news master_log.old.kept.lo master_log.old.kept.hi master_log.old.kept.entries suspects.items)) }
    requires spare { length suspects.items ≤ queue.old.spare }
    ensures treated { (m : MasterState) → treat (keeping m master_log.old.kept queue.old.waiting) suspects.items
        ≡ keeping m master_log.new.kept queue.new.waiting }
    ensures synced { master_log.new.kept.synced ≡ master_log.old.kept.synced }
{
    for suspect in suspects {
        treat(master_log, queue, suspect);
    }
}

// By the duplicate check of its id.
fn treat(master_log: &mut MasterLog, queue: &mut Queue, suspect: Shared<Request>)
    requires room { HasOpRoom master_log.old
        (length (brings master_log.old.kept.lo master_log.old.kept.hi master_log.old.kept.entries suspect)) }
    requires spare { 1 ≤ queue.old.spare }
    ensures treated { IsTreated suspect master_log.old queue.old.waiting master_log.new queue.new.waiting }
    ensures spare { queue.old.spare ≤ queue.new.spare + 1 }
{
    let length = master_log.log().len();
    match master_log.log().check(&suspect.id) {
        Check::Known { index, .. } => queue.add(suspect.id, index + 1),
        Check::Stale { .. } | Check::Expired => queue.add(suspect.id, length),
        Check::New => treat_new(master_log, queue, suspect),
    }
}

// One that is new is pushed, where its hashes are owned.
fn treat_new(master_log: &mut MasterLog, queue: &mut Queue, suspect: Shared<Request>)
    requires new { check (meaning master_log.old.kept.lo master_log.old.kept.hi master_log.old.kept.entries).table suspect.id ≡ New }
    requires room { HasOpRoom master_log.old
        (length (brings master_log.old.kept.lo master_log.old.kept.hi master_log.old.kept.entries suspect)) }
    requires spare { 1 ≤ queue.old.spare }
    ensures treated { IsTreated suspect master_log.old queue.old.waiting master_log.new queue.new.waiting }
    ensures spare { queue.old.spare ≤ queue.new.spare + 1 }
{
    if master_log.log().owns(&suspect.command) {
        names_one_to_four_keys(&suspect.command);
        let id = suspect.id;
        master_log.push(unacknowledging(suspect), false);
        queue.add(id, master_log.log().len());
    }
}

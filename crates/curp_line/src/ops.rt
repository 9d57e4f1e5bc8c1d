//! The ops of a log, and their marks.
ghost use Rattle.std.specs.Prelude.{◌≡◌, ◌+◌, ◌≤◌, ◌++◌, drop, length, slice_get, IfOk};
ghost use Rattle.std.specs.Option.{option_map};
ghost use Rattle.curp_entries.specs.Requests.{request_at};
ghost use Rattle.curp_model.specs.World.{op_marks, op_requests};
ghost use Rattle.curp_line.specs.Due.{told_op};

use crate::line::Line;
use crate::term::Term;
use curp_base::{NoMemory, Shared};
use curp_cmd::{Entry, KeptCommand, Request, RequestId, Standby};
use curp_log::Log;
use std::alloc::Global;

/// Adds the marks of the ops among entries, which stand in a log from that index on.
pub fn add_ops(marks: &mut Line, standby: &mut Standby, term: Term, index: u64, log: &Log)
    requires room { length (drop index log.now.entries) ≤ marks.old.spare }
    requires ready { length (drop index log.now.entries) ≤ standby.old }
    ensures marks { marks.new.marks ≡ marks.old.marks
        ++ op_marks term.master term.part term.epoch index (drop index log.now.entries) }
    ensures spare { marks.old.spare ≤ marks.new.spare + length (drop index log.now.entries) }
    ensures ready { standby.old ≤ standby.new + length (drop index log.now.entries) }
{
    for at in index..log.len() {
        if let Some((id, command)) = op_at(standby, log, at) {
            marks.executed(term, at, id, command);
        }
    }
}

// The number and the command of the Op with that index, if one stands there. What was pushed last is shared, since it isn't
// packed.
fn op_at(standby: &mut Standby, log: &Log, at: u64) -> Option<(RequestId, KeptCommand)>
    requires { 1 ≤ standby.old }
    ensures op { result ≡ option_map told_op (request_at (slice_get log.now.entries at)) }
    ensures ready { standby.old ≤ standby.new + 1 }
{
    if let Some(Entry::Op { request, .. }) = log.newest(at) {
        return Some((request.id, standby.keep(request)));
    }
    match log.request(at) {
        Some(request) => Some((request.id, standby.keep_own(&request.command))),
        None => None,
    }
}

/// The requests that entries have. They are shared.
pub fn op_requests(alloc: Global, entries: &[Entry]) -> Result<Vec<Shared<Request>>, NoMemory>
    ensures { IfOk result (λ requests. requests.items ≡ op_requests entries.now) }
{
    let mut requests = Vec::new(alloc);
    for entry in entries {
        if let Entry::Op { request, .. } = entry {
            requests.push(request.share()?)?;
        }
    }
    Ok(requests)
}

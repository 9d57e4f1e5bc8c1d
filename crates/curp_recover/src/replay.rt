ghost use Rattle.std.specs.Prelude.{◌≡◌, true, Some, IfOk, OnOk};
ghost use Rattle.curp_model.specs.Log.{is_log};
ghost use Rattle.curp_model.specs.Recovery.{both_there, replay};
ghost use Rattle.curp_msg.specs.Moved.{done_of};
ghost use Rattle.curp_recover.specs.Stage.{IsStage, phase_of};

use crate::messages;
use crate::stage::{Awaited, FencedLog, RecoveryStage, ReplayedLog};
use curp_base::{Items, NoMemory, Shared, copies_of};
use curp_cmd::{Entry, Request, room};
use curp_log::Log;
use curp_model::Check;
use curp_msg::{Done, Recover};
use std::alloc::Global;

/// The log comes, which has these entries: with the requests it is stored, and without them it waits.
pub fn with_log(
    alloc: Global,
    number: u32,
    order: &Recover,
    log: Log,
    entries: &[Entry],
    requests: &Option<Items<Shared<Request>>>,
) -> Result<(RecoveryStage, Done), NoMemory>
    requires lo { log.lo ≡ order.now.lo }
    requires hi { log.hi ≡ order.now.hi }
    requires entries { log.entries ≡ entries.now }
    requires is_log { is_log order.now.lo order.now.hi entries.now ≡ true }
    ensures stage { IfOk result (λ made. IsStage order.now made.0) }
    ensures state { IfOk result (λ made. record { order = order.now; phase = phase_of made.0 }
        ≡ (both_there number order.now (Some entries.now) requests.now).state) }
    ensures done { IfOk result (λ made. made.1
        ≡ done_of (both_there number order.now (Some entries.now) requests.now)) }
{
    match requests {
        Some(requests) => storing(alloc, number, order, log, entries, requests.as_slice()),
        None => {
            let log = Some(FencedLog {
                log: Some(log),
                entries: Items::new(copies_of(alloc, entries)?),
            });
            let stage = RecoveryStage::Asking {
                log,
                requests: None,
            };
            Ok((stage, Done::quiet(alloc)))
        }
    }
}

/// The log, which has these entries, and the requests are there: these are replayed behind it, and the whole goes to each
/// fresh backup, in the first round.
#[tactic(auto, using(crate::proofs::Behind::replayed_behind))]
pub fn storing(
    alloc: Global,
    number: u32,
    order: &Recover,
    mut log: Log,
    entries: &[Entry],
    requests: &[Shared<Request>],
) -> Result<(RecoveryStage, Done), NoMemory>
    requires lo { log.lo ≡ order.now.lo }
    requires hi { log.hi ≡ order.now.hi }
    requires entries { log.entries ≡ entries.now }
    ensures stage { IfOk result (λ made. IsStage order.now made.0) }
    ensures state { IfOk result (λ made. record { order = order.now; phase = phase_of made.0 }
        ≡ (both_there number order.now (Some entries.now) (Some requests.now)).state) }
    ensures done { IfOk result (λ made. made.1
        ≡ done_of (both_there number order.now (Some entries.now) (Some requests.now))) }
{
    replay(&mut log, requests)?;
    let cut = entries.len() as u64;
    let behind = log.suffix(cut)?;
    let backups = order.backups.as_slice();
    let sent = messages::appends(alloc, number, order.epoch, 1, entries, &behind, backups)?;
    let replayed = ReplayedLog {
        log,
        cut,
        round: 1,
        complete: Vec::new(alloc),
    };
    let stage = RecoveryStage::Replayed {
        replayed,
        awaited: Awaited::Storing,
    };
    Ok((stage, Done::sends(sent)))
}

/// Pushes each request that is new and whose hashes are owned, in order.
fn replay(log: &mut Log, requests: &[Shared<Request>]) -> Result<(), NoMemory>
    ensures lo { log.new.lo ≡ log.old.lo }
    ensures hi { log.new.hi ≡ log.old.hi }
    ensures entries { OnOk result (log.new.entries ≡ replay log.old.lo log.old.hi log.old.entries requests.now) }
{
    for request in requests {
        if log.check(&request.id) == Check::New && log.owns(&request.command) {
            let entry = Entry::Op {
                request: request.share()?,
                acknowledge: 0,
            };
            log.reserve(room(&entry))?;
            log.push(entry);
        }
    }
    Ok(())
}

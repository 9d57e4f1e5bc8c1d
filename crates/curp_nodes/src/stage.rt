// How far a master is, and how it goes on.
ghost use Rattle.std.specs.Prelude.{◌≡◌, IfOk};
ghost use Rattle.curp_nodes.specs.Stages.{adopted, node_of, shell_for};
ghost use Rattle.curp_model.specs.Recovery.{on_fresh};
ghost use Rattle.curp_msg.specs.Moved.{Makes, numbered_move};

use curp_base::NoMemory;
use curp_master::{Master, Shell};
use curp_msg::{Body, Done};
use curp_recover::{Recovery, turned_away};
use std::alloc::Global;

/// How far a master is.
#[derive(Drop)]
pub(crate) enum Stage {
    Fresh { number: u32 },
    Recovering(Recovery),
    Serving(Master),
}

/// A message comes to fresh master `number`.
pub(crate) fn heard(alloc: Global, number: u32, body: &Body) -> Result<(Stage, Done), NoMemory>
    ensures { IfOk result (λ heard. Makes (node_of heard.0) heard.1 (numbered_move number (on_fresh number body.now))) }
{
    match body {
        Body::Recover(order) => {
            let (recovery, done) = Recovery::begin(alloc, number, order.get())?;
            Ok((Stage::Recovering(recovery), done))
        }
        _ => {
            let done = turned_away(alloc, number, body)?;
            Ok((Stage::Fresh { number }, done))
        }
    }
}

/// Takes the memory that a recovery needs to serve.
pub(crate) fn shell_of(alloc: Global, recovery: &Recovery) -> Result<Shell, NoMemory>
    ensures { IfOk result (λ shell. shell ≡ shell_for recovery.now) }
{
    let order = recovery.order();
    let backups = order.backups.copy(alloc)?.into_vec();
    let witnesses = order.witnesses.copy(alloc)?.into_vec();
    Master::shell(
        alloc,
        recovery.number(),
        order.part,
        order.epoch,
        order.version,
        backups,
        witnesses,
    )
}

/// A recovery is adopted: where all fresh backups have the replayed log, it serves with it. It takes no memory.
pub(crate) fn adopted(recovery: Recovery, shell: Shell) -> Stage
    requires { shell ≡ shell_for recovery }
    ensures { node_of result ≡ adopted recovery }
{
    let round = recovery.round();
    match recovery.finish() {
        Ok(log) => Stage::Serving(Master::begin(shell, log, round)),
        Err(recovery) => Stage::Recovering(recovery),
    }
}

//! The journals of files, given again to nodes.
ghost use Rattle.std.specs.Prelude.{◌≡◌, false, option_to_list, IfOk, IfErr, OnOk};
ghost use Rattle.curp_journal.specs.Journal.{next_stamp};
ghost use Rattle.curp_journal.specs.Own.{IsOwn};
ghost use Rattle.curp_base.specs.Failing.{IfBecause};
ghost use Rattle.curp_seat.specs.Making.{with_item};
ghost use Rattle.curp_collected.specs.Causes.{Fails, FailsSo, IsUnread, OneFails, StopsAt, StopsBy};
ghost use Rattle.curp_collected.specs.Files.{AreOfHeader, IsFileOf, IsJournalAt, contents_of};
ghost use Rattle.curp_collected.specs.Kinds.{HasLog, HaveLogs};
ghost use Rattle.curp_collected.specs.Taking.{IsRefusedBy, IsReplayOf, IsTakenOf, is_past};

use crate::CollectError;
use crate::beginning::Beginning;
use crate::files::Files;
use curp_anew::takes_first;
use curp_base::Failed;
use curp_cmd::NodeId;
use curp_durable::{OpenError, inputs_in};
use curp_journal::{Arrived, Origin, is_own};
use curp_msg::Core;
use curp_seat::Kept;
use curp_title::title_of;

/// The journals of nodes by their files.
#[tactic(auto, using(crate::proofs::Logs::logs_push, crate::proofs::Failing::so_fails))]
pub(crate) fn journals_of<N: Core + Drop>(
    files: &Files<'_>,
    begun: Vec<Beginning<N>>,
) -> Result<Vec<Kept<N>>, Failed<CollectError>>
    requires { AreOfHeader files.now }
    ensures logs { IfOk result (λ logs.
        HaveLogs N.machine (contents_of files.now.each.items) files.now.until files.now.header begun.items logs.items) }
    ensures cause { IfErr result
        (IfBecause (OneFails N.machine (contents_of files.now.each.items) files.now.header begun.items)) }
{
    let mut logs = Vec::new(files.alloc);
    for beginning in begun {
        logs.reserve(1)?;
        if let Some(log) = journal_of(files, beginning)? {
            logs.push_reserved(log);
        }
    }
    Ok(logs)
}

/// The journal of a node by its file, where it has one. None where it isn't there before any step, and nothing came
/// to it.
pub(crate) fn journal_of<N: Core + Drop>(
    files: &Files<'_>,
    beginning: Beginning<N>,
) -> Result<Option<Kept<N>>, Failed<CollectError>>
    requires { AreOfHeader files.now }
    ensures log { IfOk result (λ log. HasLog N.machine (contents_of files.now.each.items) files.now.until
        files.now.header beginning (option_to_list log)) }
    ensures cause { IfErr result
        (IfBecause (Fails N.machine (contents_of files.now.each.items) files.now.header beginning)) }
{
    let origin = beginning.origin;
    let id = beginning.id;
    let Some(file) = files.of_node(id) else {
        return Ok(match origin {
            Origin::Opening => Some(Kept::begin(files.alloc, beginning.node, id)),
            Origin::Fresh => None,
        });
    };
    let log = replayed(files, file, id, beginning.node)?;
    match origin {
        Origin::Opening => Ok(Some(log)),
        Origin::Fresh if log.journal().is_empty() => Ok(None),
        Origin::Fresh if takes_first(log.journal()) => Ok(Some(log)),
        Origin::Fresh => Err(Failed::Because(CollectError::OrderFirst { file })),
    }
}

/// The journal in a file, of the node that its title names.
fn replayed<N: Core + Drop>(
    files: &Files<'_>,
    file: usize,
    id: NodeId,
    node: N,
) -> Result<Kept<N>, Failed<CollectError>>
    requires files { AreOfHeader files.now }
    requires file { IsFileOf files.now.each.items id file }
    ensures log { IfOk result (λ log. IsReplayOf N.machine (contents_of files.now.each.items) files.now.until
        files.now.header file id node log) }
    ensures cause { IfErr result
        (IfBecause (FailsSo N.machine (contents_of files.now.each.items) files.now.header id node)) }
{
    let inputs = inputs_of(files, file, id)?;
    taken(files, file, inputs, id, node)
}

/// The inputs in a file, which is that of the node.
fn inputs_of(
    files: &Files<'_>,
    file: usize,
    id: NodeId,
) -> Result<Vec<Arrived>, Failed<CollectError>>
    requires files { AreOfHeader files.now }
    requires file { IsFileOf files.now.each.items id file }
    ensures inputs { IfOk result (λ inputs.
        IsJournalAt (contents_of files.now.each.items) file files.now.header id inputs.items) }
    ensures cause { IfErr result (IfBecause (IsUnread (contents_of files.now.each.items))) }
{
    let title = title_of(id, &files.header);
    match inputs_in(files.alloc, files.each[file].content, &title) {
        Ok(inputs) => Ok(inputs),
        Err(Failed::Because(OpenError::Damaged { place })) => {
            Err(Failed::Because(CollectError::Damaged { file, place }))
        }
        Err(Failed::NoMemory) => Err(Failed::NoMemory),
        // The title was read before, and there is no disk.
        Err(Failed::Because(OpenError::NotFormatted | OpenError::DiskFault)) => {
            Err(Failed::Because(CollectError::NotAJournal { file }))
        }
    }
}

/// The journal of these inputs up to the last stamp that is wanted. They are those of that file.
fn taken<N: Core + Drop>(
    files: &Files<'_>,
    file: usize,
    inputs: Vec<Arrived>,
    id: NodeId,
    node: N,
) -> Result<Kept<N>, Failed<CollectError>>
    ensures log { IfOk result (IsTakenOf N.machine files.now.until id node inputs.items) }
    ensures cause { IfErr result (IfBecause (StopsAt N.machine id node inputs.items file)) }
{
    let mut log = Kept::begin(files.alloc, node, id);
    for input in inputs {
        if is_past(files.until, log.last_stamp(), &input) {
            return Ok(log);
        }
        take(&mut log, file, input)?;
    }
    Ok(log)
}

/// Whether the stamp that the input would get is past the last one that is wanted.
fn is_past(until: Option<u64>, last: u64, input: &Arrived) -> bool
    ensures { result ≡ is_past until (next_stamp last input.now) }
{
    match until {
        Some(until) => until <= last.max(input.stamp()),
        None => false,
    }
}

/// Gives the node an input, and keeps it with what was done.
fn take<N: Core + Drop>(
    log: &mut Kept<N>,
    file: usize,
    input: Arrived,
) -> Result<(), Failed<CollectError>>
    requires { log.old.ended ≡ false }
    ensures added { OnOk result (log.new ≡ with_item N.machine log.old input) }
    ensures own { OnOk result (IsOwn log.old.id input) }
    ensures taken { OnOk result (IsRefusedBy N.machine log.old input → ⊥) }
    ensures cause { IfErr result (IfBecause (StopsBy N.machine log.old input file)) }
{
    let number = log.journal().len() as u64 + 1;
    if !is_own(log.id(), &input) {
        return Err(Failed::Because(CollectError::Foreign { file, number }));
    }
    match log.step(input)? {
        0 => Ok(()),
        _ => Err(Failed::Because(CollectError::Refused { file, number })),
    }
}

//! What the node answers, and what is said of it.
ghost use Rattle.std.specs.Prelude.{◌≡◌, ◌≤◌, ◌++◌, [], true, false, IfOk, IfErr, IsOk, OnOk, Ok, Err};
ghost use Rattle.curp_durable.specs.Standing.{after, answers_of, taken};
ghost use Rattle.curp_io.specs.Streaming.{TellsFault};
ghost use Rattle.curp_io.specs.Streams.{HoldsPart};
ghost use Rattle.curp_parcels.specs.Outgoing.{has_encoding};
ghost use Rattle.curp_told.specs.Told.{all_told, parcels_of};
ghost use Rattle.curp_filter.specs.Coming.{arrivals_of, came_last, came_together, number_behind};
ghost use Rattle.curp_filter.specs.Keeping.{Keeps, Outlasts, kind};
ghost use Rattle.curp_filter.specs.Saying.{last_said, passed_told, text_of};
ghost use Rattle.curp_filter.specs.Turning.{EndsAnswering, EndsSaying, IsOfWriting, MovesBy, Unanswered, Wrote, outlet};

use crate::came::{MISDIRECTED, PassedOver};
use crate::end::FilterEnd;
use crate::gathering::Batch;
use curp_base::NoMemory;
use curp_disk::Disk;
use curp_durable::{Answered, Durable};
use curp_io::{Flushed, Sink, Written, write_piece};
use curp_journal::Arrived;
use curp_msg::Core;
use curp_parcels::Outgoing;
use curp_told::{tell, tell_one};
use std::alloc::Global;

/// What is said of inputs, and the number of the input behind them.
#[derive(Drop)]
struct BatchText {
    text: Vec<u8>,
    behind: u64,
}

/// Gives a batch to the node, the first input of which has this number, and writes what is said of it, once the node's
/// journal has what the node took. It gives the number of the next input.
pub(crate) fn answer<N: Core + Drop, D: Disk, K: Sink>(
    alloc: Global,
    node: &mut Durable<N, D>,
    number: u64,
    batch: Batch,
    sink: &mut K,
) -> Result<u64, FilterEnd>
    ensures counted { IfOk result (λ behind. behind
        ≡ number_behind number (came_together batch.arrived.items batch.last)) }
    ensures moved { OnOk result (MovesBy N.machine (kind D.tells D.seen D.may_leave D.moment D.left_since D.faults)
        (arrivals_of (came_together batch.arrived.items batch.last)) node.old node.new) }
    ensures wrote { OnOk result (Wrote
        (text_of N.machine node.old.stand number (came_together batch.arrived.items batch.last))
        (outlet (K.held sink.old) (K.tells sink.old) (K.faults sink.old) (K.flushed sink.old))
        (outlet (K.held sink.new) (K.tells sink.new) (K.faults sink.new) (K.flushed sink.new))) }
    ensures unanswered { IfErr result (Unanswered N.machine
        (kind D.tells D.seen D.may_leave D.moment D.left_since D.faults)
        (came_together batch.arrived.items batch.last) number node.old node.new
        (outlet (K.held sink.old) (K.tells sink.old) (K.faults sink.old) (K.flushed sink.old))
        (outlet (K.held sink.new) (K.tells sink.new) (K.faults sink.new) (K.flushed sink.new))) }
    ensures cause { IfErr result (EndsAnswering (kind D.tells D.seen D.may_leave D.moment D.left_since D.faults)
        (came_together batch.arrived.items batch.last) node.old node.new
        (outlet (K.held sink.old) (K.tells sink.old) (K.faults sink.old) (K.flushed sink.old))
        (outlet (K.held sink.new) (K.tells sink.new) (K.faults sink.new) (K.flushed sink.new))) }
{
    let said = say(alloc, node, number, batch)?;
    write_text(sink, &said.text)?;
    Ok(said.behind)
}

/// Gives a batch to the node, and puts what is said of it into a text.
fn say<N: Core + Drop, D: Disk>(
    alloc: Global,
    node: &mut Durable<N, D>,
    number: u64,
    batch: Batch,
) -> Result<BatchText, FilterEnd>
    ensures text { IfOk result (λ said. said.text.items
        ≡ text_of N.machine node.old.stand number (came_together batch.arrived.items batch.last)) }
    ensures counted { IfOk result (λ said. said.behind
        ≡ number_behind number (came_together batch.arrived.items batch.last)) }
    ensures moved { OnOk result (MovesBy N.machine (kind D.tells D.seen D.may_leave D.moment D.left_since D.faults)
        batch.arrived.items node.old node.new) }
    ensures outlasts { Outlasts N.machine (kind D.tells D.seen D.may_leave D.moment D.left_since D.faults)
        (taken N.machine node.old.stand batch.arrived.items) node.old node.new }
    ensures disk_faults { D.faults node.old.disk ≤ D.faults node.new.disk }
    ensures cause { IfErr result (EndsSaying D.faults batch.arrived.items node.old node.new) }
{
    let Batch { arrived, last } = batch;
    let behind = number.saturating_add(arrived.len() as u64);
    let answers = answers_to(alloc, node, arrived)?;
    Ok(text_for(alloc, number, &answers, behind, last)?)
}

/// What the node answers. Where it is given nothing, its journal isn't asked.
fn answers_to<N: Core + Drop, D: Disk>(
    alloc: Global,
    node: &mut Durable<N, D>,
    arrived: Vec<Arrived>,
) -> Result<Vec<Answered>, FilterEnd>
    ensures answers { IfOk result (λ answers. answers.items ≡ answers_of N.machine node.old.stand arrived.items) }
    ensures moved { OnOk result (MovesBy N.machine (kind D.tells D.seen D.may_leave D.moment D.left_since D.faults)
        arrived.items node.old node.new) }
    ensures outlasts { Outlasts N.machine (kind D.tells D.seen D.may_leave D.moment D.left_since D.faults)
        (taken N.machine node.old.stand arrived.items) node.old node.new }
    ensures disk_faults { D.faults node.old.disk ≤ D.faults node.new.disk }
    ensures cause { IfErr result (EndsSaying D.faults arrived.items node.old node.new) }
{
    if arrived.is_empty() {
        return Ok(Vec::new(alloc));
    }
    Ok(node.on_all(arrived)?)
}

/// What is said of answers, and of what stands behind them, if that isn't given to the node.
fn text_for(
    alloc: Global,
    number: u64,
    answers: &[Answered],
    behind: u64,
    last: Option<PassedOver>,
) -> Result<BatchText, NoMemory>
    ensures text { IfOk result (λ said. said.text.items
        ≡ parcels_of (all_told number answers.now) ++ parcels_of (last_said behind last)) }
    ensures counted { IfOk result (λ said. said.behind ≡ number_behind behind (came_last last)) }
{
    let mut text = Vec::new(alloc);
    tell(alloc, number, answers, &mut text)?;
    let Some(it) = last else {
        return Ok(BatchText { text, behind });
    };
    tell_one(alloc, &told_of(behind, &it), &mut text)?;
    Ok(BatchText {
        text,
        behind: behind.saturating_add(1),
    })
}

/// What is said of an input of this number that isn't given to the node.
pub fn told_of(input: u64, it: &PassedOver) -> Outgoing
    ensures told { result ≡ passed_told input it.now }
    ensures encoded { has_encoding result ≡ true }
{
    match it {
        PassedOver::Misdirected(_) => Outgoing::Refused {
            input,
            number: MISDIRECTED,
        },
        PassedOver::NoParcel { at } => Outgoing::NoParcel { input, at: *at },
    }
}

/// Writes a text, and passes it on.
pub fn write_text<K: Sink>(sink: &mut K, text: &[u8]) -> Result<(), FilterEnd>
    ensures wrote { K.tells sink.old ≡ true → OnOk result (K.held sink.new ≡ K.held sink.old ++ text.now) }
    ensures part { K.tells sink.old ≡ true → HoldsPart (K.held sink.old) (K.held sink.new) text.now }
    ensures passed_on { OnOk result (K.flushed sink.new ≡ true) }
    ensures writing { IfErr result IsOfWriting }
    ensures tells { K.tells sink.old ≡ true → K.tells sink.new ≡ true }
    ensures write_fault { TellsFault (result ≡ Err FilterEnd.WriteFault) (K.faults sink.old) (K.faults sink.new) }
{
    match write_piece(sink, text) {
        Written::Whole => pass_on(sink),
        Written::WriteFault => Err(FilterEnd::WriteFault),
        Written::NoMemory => Err(FilterEnd::NoMemory),
    }
}

/// Passes on what the sink holds back.
fn pass_on<K: Sink>(sink: &mut K) -> Result<(), FilterEnd>
    ensures held { K.tells sink.old ≡ true → K.held sink.new ≡ K.held sink.old }
    ensures passed_on { OnOk result (K.flushed sink.new ≡ true) }
    ensures stops { IfErr result (λ end. end ≡ FilterEnd.WriteFault) }
    ensures tells { K.tells sink.old ≡ true → K.tells sink.new ≡ true }
    ensures write_fault { TellsFault (result ≡ Err FilterEnd.WriteFault) (K.faults sink.old) (K.faults sink.new) }
{
    match sink.flush() {
        Flushed::Done => Ok(()),
        Flushed::Failed => Err(FilterEnd::WriteFault),
    }
}

ghost use Rattle.std.specs.Prelude.{◌≡◌, ◌<◌, ◌-◌, ◌^◌, [], true, IfOk, IfErr};
ghost use Rattle.curp_io.specs.Streaming.{TellsFault};
ghost use Rattle.curp_filter.specs.Keeping.{kind};
ghost use Rattle.curp_parcels.specs.Reading.{nothing_read};
ghost use Rattle.curp_filter.specs.Turning.{AnswersAll, AnswersFirst, Breaks, Filters, Turned, intake, outlet, point};

use crate::answering::answer;
use crate::came::Role;
use crate::end::FilterEnd;
use crate::gathering::gather;
use curp_disk::Disk;
use curp_durable::Durable;
use curp_io::{Sink, Source};
use curp_msg::Core;
use curp_parcels::Parcels;
use std::alloc::Global;

/// Reads parcels until the input ends, gives them to a node, and writes what is said of them.
///
/// What came together is one batch: the node's journal has what the node took of it before any of it is answered, and
/// all answers go out by one write, and are passed on before the source is asked for more. What is no parcel, and what
/// the node may not take, is answered and passed over: the node isn't given it, and its journal doesn't have it. After
/// any other end than `End` the source may have given bytes that have no answer. Inputs are counted from 1.
pub fn run_node<N: Core + Drop, D: Disk, S: Source, K: Sink>(
    alloc: Global,
    role: Role,
    node: &mut Durable<N, D>,
    source: &mut S,
    sink: &mut K,
) -> FilterEnd
    ensures runs { Filters N.machine (kind D.tells D.seen D.may_leave D.moment D.left_since D.faults) role
        node.old node.new (S.left source.old) (S.left source.new) (S.tells source.old) (S.tells source.new)
        (S.faults source.old) (S.faults source.new)
        (outlet (K.held sink.old) (K.tells sink.old) (K.faults sink.old) (K.flushed sink.old))
        (outlet (K.held sink.new) (K.tells sink.new) (K.faults sink.new) (K.flushed sink.new)) result }
    // Where the input ended behind a parcel, all of it was answered.
    ensures answered { S.tells source.old ≡ true → K.tells sink.old ≡ true → result ≡ FilterEnd.End
        → AnswersAll N.machine role node.old.stand (S.left source.old) (K.held sink.old) (K.held sink.new) }
    ensures end { S.tells source.old ≡ true → result ≡ FilterEnd.End → S.left source.new ≡ [] }
    // Whatever ended it: what was written is a part of what is to be said of what came first, and a crash leaves no
    // less.
    ensures prefix { AnswersFirst N.machine (kind D.tells D.seen D.may_leave D.moment D.left_since D.faults) role
        node.old node.new
        (intake nothing_read (S.left source.old) (S.tells source.old) (S.faults source.old))
        (outlet (K.held sink.old) (K.tells sink.old) (K.faults sink.old) (K.flushed sink.old))
        (outlet (K.held sink.new) (K.tells sink.new) (K.faults sink.new) (K.flushed sink.new)) }
    ensures read_fault { TellsFault (result ≡ FilterEnd.ReadFault) (S.faults source.old) (S.faults source.new) }
    ensures write_fault { TellsFault (result ≡ FilterEnd.WriteFault) (K.faults sink.old) (K.faults sink.new) }
{
    let mut parcels = Parcels::new(alloc);
    let mut number = 1;
    'batches: while number < u64::MAX {
        match turn(alloc, role, node, &mut parcels, number, source, sink) {
            Ok(behind) => number = behind,
            Err(end) => return end,
        }
    }
    FilterEnd::TooManyInputs
}

/// Gathers what comes together, the first of which has this number, and answers it. It gives the number of the next
/// input.
fn turn<N: Core + Drop, D: Disk, S: Source, K: Sink>(
    alloc: Global,
    role: Role,
    node: &mut Durable<N, D>,
    parcels: &mut Parcels,
    number: u64,
    source: &mut S,
    sink: &mut K,
) -> Result<u64, FilterEnd>
    ensures turned { IfOk result (λ behind. Turned N.machine
        (kind D.tells D.seen D.may_leave D.moment D.left_since D.faults) role
        (point (intake parcels.old (S.left source.old) (S.tells source.old) (S.faults source.old)) number node.old
        (outlet (K.held sink.old) (K.tells sink.old) (K.faults sink.old) (K.flushed sink.old)))
        (point (intake parcels.new (S.left source.new) (S.tells source.new) (S.faults source.new)) behind node.new
        (outlet (K.held sink.new) (K.tells sink.new) (K.faults sink.new) (K.flushed sink.new)))) }
    ensures counts { IfOk result (λ behind. number < 2 ^ 64 - 1 → number < behind) }
    ensures breaks { IfErr result (Breaks N.machine
        (kind D.tells D.seen D.may_leave D.moment D.left_since D.faults) role
        (point (intake parcels.old (S.left source.old) (S.tells source.old) (S.faults source.old)) number node.old
        (outlet (K.held sink.old) (K.tells sink.old) (K.faults sink.old) (K.flushed sink.old)))
        (point (intake parcels.new (S.left source.new) (S.tells source.new) (S.faults source.new)) number node.new
        (outlet (K.held sink.new) (K.tells sink.new) (K.faults sink.new) (K.flushed sink.new)))) }
{
    let batch = gather(alloc, role, node.count(), parcels, source)?;
    answer(alloc, node, number, batch, sink)
}

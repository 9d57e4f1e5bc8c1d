//! What came together.
ghost use Rattle.std.specs.Prelude.{◌≡◌, ◌<◌, ◌≤◌, ◌++◌, ℕ, List, length, true, Err, IfOk, IfErr, IfSome};
ghost use Rattle.curp_base.specs.Words.{Each};
ghost use Rattle.curp_io.specs.Streaming.{TellsFault};
ghost use Rattle.curp_filter.specs.Coming.{Comes, IsEndOf, IsReadyCame, arriving, came_together, parcel};
ghost use Rattle.curp_filter.specs.Taking.{AreJudgedTogether, IsJudged, IsUnbegun, MayTake};
ghost use Rattle.curp_filter.specs.Turning.{EndsInput, IsOfGathering};
ghost use Rattle.curp_parcels.specs.Reading.{IsNextParcel};

use crate::came::{Came, PassedOver, Role, is_unbegun, may_take};
use crate::end::FilterEnd;
use curp_base::NoMemory;
use curp_io::Source;
use curp_journal::Arrived;
use curp_parcels::{NextParcel, Parcels};
use std::alloc::Global;

/// Inputs that came together, and are answered together.
#[derive(Drop)]
pub(crate) struct Batch {
    /// Those that the node may take.
    pub arrived: Vec<Arrived>,
    /// What stands behind them, if the node isn't given it.
    pub last: Option<PassedOver>,
}

/// Waits for one input, and takes with it all arrivals behind it that were read ahead whole, up to one that isn't given
/// to the node, which took so many inputs before. To an unbegun node one comes alone: what may come next hangs on it.
pub(crate) fn gather<S: Source>(
    alloc: Global,
    role: Role,
    count: u64,
    parcels: &mut Parcels,
    source: &mut S,
) -> Result<Batch, FilterEnd>
    ensures gathers { S.tells source.old ≡ true → IfOk result (λ batch. Comes
        (came_together batch.arrived.items batch.last) (parcels.old.ahead ++ S.left source.old) parcels.old.passed
        (parcels.new.ahead ++ S.left source.new) parcels.new.passed) }
    ensures judged { IfOk result (λ batch. AreJudgedTogether role count batch.arrived.items batch.last) }
    ensures some { IfOk result (λ batch. 1 ≤ length (came_together batch.arrived.items batch.last)) }
    ensures ends { S.tells source.old ≡ true → IfErr result (λ end. EndsInput (parcels.old.ahead ++ S.left source.old)
        parcels.old.passed end (parcels.new.ahead ++ S.left source.new)) }
    ensures of_gathering { IfErr result IsOfGathering }
    ensures tells { S.tells source.old ≡ true → S.tells source.new ≡ true }
    ensures read_fault { TellsFault (result ≡ Err FilterEnd.ReadFault) (S.faults source.old) (S.faults source.new) }
{
    let first = came_of(role, count, parcels.next_parcel(source))?;
    Ok(gather_behind(alloc, role, count, first, parcels)?)
}

/// What came, or how a process ends that waited for it.
fn came_of(role: Role, count: u64, answer: NextParcel) -> Result<Came, FilterEnd>
    ensures came { IfOk result (λ came. parcel came ≡ answer) }
    ensures judged { IfOk result (IsJudged role count) }
    ensures ends { IfErr result (IsEndOf answer) }
{
    match answer {
        NextParcel::Arrived(arrived) => Ok(judge(role, count, arrived)),
        NextParcel::NoParcel { at } => Ok(Came::PassedOver(PassedOver::NoParcel { at })),
        NextParcel::End => Err(FilterEnd::End),
        NextParcel::Inside { at } => Err(FilterEnd::Inside { at }),
        NextParcel::TooLong { at } => Err(FilterEnd::TooLong { at }),
        NextParcel::ReadFault => Err(FilterEnd::ReadFault),
        NextParcel::NoMemory => Err(FilterEnd::NoMemory),
    }
}

/// What came in a parcel.
fn judge(role: Role, count: u64, arrived: Arrived) -> Came
    ensures came { parcel result ≡ NextParcel.Arrived arrived }
    ensures judged { IsJudged role count result }
{
    if may_take(role, count, &arrived) {
        Came::Arrived(arrived)
    } else {
        Came::PassedOver(PassedOver::Misdirected(arrived))
    }
}

/// The first, and all arrivals behind it that were read ahead whole and come with it.
fn gather_behind(
    alloc: Global,
    role: Role,
    count: u64,
    first: Came,
    parcels: &mut Parcels,
) -> Result<Batch, NoMemory>
    requires { IsJudged role count first }
    ensures judged { IfOk result (λ batch. AreJudgedTogether role count batch.arrived.items batch.last) }
    ensures gathers { (bytes : List ℕ) (passed : ℕ) (left : List ℕ)
        → IsNextParcel bytes passed (parcel first) (parcels.old.ahead ++ left) parcels.old.passed
        → IfOk result (λ batch. Comes (came_together batch.arrived.items batch.last) bytes passed
        (parcels.new.ahead ++ left) parcels.new.passed) }
    ensures some { IfOk result (λ batch. 1 ≤ length (came_together batch.arrived.items batch.last)) }
{
    match first {
        Came::Arrived(arrived) if is_unbegun(role, count) => Ok(Batch {
            arrived: vec![in alloc; arrived]?,
            last: None,
        }),
        Came::Arrived(arrived) => gather_arrivals(role, count, vec![in alloc; arrived]?, parcels),
        Came::PassedOver(it) => Ok(Batch {
            arrived: Vec::new(alloc),
            last: Some(it),
        }),
    }
}

/// These, and all arrivals behind them that were read ahead whole, up to one that isn't given to the node.
fn gather_arrivals(
    role: Role,
    count: u64,
    mut arrived: Vec<Arrived>,
    parcels: &mut Parcels,
) -> Result<Batch, NoMemory>
    requires begun { IsUnbegun role count → ⊥ }
    requires each { Each (MayTake role count) arrived.items }
    ensures judged { IfOk result (λ batch. AreJudgedTogether role count batch.arrived.items batch.last) }
    ensures gathers { (bytes : List ℕ) (passed : ℕ) (left : List ℕ)
        → Comes (arriving arrived.items) bytes passed (parcels.old.ahead ++ left) parcels.old.passed
        → IfOk result (λ batch. Comes (came_together batch.arrived.items batch.last) bytes passed
        (parcels.new.ahead ++ left) parcels.new.passed) }
    ensures more { IfOk result (λ batch. length arrived.items ≤ length batch.arrived.items) }
{
    'arrivals: loop {
        match ready(role, count, parcels) {
            Some(Came::Arrived(next)) => arrived.push(next)?,
            Some(Came::PassedOver(it)) => {
                return Ok(Batch {
                    arrived,
                    last: Some(it),
                });
            }
            None => {
                return Ok(Batch {
                    arrived,
                    last: None,
                });
            }
        }
    }
}

/// What is read ahead whole. What ends the process is left for the next call that waits.
fn ready(role: Role, count: u64, parcels: &mut Parcels) -> Option<Came>
    ensures judged { IfSome result (IsJudged role count) }
    ensures came { (left : List ℕ) → IsReadyCame (parcels.old.ahead ++ left) parcels.old.passed result
        (parcels.new.ahead ++ left) parcels.new.passed }
    ensures shrinks { IfSome result (λ _. length parcels.new.ahead < length parcels.old.ahead) }
{
    match parcels.ready_parcel() {
        Some(answer) => came_of(role, count, answer).ok(),
        None => None,
    }
}

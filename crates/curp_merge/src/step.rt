ghost use Rattle.std.specs.Prelude.{◌≡◌, true, length, slice_get, IfOk, IfSome};
ghost use Rattle.std.specs.List.{position};
ghost use Rattle.curp_cmd.specs.Node.{manager_node, same_node};
ghost use Rattle.curp_cmd.specs.declared.node.NodeKind.TheVariants as kind;
ghost use Rattle.curp_journal.specs.Turns.{AreApart, Journal, sent_by, turns_of};
ghost use Rattle.curp_journal.specs.Own.{IsOwn, is_order_of};
ghost use Rattle.curp_merge.specs.Weaving.{IsNextStep, IsNumberBy, IsNumberOf, IsOrderTo, CanBeTaken, NamedWasSent};
ghost use Rattle.curp_merge.specs.Weaving.{IsStepForInput, NamesInput, NamesTurn, SentBefore};

use crate::Strand;
use crate::track::Track;
use curp_base::NoMemory;
use curp_cmd::NodeId;
use curp_journal::{Arrived, Named};
use curp_msg::{Local, Step};

/// The step of a turn, and how many messages the turn sent.
#[derive(Drop)]
pub(crate) struct TurnStep {
    pub(crate) step: Step,
    pub(crate) sent: u64,
}

/// The step of the next turn of a strand of which so many were taken.
pub(crate) fn next_step(
    strands: &[Strand<'_>],
    tracks: &[Track],
    strand: &Strand<'_>,
    taken: usize,
) -> Result<TurnStep, NoMemory>
    requires apart { AreApart strands.now }
    requires one_manager { strand.now.id.kind ≡ kind.Manager → strand.now.id ≡ manager_node }
    requires ready { CanBeTaken strands.now tracks.now strand.now taken }
    ensures step { IfOk result (λ made. IsNextStep strands.now tracks.now strand.now taken made.step) }
    ensures names { IfOk result (λ made. IfSome (slice_get (turns_of strand.now) taken)
        (λ turn. NamesTurn strands.now tracks.now turn made.step)) }
    ensures sent { IfOk result (λ made. IfSome (slice_get (turns_of strand.now) taken)
        (λ turn. made.sent ≡ length (sent_by turn))) }
{
    let items = strand.items();
    if taken == items.len() {
        return Ok(TurnStep {
            step: Step::Stop { node: strand.id() },
            sent: 0,
        });
    }
    let item = &items[taken];
    Ok(TurnStep {
        step: step_of(strands, tracks, strand.id(), &item.input)?,
        sent: item.done.sent.len() as u64,
    })
}

/// The step that gives the node what came to it.
fn step_of(
    strands: &[Strand<'_>],
    tracks: &[Track],
    node: NodeId,
    input: &Arrived,
) -> Result<Step, NoMemory>
    requires apart { AreApart strands.now }
    requires one_manager { node.kind ≡ kind.Manager → node ≡ manager_node }
    requires own { IsOwn node input.now }
    requires sent { SentBefore strands.now tracks.now input.now }
    ensures step { IfOk result (IsStepForInput strands.now tracks.now node input.now) }
    ensures names { IfOk result (NamesInput strands.now tracks.now input.now) }
{
    match input {
        Arrived::Local(order, _) => order_step(node, order),
        Arrived::Message(named) => Ok(Step::Deliver {
            message: number_of(strands, tracks, named),
        }),
    }
}

/// The step that gives the node an order. It takes no memory, and fails where 2^63 - 1 hold its command.
fn order_step(node: NodeId, order: &Local) -> Result<Step, NoMemory>
    requires one_manager { node.kind ≡ kind.Manager → node ≡ manager_node }
    requires own { is_order_of node.kind order.now ≡ true }
    ensures { IfOk result (IsOrderTo node order.now) }
{
    Ok(match order {
        Local::Invoke(command) => Step::Invoke {
            client: node.number,
            command: command.share()?,
        },
        Local::Retry(seq) => Step::Retry {
            client: node.number,
            seq: *seq,
        },
        Local::Fetch => Step::Fetch {
            client: node.number,
        },
        Local::Sync => Step::Sync {
            master: node.number,
        },
        Local::Collect => Step::Collect {
            master: node.number,
        },
        Local::Recover {
            part,
            backup,
            witness,
        } => Step::Recover {
            part: *part,
            backup: *backup,
            witness: *witness,
        },
        Local::Replace {
            keeper,
            part,
            place,
        } => Step::Replace {
            keeper: *keeper,
            part: *part,
            place: *place,
        },
        Local::Migrate { lo, hi, to } => Step::Migrate {
            lo: *lo,
            hi: *hi,
            to: *to,
        },
        Local::Nudge => Step::Nudge,
        Local::Expire(client) => Step::Expire { client: *client },
    })
}

/// The number of a message that was sent before: 1 for the first of all.
fn number_of(strands: &[Strand<'_>], tracks: &[Track], named: &Named) -> u64
    requires apart { AreApart strands.now }
    requires sent { NamedWasSent strands.now tracks.now named.now }
    ensures number { IsNumberOf strands.now tracks.now named.now.message result }
    ensures names { IsNumberBy strands.now tracks.now named.now result }
{
    let Some(from) = place_of(strands, named.from) else {
        unreachable!()
    };
    let track = &tracks[from];
    let befores = track.as_slice();
    let before = befores[(named.step - 1) as usize];
    before + named.place
}

/// The place of the node's strand.
fn place_of(strands: &[Strand<'_>], node: NodeId) -> Option<usize>
    ensures { result ≡ position (λ (j : Journal). same_node j.id node) strands.now }
{
    strands.iter().position(|strand| strand.id() == node)
}

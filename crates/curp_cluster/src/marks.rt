// What is to be marked of an input to a node: of what masters push and capture, and of what the manager adopts.
ghost use Rattle.std.specs.Prelude.{◌≡◌, None, IfOk};
ghost use Rattle.std.specs.List.{list_any};
ghost use Rattle.curp_base.specs.Words.{numbered};
ghost use Rattle.curp_cmd.specs.Node.{same_node};
ghost use Rattle.curp_model.specs.Manager.{adopted_by};
ghost use Rattle.curp_msg.specs.Input.{input_of};
ghost use Rattle.curp_line.specs.Due as spec;
ghost use Rattle.curp_line.specs.Due.{HasRoomFor, IsSound, marks_by, master_at, most_due};
ghost use Rattle.curp_cluster.specs.Marks.{due_marks, due_to_master, told_due};

use crate::nodes::Nodes;
use curp_base::{NoMemory, Shared};
use curp_cmd::{NodeId, NodeKind, Request, Standby};
use curp_line::{Former, Line, Term, glanced, most_marks, op_requests};
use curp_msg::{Config, Input, Message};
use curp_nodes::MasterNode;
use std::alloc::Global;

/// What a recovery has replayed that is adopted: the length of the log that it was given, and the requests behind that.
#[derive(Drop)]
pub(crate) struct Adoption {
    term: Term,
    cut: u64,
    replayed: Vec<Shared<Request>>,
}

/// What is to be marked of an input, once its node got it.
#[derive(Drop)]
pub(crate) enum Due {
    Nothing,
    /// What a master has pushed and captured since, if it is adopted, and what it has answered at once.
    Since(Former),
    Adoption(Adoption),
}

// What a master does from now on that is to be marked.
fn due_of_master(nodes: &Nodes, to: NodeId, input: Input) -> Result<Due, NoMemory>
    requires { to.kind ≡ NodeKind.Master }
    ensures value { IfOk result (λ due. told_due due ≡ due_to_master nodes.now to (input_of input.entry)) }
    ensures sound { IfOk result (λ due. IsSound (told_due due) (numbered nodes.now.masters to.number)) }
{
    let adopted = is_adopted(nodes.manager().config(), to);
    let glanced = glanced(input)?;
    if !adopted && glanced.is_none() {
        return Ok(Due::Nothing);
    }
    match nodes.master(to.number).and_then(MasterNode::serving) {
        Some(master) => Ok(Due::Since(Former::of(master, adopted, glanced))),
        None => Ok(Due::Nothing),
    }
}

// What a recovery has replayed, if the manager adopts one by that message.
fn due_of_adoption(alloc: Global, nodes: &Nodes, message: &Message) -> Result<Due, NoMemory>
    ensures value { IfOk result (λ due. told_due due
        ≡ spec.due_of_adoption nodes.now.masters (adopted_by nodes.now.manager message.now.body)) }
    ensures sound { IfOk result (λ due. IsSound (told_due due) None) }
{
    let Some((master, order)) = nodes.manager().adoption(message) else {
        return Ok(Due::Nothing);
    };
    let Some(recovery) = nodes.master(master.number).and_then(MasterNode::recovering) else {
        return Ok(Due::Nothing);
    };
    let (Some(log), Some(cut)) = (recovery.log(), recovery.cut()) else {
        return Ok(Due::Nothing);
    };
    // For its clause alone.
    let _length = log.len();
    let term = Term {
        master,
        part: order.part,
        epoch: order.epoch,
    };
    Ok(Due::Adoption(Adoption {
        term,
        cut,
        replayed: op_requests(alloc, &log.suffix(cut)?)?,
    }))
}

impl Due {
    /// What will be due of the input, by the nodes before they got it.
    pub(crate) fn of(
        alloc: Global,
        nodes: &Nodes,
        to: NodeId,
        input: Input,
    ) -> Result<Due, NoMemory>
        ensures value { IfOk result (λ due. told_due due ≡ due_marks nodes.now to (input_of input.entry)) }
        ensures sound { IfOk result (λ due. IsSound (told_due due) (master_at to.kind to.number nodes.now.masters)) }
    {
        match to.kind {
            NodeKind::Master => due_of_master(nodes, to, input),
            NodeKind::Manager => match input {
                Input::Message(message) => due_of_adoption(alloc, nodes, message),
                Input::Local(_) => Ok(Due::Nothing),
            },
            _ => Ok(Due::Nothing),
        }
    }

    /// So many marks come of it at most.
    pub(crate) fn most(&self, input: Input) -> u64
        ensures { result ≡ most_due (told_due self.now) (spec.most_marks (input_of input.entry)) }
    {
        match self {
            Due::Nothing => 0,
            Due::Since(_) => most_marks(input),
            // One is that of the adoption itself.
            Due::Adoption(adoption) => 1 + adoption.replayed.len() as u64,
        }
    }

    /// Marks what was due, once the node got its input. It takes no memory, since there is room, and looks at no entry
    /// that stood in a log before, and at no read but the last one.
    pub(crate) fn mark(self, marks: &mut Line, standby: &mut Standby, to: NodeId, nodes: &Nodes)
        requires room { HasRoomFor (told_due self) (numbered nodes.now.masters to.number) marks.old.spare }
        requires ready { HasRoomFor (told_due self) (numbered nodes.now.masters to.number) standby.old }
        ensures { marks.new.marks ≡ marks_by (told_due self) to nodes.now.masters marks.old.marks }
    {
        match self {
            Due::Nothing => (),
            Due::Since(former) => {
                if let Some(master) = nodes.master(to.number).and_then(MasterNode::serving) {
                    former.mark(marks, standby, to, master);
                }
            }
            Due::Adoption(a) => {
                marks.adopted(standby, a.term, a.cut, &a.replayed);
            }
        }
    }
}

// Whether the master stands in the adopted configuration.
fn is_adopted(config: &Config, master: NodeId) -> bool
    ensures { result ≡ list_any (λ part. same_node part.master master) config.now.parts }
{
    config
        .parts
        .as_slice()
        .iter()
        .any(|part| part.master == master)
}

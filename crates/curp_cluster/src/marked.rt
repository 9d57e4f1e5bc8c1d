ghost use Rattle.std.specs.Prelude.{◌≡◌, true, IfOk};
ghost use Rattle.curp_model.specs.Marks.{shown};
ghost use Rattle.curp_model.specs.World.{World, has_node, moves, opening};
ghost use Rattle.curp_msg.specs.Input.{input_of};
ghost use Rattle.curp_msg.specs.Script.{IsHeader};
ghost use Rattle.curp_cluster.specs.Marked.{Takes, marked_of, with_marked};
ghost use Rattle.curp_cluster.specs.Nodes.{with_nodes};

use crate::marks::Due;
use crate::nodes::Nodes;
use curp_base::NoMemory;
use curp_cmd::{KeptCommand, NodeId, RequestId, Standby};
use curp_line::{Line, flag};
use curp_msg::{Done, Header, Input};
use std::alloc::Global;
use std::marker::Model;

/// All nodes, and the marks of what they did.
#[derive(Drop)]
pub(crate) struct Marked {
    alloc: Global,
    nodes: Nodes,
    marks: Line,
    // Places for the commands that an input marks.
    marking: Standby,
}

impl Model for Marked {
    ghost use Rattle.curp_cluster.specs.Marked.{MarkedNodes};

    ghost Value = { MarkedNodes };

    ghost view = { λ m. record { nodes = m.nodes; marks = m.marks.marks } };
}

impl Marked {
    /// The nodes of a header as at opening. They did nothing yet.
    pub(crate) fn new(alloc: Global, header: &Header) -> Result<Marked, NoMemory>
        requires { IsHeader header.now }
        ensures { IfOk result (λ marked. marked ≡ marked_of (opening header.now)) }
    {
        Ok(Marked {
            alloc,
            nodes: Nodes::new(alloc, header)?,
            marks: Line::new(alloc),
            marking: Standby::new(alloc),
        })
    }

    pub(crate) fn nodes(&self) -> &Nodes
        ensures { result.now ≡ self.now.nodes }
    {
        &self.nodes
    }

    /// The order of the requests that the marks give.
    pub(crate) fn order(&self) -> Result<Vec<(RequestId, KeptCommand)>, NoMemory>
        ensures { IfOk result (λ requests. requests.items ≡ shown self.now.marks) }
    {
        self.marks.order()
    }

    /// The node of that name, which is there, gets an input. It moves as in a world of these nodes, and what is due of it
    /// is marked.
    pub(crate) fn give(&mut self, to: NodeId, input: Input) -> Result<Done, NoMemory>
        requires there { (w : World) × (has_node (with_nodes w self.old.nodes) to ≡ true) }
        ensures { (w : World) → Takes self.old self.new result
            (moves (with_marked w self.old) to (input_of input.entry)) }
    {
        let due = Due::of(self.alloc, &self.nodes, to, input)?;
        let most = due.most(input);
        self.marks.reserve(most)?;
        self.marking.reserve(most)?;
        let done = self.nodes.give(to, input)?;
        if done.refused != 0 {
            return Ok(done);
        }
        due.mark(&mut self.marks, &mut self.marking, to, &self.nodes);
        flag(&mut self.marks, done.completed);
        Ok(done)
    }
}

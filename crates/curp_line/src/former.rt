//! What a master has done with an input, of which marks come.
ghost use Rattle.std.specs.Prelude.{◌≡◌, ◌≤◌, ◌++◌, [], ◌∷◌, List, Some, true, option_copied};
ghost use Rattle.curp_model.specs.Master.{Captured as CapturedRead};
ghost use Rattle.curp_model.specs.Recovery.{Serving};
ghost use Rattle.curp_model.specs.World.{capture_mark};
ghost use Rattle.curp_line.specs.Due.{HasRoomSince, IsSound, Since, answered, former, has_answered, is_captured_behind};
ghost use Rattle.curp_line.specs.Due.{marks_behind, marks_of_serving};

use crate::line::Line;
use crate::ops::add_ops;
use crate::term::Term;
use curp_base::Shared;
use curp_cmd::{KeptCommand, NodeId, Request, Standby};
use curp_master::{Captured, Master};

/// A master that serves, before it gets an input: whether it is adopted, how long its log is, the numbers of its last
/// capture and of its last round, and the read that the input asks it to answer at once.
#[derive(Drop)]
pub struct Former {
    adopted: bool,
    length: u64,
    captured: u64,
    round: u64,
    glanced: Option<Shared<Request>>,
}

impl Former {
    /// The master as it is: whether it is adopted is told, and the read that its input asks it to answer at once.
    pub fn of(master: &Master, adopted: bool, glanced: Option<Shared<Request>>) -> Former
        ensures value { result ≡ former adopted glanced master.now.state }
        ensures sound { IsSound (Since result) (Some (Serving master.now.state)) }
    {
        Former {
            adopted,
            length: master.log().len(),
            captured: master.captured(),
            round: master.round(),
            glanced,
        }
    }

    /// Marks what the master has done since, once it got its input: what it has pushed and captured, if it is adopted, and
    /// the read that it has answered at once. It takes no memory, since there is room, and looks at no entry that stood in
    /// its log before, and at no read but the last one.
    pub fn mark(self, marks: &mut Line, standby: &mut Standby, node: NodeId, master: &Master)
        requires room { HasRoomSince self master.now.state marks.old.spare }
        requires ready { HasRoomSince self master.now.state standby.old }
        ensures { marks.new.marks ≡ marks_of_serving node self master.now.state marks.old.marks }
    {
        if self.adopted {
            self.add_behind(marks, standby, node, master);
        }
        if let Some(read) = self.answered(master) {
            let (term, id) = (term_of(node, master), read.id);
            marks.quick(term, master.captured(), id, KeptCommand::of(read));
        }
    }

    // The read that the master has answered at once since: a capture was numbered, and no round began.
    fn answered(self, master: &Master) -> Option<Shared<Request>>
        ensures { result ≡ answered self master.now.state }
    {
        if self.captured < master.captured() && master.round() == self.round {
            self.glanced
        } else {
            None
        }
    }

    // What the master has pushed since, and the read that it has captured, if it has.
    fn add_behind(&self, marks: &mut Line, standby: &mut Standby, node: NodeId, master: &Master)
        requires room { HasRoomSince self.now master.now.state marks.old.spare }
        requires ready { HasRoomSince self.now master.now.state standby.old }
        ensures marks { marks.new.marks ≡ marks.old.marks ++ marks_behind node self.now master.now.state }
        ensures spare { has_answered self.now master.now.state ≡ true → 1 ≤ marks.new.spare }
    {
        let log = master.log();
        // For their clauses alone.
        let (_length, _captured) = (log.len(), master.captured());
        add_ops(marks, standby, term_of(node, master), self.length, log);
        if is_captured_behind(master.last_capture(), self.captured) {
            add_capture(marks, standby, node, master);
        }
    }
}

// Whether the read was captured behind that number.
fn is_captured_behind(last: Option<&Captured>, captured: u64) -> bool
    ensures { result ≡ is_captured_behind captured (option_copied last.entry) }
{
    match last {
        Some(last) => captured < last.number(),
        None => false,
    }
}

// The time of the master over its partition.
fn term_of(node: NodeId, master: &Master) -> Term
    ensures { result ≡ record {
      master = node;
      part = master.now.state.part;
      epoch = master.now.state.epoch;
    } }
{
    Term {
        master: node,
        part: master.part(),
        epoch: master.epoch(),
    }
}

// The read that the master captured last.
fn add_capture(marks: &mut Line, standby: &mut Standby, node: NodeId, master: &Master)
    requires room { 1 ≤ marks.old.spare }
    requires ready { 1 ≤ standby.old }
    ensures { (older : List CapturedRead) (capture : CapturedRead) → master.now.state.captures ≡ older ++ capture ∷ []
        → marks.new.marks ≡ marks.old.marks
        ++ capture_mark node master.now.state.part master.now.state.epoch capture ∷ [] }
{
    let term = term_of(node, master);
    if let Some(last) = master.last_capture() {
        let (number, length) = (last.number(), last.log_length());
        let command = standby.keep(last.request());
        marks.looked(term, number, length, last.id(), command);
    }
}

ghost use Rattle.std.specs.Prelude.{◌≡◌, ◌≤◌, [], IfOk};
ghost use Rattle.std.specs.Option.{option_map};
ghost use Rattle.curp_nodes.specs.Stages.{IsShellIn, recovery_state, served, serving_state};
ghost use Rattle.curp_model.specs.Master.{beginning};
ghost use Rattle.curp_model.specs.Recovery.{Fresh, Serving};

use crate::stage::{Stage, adopted, heard, shell_of};
use curp_base::NoMemory;
use curp_cmd::NodeId;
use curp_log::Log;
use curp_master::{Master, Shell};
use curp_msg::{Core, Done, Local, Message};
use curp_recover::Recovery;
use std::alloc::Global;
use std::marker::Model;
use std::mem;

/// A master as a node: fresh until it gets its order, recovering then, and serving once it is adopted.
pub struct MasterNode {
    alloc: Global,
    stage: Stage,
}

impl Drop for MasterNode {
    fn drop(self) {
        let MasterNode { alloc: _, stage: _ } = self;
    }
}

impl Model for MasterNode {
    ghost use Rattle.curp_nodes.specs.Stages.{node_of};
    ghost use Rattle.curp_model.specs.Recovery.{MasterStage};
    ghost use Rattle.curp_msg.specs.Moved.{Node};

    ghost Value = { Node MasterStage };

    ghost view = { λ n. node_of n.stage };
}

impl MasterNode {
    /// A master of that number that has no order yet. It takes no memory.
    pub fn fresh(alloc: Global, number: u32) -> MasterNode
        ensures number { result.number ≡ number }
        ensures state { result.state ≡ Fresh }
    {
        MasterNode {
            alloc,
            stage: Stage::Fresh { number },
        }
    }

    /// The master of a partition, of the same number, as at opening: it serves at epoch 1 and version 1, with these
    /// lists, and with an empty log.
    pub fn new(
        alloc: Global,
        part: u32,
        backups: Vec<NodeId>,
        witnesses: Vec<NodeId>,
        lo: u64,
        hi: u64,
    ) -> Result<MasterNode, NoMemory>
        requires { lo ≤ hi }
        ensures number { IfOk result (λ m. m.number ≡ part) }
        ensures state { IfOk result (λ m. m.state
            ≡ Serving (beginning part 1 1 backups.items witnesses.items lo hi [] 0)) }
    {
        let shell = Master::shell(alloc, part, part, 1, 1, backups, witnesses)?;
        let log = Log::begin(alloc, lo, hi)?;
        Ok(MasterNode {
            alloc,
            stage: Stage::Serving(Master::begin(shell, log, 0)),
        })
    }

    /// The master, once it serves.
    pub fn serving(&self) -> Option<&Master>
        ensures { option_map (λ m. m.now.state) result ≡ serving_state self.now.state }
    {
        match &self.stage {
            Stage::Serving(master) => Some(master),
            _ => None,
        }
    }

    /// Its recovery, from its order on until it serves.
    pub fn recovering(&self) -> Option<&Recovery>
        ensures { option_map (λ r. r.now.state) result ≡ recovery_state self.now.state }
    {
        match &self.stage {
            Stage::Recovering(recovery) => Some(recovery),
            _ => None,
        }
    }

    // Its recovery is adopted.
    fn serve(&mut self, shell: Shell)
        requires { IsShellIn self.old.number self.old.state shell }
        ensures { self.new ≡ served self.old }
    {
        let stage = mem::replace(&mut self.stage, Stage::Fresh { number: 0 });
        self.stage = match stage {
            Stage::Recovering(recovery) => adopted(recovery, shell),
            stage => stage,
        };
    }
}

impl Core for MasterNode {
    ghost use Rattle.curp_nodes.specs.Machines.{master_machine};
    ghost use Rattle.curp_nodes.specs.Refusals.{master_refusals, master_taken};

    ghost machine = { master_machine };

    ghost refusals = { master_refusals };

    ghost messages_taken = { master_taken };

    #[tactic(auto, unfolding(crate::specs::Machines::master_machine, curp_model::specs::Recovery::on_master))]
    fn on_message(&mut self, message: &Message) -> Result<Done, NoMemory> {
        match &mut self.stage {
            Stage::Fresh { number } => {
                let (stage, done) = heard(self.alloc, *number, &message.body)?;
                self.stage = stage;
                Ok(done)
            }
            Stage::Recovering(recovery) if recovery.is_adopted_by(message) => {
                let shell = shell_of(self.alloc, recovery)?;
                self.serve(shell);
                Ok(Done::quiet(self.alloc))
            }
            Stage::Recovering(recovery) => recovery.on_message(message),
            Stage::Serving(master) => master.on_message(message),
        }
    }

    #[tactic(auto, unfolding(crate::specs::Machines::master_machine, curp_model::specs::Recovery::master_ordered))]
    fn on_order(&mut self, order: &Local) -> Result<Done, NoMemory> {
        match &mut self.stage {
            Stage::Fresh { .. } => Ok(Done::quiet(self.alloc)),
            Stage::Recovering(recovery) => recovery.on_order(order),
            Stage::Serving(master) => master.on_order(order),
        }
    }
}

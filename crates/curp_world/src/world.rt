ghost use Rattle.std.specs.Prelude.{◌≡◌, ◌≢◌, ◌+◌, ◌<◌, ◌^◌, ◌↔◌, ℕ, true, [], length, OnOk, OnErr, IfOk};
ghost use Rattle.std.specs.Option.{option_copied, option_map};
ghost use Rattle.curp_base.specs.Words.{numbered};
ghost use Rattle.curp_order.specs.Order.{IsHistory, IsOrder};
ghost use Rattle.curp_script.specs.declared.error.FieldName.{FieldName};
ghost use Rattle.curp_script.specs.Headers.{bad_field};
ghost use Rattle.curp_facts.specs.Kept.{Kept};
ghost use Rattle.curp_msg.specs.Script.{IsStep};
ghost use Rattle.curp_law_linear.specs.Line.{StandsIn};
ghost use Rattle.curp_law_linear.specs.Grows.{completed_in_order};
ghost use Rattle.curp_model.specs.Causes.{IsLight, IsRunning, IsSent, IsThere, SparesManager};
ghost use Rattle.curp_model.specs.World as world;

use curp_base::NoMemory;
use curp_cluster::Cluster;
use curp_cmd::laws::names_one_to_four_keys;
use curp_cmd::{Answer, KeptCommand, RequestId};
use curp_msg::{Header, Message, Outcome, Step, StepResult};
use curp_nodes::ClientNode;
use curp_order::History;
use curp_script::{FieldName, bad_field};
use std::alloc::Global;
use std::marker::Model;
use thiserror::Error;

/// Why no world begins.
#[derive(Clone, Copy, Debug, PartialEq, Eq, Error)]
pub enum BeginError {
    /// The header's value of that name is out of its range. It is the first such name, in byte
    /// order.
    #[error("the header's {field} is out of its range")]
    BadHeader { field: FieldName },
    /// There was no memory for it.
    #[error("out of memory")]
    NoMemory,
}

/// A run of a script: the nodes, every message that was ever sent, and the history. A message that no step delivers is
/// lost; one may be delivered often, and in any order.
pub struct World {
    cluster: Cluster,
}

impl Drop for World {
    fn drop(self) {
        let World { cluster: _ } = self;
    }
}

impl Model for World {
    ghost use Rattle.curp_model.specs.World as model;
    ghost use Rattle.curp_world.specs.Reached.{Reached};

    ghost Value = { model.World };

    ghost view = { λ w. w.cluster };

    ghost invariant = { λ w. Reached w.cluster };
}

impl World {
    /// The world of a header before any step: its clients, the manager, and the master, the backups and the witnesses of
    /// each partition.
    pub fn begin(alloc: Global, header: &Header) -> Result<World, BeginError>
        ensures ok { IfOk result (λ w. w ≡ world.world header.now []) }
        ensures bad_header { (field : FieldName) → (result ≡ Err (BeginError.BadHeader field))
            ↔ (bad_field header.now ≡ Some field) }
    {
        if let Some(field) = bad_field(header) {
            return Err(BeginError::BadHeader { field });
        }
        match Cluster::new(alloc, header) {
            Ok(cluster) => Ok(World { cluster }),
            Err(_) => Err(BeginError::NoMemory),
        }
    }

    /// Makes a step. Where it can't be made the outcome tells why: the first cause that holds, in the order of these
    /// clauses. No node gets anything once all messages weigh more than 2,000,000. What is completed stands in the order
    /// after it as before.
    pub fn step(&mut self, step: &Step) -> Result<Outcome, NoMemory>
        ensures state { OnOk result (self.new ≡ (world.step self.old step.now).world) }
        ensures outcome { IfOk result (λ outcome. outcome ≡ (world.step self.old step.now).outcome) }
        ensures no_message { IfOk result (λ outcome. (outcome.result ≡ StepResult.NoMessage)
            ↔ (world.is_lost self.old step.now ≡ true)) }
        ensures no_node { IfOk result (λ outcome. (outcome.result ≡ StepResult.NoNode)
            ↔ (IsSent self.old step.now × (world.names_nobody self.old step.now ≡ true))) }
        ensures manager { IfOk result (λ outcome. (outcome.result ≡ StepResult.Manager)
            ↔ (IsThere self.old step.now × (world.stops_manager step.now ≡ true))) }
        ensures gone { IfOk result (λ outcome. (outcome.result ≡ StepResult.Gone)
            ↔ (SparesManager self.old step.now × (world.names_stopped self.old step.now ≡ true))) }
        ensures full { IfOk result (λ outcome. (much : ℕ) → (outcome.result ≡ StepResult.Full much)
            ↔ (IsRunning self.old step.now × (world.is_too_much self.old (world.deed_of self.old step.now) ≡ true)
            × (much ≡ world.weight self.old))) }
        ensures refused { IfOk result (λ outcome. (number : ℕ) → (outcome.result ≡ StepResult.Refused number)
            ↔ (IsLight self.old step.now × (world.refusal self.old step.now ≢ 0)
            × (number ≡ world.refusal self.old step.now))) }
        ensures done { IfOk result (λ outcome. (outcome.result ≡ StepResult.Done)
            ↔ (IsLight self.old step.now × (world.refusal self.old step.now ≡ 0))) }
        ensures grows { StandsIn (completed_in_order self.old) (completed_in_order self.new) }
        ensures unchanged { IfOk result (λ outcome. outcome.result ≢ StepResult.Done → self.new ≡ self.old) }
        ensures err { OnErr result (self.new ≡ self.old) }
    {
        names_its_keys(step);
        crate::laws::order_grows();
        crate::laws::results_have_causes();
        crate::laws::only_the_named_node_moves();
        self.cluster.step(step)
    }

    /// What holds of every world that a script leads to: from any backup and any witness of a partition's adopted lists
    /// all can be recovered that a client has completed, or may still complete; each hash is owned once, or on its way;
    /// what was told agrees with the order, also what a superseded master tells late. There is nothing to run: the clause
    /// is had by the call.
    pub fn keeps(&self)
        ensures { Kept self.now }
    {
        crate::laws::kept_stands();
        // For what the world's type keeps.
        let _history = self.cluster.history();
    }

    /// What all messages weigh that were ever sent. A message weighs 1, and 1 more for each entry that it carries, each
    /// pair of a multi-put in an entry, and each other thing that `curp_msg::weight` names. The sum stands still at
    /// 2^64 - 1.
    pub fn weight(&self) -> u64
        ensures { result ≡ world.weight self.now }
    {
        self.cluster.weight()
    }

    /// The client of that number, counted from 1. A stopped one is as it was when it was stopped.
    pub fn client(&self, number: u32) -> Option<&ClientNode>
        ensures { option_map (λ client. client.now.state) result ≡ numbered self.now.clients number }
    {
        self.cluster.client(number)
    }

    /// How many masters were made so far, the stopped and the fresh ones too.
    pub fn master_count(&self) -> u32
        ensures { result ≡ length self.now.masters }
    {
        self.cluster.master_count()
    }

    /// How many messages were ever sent. Their numbers and the next one fit a `u64`.
    pub fn message_count(&self) -> u64
        ensures count { result ≡ length (world.messages self.now) }
        ensures fits { result < u64.MAX }
    {
        self.cluster.message_count()
    }

    /// The message of that number, counted from 1.
    pub fn message(&self, number: u64) -> Option<&Message>
        ensures { option_copied result ≡ numbered (world.messages self.now) number }
    {
        self.cluster.message(number)
    }

    /// The messages of the step whose first message has that number, else none. The numbers of all fit a `u64`.
    pub fn sent(&self, first: u64) -> &[Message]
        ensures messages { result.now ≡ world.sent_at 1 self.now.sent first }
        ensures fits { first + length result.now < 2 ^ 64 }
    {
        self.cluster.sent(first)
    }

    /// What all clients saw, in the order in which it happened.
    pub fn history(&self) -> &History
        ensures events { result.now.events ≡ self.now.history }
        ensures is_history { IsHistory self.now.history }
    {
        crate::laws::history_stands();
        self.cluster.history()
    }

    /// One order of the requests, each with the answer of one thread. It is an order of the history.
    pub fn order(&self, alloc: Global) -> Result<Vec<(RequestId, KeptCommand, Answer)>, NoMemory>
        ensures list { IfOk result (λ list. list.items ≡ world.answered_order self.now) }
        ensures is_order { IsOrder self.now.history (world.order self.now) }
    {
        crate::laws::order_stands();
        self.cluster.order(alloc)
    }
}

// What the laws of every script ask of a step.
fn names_its_keys(step: &Step)
    ensures { IsStep step.now }
{
    if let Step::Invoke { command, .. } = step {
        names_one_to_four_keys(command);
    }
}

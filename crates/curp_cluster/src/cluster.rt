ghost use Rattle.std.specs.Prelude.{◌≡◌, ◌≤◌, ◌<◌, ◌^◌, ◌++◌, ◌+◌, length, IfOk};
ghost use Rattle.std.specs.Option.{option_copied, option_map};
ghost use Rattle.curp_base.specs.Words.{all_of, numbered};
ghost use Rattle.curp_msg.specs.Input as input;
ghost use Rattle.curp_msg.specs.Script.{IsHeader};
ghost use Rattle.curp_model.specs.World as world;
ghost use Rattle.curp_order.specs.Recorded.{invocation};
ghost use Rattle.curp_cluster.specs.Given.{MakesStep, barrier, expires_nobody, hands, invoked_by};

use crate::marked::Marked;
use curp_base::{Items, NoMemory, Shared};
use curp_cmd::{Answer, KeptCommand, NodeId, Request, RequestId};
use curp_msg::{
    Completed, Config, Done, Header, Input, Local, Message, Outcome, Step, StepResult, WEIGHT_LIMIT,
};
use curp_nodes::ClientNode;
use curp_order::History;
use curp_sent::{MessagePlace, SentMessages, Stopped, answered, order_of};
use std::alloc::Global;
use std::marker::Model;

/// All nodes, every message that was ever sent, the history, and the marks.
pub struct Cluster {
    marked: Marked,
    stopped: Stopped,
    sent: SentMessages,
    history: History,
}

impl Drop for Cluster {
    fn drop(self) {
        let Cluster {
            marked: _,
            stopped: _,
            sent: _,
            history: _,
        } = self;
    }
}

impl Model for Cluster {
    ghost use Rattle.curp_model.specs.World.{World};
    ghost use Rattle.curp_cluster.specs.Marked.{seen};

    ghost Value = { World };

    ghost view = { λ c. seen c.marked c.stopped c.sent.lists c.history.events };
}

impl Cluster {
    /// The nodes of a header as at opening.
    pub fn new(alloc: Global, header: &Header) -> Result<Cluster, NoMemory>
        requires { IsHeader header.now }
        ensures { IfOk result (λ cluster. cluster ≡ world.opening header.now) }
    {
        Ok(Cluster {
            marked: Marked::new(alloc, header)?,
            stopped: Stopped::new(alloc),
            sent: SentMessages::new(alloc),
            history: History::new(alloc),
        })
    }

    /// What all messages weigh that were ever sent. The sum stands still at 2^64 - 1.
    #[tactic(auto, unfolding(curp_model::specs::World::weight))]
    pub fn weight(&self) -> u64
        ensures { result ≡ world.weight self.now }
    {
        self.sent.weight()
    }

    /// The client of that number, counted from 1. A stopped one is as it was when it was stopped.
    pub fn client(&self, number: u32) -> Option<&ClientNode>
        ensures { option_map (λ client. client.now.state) result ≡ numbered self.now.clients number }
    {
        self.marked.nodes().client(number)
    }

    /// The configuration that the manager has adopted.
    pub fn config(&self) -> &Config
        ensures { result.now ≡ self.now.manager.config }
    {
        self.marked.nodes().manager().config()
    }

    /// How many masters were made so far, the stopped and the fresh ones too.
    pub fn master_count(&self) -> u32
        ensures { result ≡ length self.now.masters }
    {
        self.marked.nodes().master_count()
    }

    /// How many messages were ever sent. Their numbers and the next one fit a `u64`.
    pub fn message_count(&self) -> u64
        ensures count { result ≡ length (world.messages self.now) }
        ensures fits { result < u64.MAX }
    {
        self.sent.count()
    }

    /// The message of that number, counted from 1.
    pub fn message(&self, number: u64) -> Option<&Message>
        ensures { option_copied result ≡ numbered (world.messages self.now) number }
    {
        self.sent.get(number)
    }

    /// The messages of the step whose first message has that number, else none. The numbers of all fit a `u64`.
    pub fn sent(&self, first: u64) -> &[Message]
        ensures messages { result.now ≡ world.sent_at 1 self.now.sent first }
        ensures fits { first + length result.now < 2 ^ 64 }
    {
        self.sent.step_at(first)
    }

    /// What all clients saw, in the order in which it happened.
    pub fn history(&self) -> &History
        ensures { result.now.events ≡ self.now.history }
    {
        &self.history
    }

    /// The order of the requests that the marks give, each with the answer of one thread.
    pub fn order(&self, alloc: Global) -> Result<Vec<(RequestId, KeptCommand, Answer)>, NoMemory>
        ensures { IfOk result (λ list. list.items ≡ world.answered_order self.now) }
    {
        let requests = self.marked.order()?;
        answered(alloc, &requests)
    }

    /// Makes a step. Where it can't be made the outcome tells why.
    pub fn step(&mut self, step: &Step) -> Result<Outcome, NoMemory>
        ensures { MakesStep self.old self.new result (world.step self.old step.now) }
    {
        if let Some((to, order)) = order_of(step)? {
            if self.expires_nobody(step) {
                return Ok(self.silent(StepResult::NoNode));
            }
            return self.hand(to, &order);
        }
        match step {
            Step::Deliver { message } => self.deliver(*message),
            Step::Stop { node } => self.stop(*node),
            // Every other step is an order.
            _ => unreachable!(),
        }
    }

    // The message of that number comes to its addressee.
    fn deliver(&mut self, number: u64) -> Result<Outcome, NoMemory>
        ensures { MakesStep self.old self.new result (world.step self.old (Step.Deliver number)) }
    {
        let place = self.sent.place_of(number);
        let Some(to) = self.addressee(&place) else {
            return Ok(self.silent(StepResult::NoMessage));
        };
        if let Some(why) = self.barrier(to) {
            return Ok(self.silent(why));
        }
        self.sent.reserve()?;
        self.history.reserve(2)?;
        let Some(message) = self.sent.get_at(&place) else {
            unreachable!();
        };
        let Done {
            refused,
            sent,
            invoked: _,
            completed,
        } = self.marked.give(to, Input::Message(message))?;
        if refused != 0 {
            return Ok(self.silent(StepResult::Refused { number: refused }));
        }
        Ok(keep(&mut self.sent, &mut self.history, None, sent, completed))
    }

    // The node of that name, which is of the kind that the order is for, is handed it.
    fn hand(&mut self, to: NodeId, order: &Local) -> Result<Outcome, NoMemory>
        requires { to.kind ≡ world.taker_of order.now }
        ensures { MakesStep self.old self.new result (hands self.old to (input.Local order.now)) }
    {
        if let Some(why) = self.barrier(to) {
            return Ok(self.silent(why));
        }
        self.sent.reserve()?;
        self.history.reserve(2)?;
        let Done {
            refused,
            sent,
            invoked,
            completed,
        } = self.marked.give(to, Input::Local(order))?;
        if refused != 0 {
            return Ok(self.silent(StepResult::Refused { number: refused }));
        }
        let invoked = invoked_by(order, invoked);
        Ok(keep(&mut self.sent, &mut self.history, invoked, sent, completed))
    }

    // Whether the step declares a client gone that isn't there.
    fn expires_nobody(&self, step: &Step) -> bool
        ensures { result ≡ expires_nobody self.now step.now }
    {
        match step {
            Step::Expire { client } => !self.has_node(NodeId::client(*client)),
            _ => false,
        }
    }

    // Whom the message of that place goes to.
    fn addressee(&self, place: &MessagePlace) -> Option<NodeId>
        ensures { result ≡ option_map (λ m. m.to) (numbered (world.messages self.now) place.now) }
    {
        self.sent.get_at(place).map(|message| message.to)
    }

    // Why the node of that name gets nothing, whatever it is: it isn't there, it is stopped, or all messages weigh too
    // much.
    fn barrier(&self, to: NodeId) -> Option<StepResult>
        ensures { result ≡ barrier self.now to }
    {
        if !self.has_node(to) {
            return Some(StepResult::NoNode);
        }
        if self.stopped.contains(to) {
            return Some(StepResult::Gone);
        }
        let weight = self.weight();
        if weight > WEIGHT_LIMIT {
            return Some(StepResult::Full { weight });
        }
        None
    }

    fn has_node(&self, node: NodeId) -> bool
        ensures { result ≡ world.has_node self.now node }
    {
        self.marked.nodes().has_node(node)
    }

    // The node of that name gets nothing more.
    fn stop(&mut self, node: NodeId) -> Result<Outcome, NoMemory>
        ensures { MakesStep self.old self.new result (world.step self.old (Step.Stop node)) }
    {
        if !self.has_node(node) {
            return Ok(self.silent(StepResult::NoNode));
        }
        if node == NodeId::manager() {
            return Ok(self.silent(StepResult::Manager));
        }
        if self.stopped.contains(node) {
            return Ok(self.silent(StepResult::Gone));
        }
        self.stopped.add(node)?;
        Ok(self.silent(StepResult::Done))
    }

    // What a step did that sends nothing, as one that can't be made.
    fn silent(&self, how: StepResult) -> Outcome
        ensures { result ≡ (world.refused self.now how).outcome }
    {
        Outcome {
            result: how,
            first: self.sent.next(),
            sent: 0,
            completed: None,
        }
    }
}

// What a node invoked by an order: only one to invoke does.
fn invoked_by(order: &Local, request: Option<Shared<Request>>) -> Option<(RequestId, KeptCommand)>
    ensures { result ≡ invoked_by order.now request }
{
    match order {
        Local::Invoke(_) => request.map(|r| (r.id, KeptCommand::of(r))),
        _ => None,
    }
}

// The request that completed by a step, with its answer.
fn answered_by(outcome: &Outcome) -> Option<(RequestId, Answer)>
    ensures { result ≡ option_map (λ c. (c.id, c.answer)) outcome.now.completed }
{
    match &outcome.completed {
        Some(completed) => Some((completed.id, completed.answer)),
        None => None,
    }
}

// What a node did on an input is kept, behind what it invoked.
fn keep(
    sent: &mut SentMessages,
    history: &mut History,
    invoked: Option<(RequestId, KeptCommand)>,
    messages: Items<Message>,
    completed: Option<Completed>,
) -> Outcome
    requires sent { 1 ≤ sent.old.spare }
    requires history { 2 ≤ history.old.spare }
    ensures sent { sent.new.lists ≡ world.with_batch sent.old.lists messages }
    ensures history { history.new.events
        ≡ (history.old.events ++ invocation invoked) ++ world.completion completed }
    ensures outcome { result ≡ record {
      result = StepResult.Done;
      first = length (all_of sent.old.lists) + 1;
      sent = length messages;
      completed = completed;
    } }
{
    let outcome = Outcome {
        result: StepResult::Done,
        first: sent.next(),
        sent: messages.len() as u64,
        completed,
    };
    sent.push(messages);
    history.record(invoked, answered_by(&outcome));
    outcome
}

ghost use Rattle.std.specs.Prelude.{◌≡◌, ◌≢◌, ◌<◌, length, Ok, Err, IsOk, IfOk, IfErr, IfSome, OnOk};
ghost use Rattle.curp_model.specs.Client as model;
ghost use Rattle.curp_msg.specs.Moved.{Makes, Moves, numbered_move, quiet};
ghost use Rattle.curp_msg.specs.Told.{Tells};
ghost use Rattle.curp_client.specs.Evidence.{completes_if, concluded, kept};
ghost use Rattle.curp_client.specs.Requests.{asks_once, least_of};
ghost use Rattle.curp_client.specs.Refusals.{invoke_number, retry_number};

use crate::evidence::{Accept, Early, Evidence, Glimpse, KnownMaster};
use crate::owner::owner_of;
use crate::pending::{Attempt, Pending};
use crate::requests::Requests;
use crate::sending::sent_by;
use crate::{InvokeError, RetryError};
use curp_base::{Failed, NoMemory, Shared};
use curp_cmd::{Command, NodeId, Request, RequestId};
use curp_msg::{
    Accepted, Body, Capture, Completed, Config, Core, Done, Local, Message, PartConfig, Probed,
    Protocol, Quick, Reply, Worth, told,
};
use std::alloc::Global;
use std::marker::Model;

/// How many requests may be pending.
pub const MOST_PENDING: usize = 8;

/// A client: it sends an update to the master and to all witnesses of the partition that owns its keys, and completes
/// it by one synced reply, or by an unsynced one with the accepts of all witnesses (CURP). A read completes by a value,
/// and in protocol 2 by one Quick with a Live of all witnesses too.
pub struct Client {
    alloc: Global,
    number: u32,
    fast: bool,
    protocol: Protocol,
    config: Config,
    last: u32,
    pending: Requests,
}

impl Drop for Client {
    fn drop(self) {
        let Client {
            alloc: _,
            number: _,
            fast: _,
            protocol: _,
            config: _,
            last: _,
            pending: _,
        } = self;
    }
}

impl Model for Client {
    ghost use Rattle.curp_model.specs.Client as model;
    ghost use Rattle.curp_msg.specs.Moved.{Node};

    ghost Value = { Node model.ClientState };

    ghost view = { λ c. record {
      number = c.number;
      state = record { fast = c.fast; protocol = c.protocol; config = c.config; last = c.last; pending = c.pending };
    } };

    ghost invariant = { λ c. model.NumbersAreUsed
        (record { fast = c.fast; protocol = c.protocol; config = c.config; last = c.last; pending = c.pending }) };
}

impl Client {
    /// A client of that number which has invoked nothing. One that isn't fast lets the master answer only what is
    /// synced. It takes no memory.
    pub fn new(alloc: Global, number: u32, fast: bool, protocol: Protocol, config: Config) -> Client
        ensures number { result.number ≡ number }
        ensures state { result.state ≡ model.fresh_client fast protocol config }
    {
        Client {
            alloc,
            number,
            fast,
            protocol,
            config,
            last: 0,
            pending: Requests::new(alloc),
        }
    }

    /// The number of its last request, at first 0.
    pub fn last(&self) -> u32
        ensures { result ≡ self.now.state.last }
    {
        self.last
    }

    /// How many requests are pending: 8 at most.
    pub fn pending(&self) -> usize
        ensures { result ≡ length self.now.state.pending }
    {
        self.pending.len()
    }

    /// The least number that is pending.
    pub fn least_pending(&self) -> Option<u32>
        ensures { result ≡ least_of self.now.state.pending }
    {
        self.pending.least()
    }

    /// No request that is pending has a number behind the client's last one, whatever was done.
    pub fn numbers_are_used(&self)
        ensures { model.NumbersAreUsed self.now.state }
    {
        // For its clause alone.
        let _last = self.last;
    }

    // ---- orders

    /// Invokes a command.
    #[tactic(auto, using(crate::proofs::Orders::invoking))]
    pub fn invoke(&mut self, command: &Command) -> Result<Done, Failed<InvokeError>>
        ensures moves { Moves self.old self.new result
            (numbered_move self.old.number (model.invoke self.old.number self.old.state command.now)) }
        ensures refused { Tells invoke_number (model.invoke self.old.number self.old.state command.now).refused result }
    {
        let part = self.part_for(command).map_err(Failed::Because)?;
        let request = self.next_request(command);
        let shared = Shared::of(self.alloc, &request)?;
        let messages = sent_by(
            self.alloc,
            self.number,
            self.fast,
            self.protocol,
            &shared,
            part,
        )?;
        let invoked = shared.share()?;
        let pending = Pending::first_sent(self.alloc, shared, part)?;
        self.pending.push(pending)?;
        self.last = request.id.seq;
        Ok(Done::invokes(invoked, messages))
    }

    /// Sends a pending request again, by its number.
    #[tactic(auto, using(crate::proofs::Orders::retry_nowhere))]
    pub fn retry(&mut self, seq: u32) -> Result<Done, Failed<RetryError>>
        ensures moves { Moves self.old self.new result
            (numbered_move self.old.number (model.retry self.old.number self.old.state seq)) }
        ensures refused { Tells retry_number (model.retry self.old.number self.old.state seq).refused result }
    {
        let id = RequestId {
            client: self.number,
            seq,
        };
        let Some(pending) = self.pending.find(&id) else {
            return Err(Failed::Because(RetryError::NotPending));
        };
        let request = pending.request();
        let Some(part) = owner_of(&self.config, &request.command) else {
            return Err(Failed::Because(RetryError::Split));
        };
        let messages = sent_by(
            self.alloc,
            self.number,
            self.fast,
            self.protocol,
            request,
            part,
        )?;
        let attempt = Attempt::at(self.alloc, part)?;
        self.pending.resend(&id, attempt)?;
        Ok(Done::sends(messages))
    }

    /// Asks the manager for the configuration.
    pub fn fetch(&mut self) -> Result<Done, NoMemory>
        ensures moves { Moves self.old self.new result
            (numbered_move self.old.number (model.fetch self.old.number self.old.state)) }
    {
        let mut messages = Vec::with_capacity(self.alloc, 1)?;
        messages.push(Message {
            from: NodeId::client(self.number),
            to: NodeId::manager(),
            body: Body::Fetch,
        })?;
        Ok(Done::sends(messages))
    }
}

impl Core for Client {
    ghost use Rattle.curp_client.specs.Machine.{client_machine};
    ghost use Rattle.curp_client.specs.Refused.{client_refusals, client_taken};

    ghost machine = { client_machine };

    ghost refusals = { client_refusals };

    ghost messages_taken = { client_taken };

    #[tactic(auto, unfolding(crate::specs::Machine::client_machine, curp_model::specs::Client::on_client))]
    fn on_message(&mut self, message: &Message) -> Result<Done, NoMemory> {
        match &message.body {
            Body::Reply(reply) => self.on_reply(message.from, reply.get()),
            Body::Accepted(accepted) => self.on_accepted(message.from, accepted),
            Body::Worth(worth) => Ok(self.on_worth(message.from, worth.get())),
            Body::Quick(quick) => self.on_quick(message.from, quick.get()),
            Body::Probed(probed) => self.on_probed(message.from, probed),
            Body::Rejected(rejected) => self.on_rejected(&rejected.id),
            Body::Configuration { config } => self.on_configuration(config),
            _ => Ok(Done::quiet(self.alloc)),
        }
    }

    #[tactic(auto, unfolding(crate::specs::Machine::client_machine, curp_model::specs::Client::client_ordered))]
    fn on_order(&mut self, order: &Local) -> Result<Done, NoMemory> {
        match order {
            Local::Invoke(command) => self.told_to_invoke(command),
            Local::Retry(seq) => self.told_to_retry(*seq),
            Local::Fetch => self.fetch(),
            _ => Ok(Done::quiet(self.alloc)),
        }
    }
}

impl Client {
    // Where a new request goes.
    fn part_for(&self, command: &Command) -> Result<&PartConfig, InvokeError>
        ensures ok { IfOk result (λ part. model.invocation_for self.now.state command.now ≡ Ok part.now) }
        ensures err { IfErr result (λ why. model.invocation_for self.now.state command.now ≡ Err (invoke_number why)) }
        ensures room { OnOk result (self.now.state.last < u32.MAX) }
    {
        if self.pending.len() >= MOST_PENDING {
            return Err(InvokeError::TooMany);
        }
        if self.last == u32::MAX {
            return Err(InvokeError::Numbers);
        }
        owner_of(&self.config, command).ok_or(InvokeError::Split)
    }

    fn next_request(&self, command: &Command) -> Request
        requires { self.now.state.last < u32.MAX }
        ensures { result ≡ model.next_request self.now.number self.now.state command.now }
    {
        let seq = self.last + 1;
        Request {
            id: RequestId {
                client: self.number,
                seq,
            },
            first: self.pending.first_with(seq),
            command: *command,
        }
    }

    // Invokes a command, and tells a refusal by its number.
    fn told_to_invoke(&mut self, command: &Command) -> Result<Done, NoMemory>
        ensures moves { Moves self.old self.new result
            (numbered_move self.old.number (model.invoke self.old.number self.old.state command.now)) }
        ensures refused { (model.invoke self.old.number self.old.state command.now).refused ≢ 0 → IsOk result }
    {
        told(self.alloc, self.invoke(command))
    }

    // Sends a pending request again, and tells a refusal by its number.
    fn told_to_retry(&mut self, seq: u32) -> Result<Done, NoMemory>
        ensures moves { Moves self.old self.new result
            (numbered_move self.old.number (model.retry self.old.number self.old.state seq)) }
        ensures refused { (model.retry self.old.number self.old.state seq).refused ≢ 0 → IsOk result }
    {
        told(self.alloc, self.retry(seq))
    }

    // ---- messages

    fn on_reply(&mut self, from: NodeId, reply: &Reply) -> Result<Done, NoMemory>
        ensures moves { Moves self.old self.new result (numbered_move self.old.number
            (model.replied self.old.state from reply.now (model.with_id reply.now.id self.old.state.pending))) }
    {
        let Some(pending) = self.pending.find(&reply.id) else {
            return Ok(Done::quiet(self.alloc));
        };
        if !pending.request().command.is_update() {
            return Ok(Done::quiet(self.alloc));
        }
        if reply.synced {
            return Ok(self.complete(Completed {
                id: reply.id,
                answer: reply.answer,
                by: None,
            }));
        }
        let early = Early {
            master: KnownMaster {
                node: from,
                epoch: reply.epoch,
                version: reply.version,
            },
            answer: reply.answer,
        };
        self.keep(&reply.id, Evidence::Reply(early))
    }

    fn on_accepted(&mut self, from: NodeId, accepted: &Accepted) -> Result<Done, NoMemory>
        ensures moves { Moves self.old self.new result (numbered_move self.old.number
            (model.accepted self.old.state from accepted.now (model.with_id accepted.now.id self.old.state.pending))) }
    {
        let Some(pending) = self.pending.find(&accepted.id) else {
            return Ok(Done::quiet(self.alloc));
        };
        if !pending.request().command.is_update() {
            return Ok(Done::quiet(self.alloc));
        }
        let accept = Accept {
            witness: from,
            epoch: accepted.epoch,
        };
        self.keep(&accepted.id, Evidence::Accept(accept))
    }

    // A pending read completes with the first value.
    fn on_worth(&mut self, from: NodeId, worth: &Worth) -> Done
        ensures moves { Makes self.new result (numbered_move self.old.number
            (model.valued self.old.state from worth.now (model.with_id worth.now.id self.old.state.pending))) }
    {
        let Some(pending) = self.pending.find(&worth.id) else {
            return Done::quiet(self.alloc);
        };
        if pending.request().command.is_update() {
            return Done::quiet(self.alloc);
        }
        let capture = Capture {
            master: from,
            epoch: worth.epoch,
            number: worth.capture,
        };
        self.complete(Completed {
            id: worth.id,
            answer: worth.answer,
            by: Some(capture),
        })
    }

    fn on_quick(&mut self, from: NodeId, quick: &Quick) -> Result<Done, NoMemory>
        ensures moves { Moves self.old self.new result (numbered_move self.old.number
            (model.glimpsed self.old.state from quick.now (model.with_id quick.now.id self.old.state.pending))) }
    {
        let Some(pending) = self.pending.find(&quick.id) else {
            return Ok(Done::quiet(self.alloc));
        };
        if pending.request().command.is_update() {
            return Ok(Done::quiet(self.alloc));
        }
        let glimpse = Glimpse {
            master: KnownMaster {
                node: from,
                epoch: quick.epoch,
                version: quick.version,
            },
            capture: quick.capture,
            answer: quick.answer,
        };
        self.keep(&quick.id, Evidence::Quick(glimpse))
    }

    // A Live is kept, and a NotLive lets it ask for a value.
    fn on_probed(&mut self, from: NodeId, probed: &Probed) -> Result<Done, NoMemory>
        ensures moves { Moves self.old self.new result (numbered_move self.old.number (model.probed
            self.old.number self.old.state from probed.now (model.with_id probed.now.id self.old.state.pending))) }
    {
        let Some(pending) = self.pending.find(&probed.id) else {
            return Ok(Done::quiet(self.alloc));
        };
        if pending.request().command.is_update() {
            return Ok(Done::quiet(self.alloc));
        }
        if !probed.live {
            return self.ask(&probed.id);
        }
        let live = Accept {
            witness: from,
            epoch: probed.epoch,
        };
        self.keep(&probed.id, Evidence::Live(live))
    }

    // A rejection lets it ask for a synced reply to a pending update.
    fn on_rejected(&mut self, id: &RequestId) -> Result<Done, NoMemory>
        ensures moves { Moves self.old self.new result (numbered_move self.old.number
            (model.rejected self.old.number self.old.state (model.with_id id.now self.old.state.pending))) }
    {
        let Some(pending) = self.pending.find(id) else {
            return Ok(Done::quiet(self.alloc));
        };
        if !pending.request().command.is_update() {
            return Ok(Done::quiet(self.alloc));
        }
        self.ask(id)
    }

    // A configuration is taken where its serial is above the client's.
    fn on_configuration(&mut self, config: &Config) -> Result<Done, NoMemory>
        ensures moves { Moves self.old self.new result
            (numbered_move self.old.number (quiet (model.configured self.old.state config.now))) }
    {
        if self.config.serial < config.serial {
            self.config = config.copy(self.alloc)?;
        }
        Ok(Done::quiet(self.alloc))
    }

    // ---- evidence

    // Asks the master of the latest attempt for a synced reply, or for a value, once an attempt.
    fn ask(&mut self, id: &RequestId) -> Result<Done, NoMemory>
        ensures moves { IfSome (model.with_id id.now self.old.state.pending) (λ p. Moves self.old self.new result
            (numbered_move self.old.number (asks_once self.old.number self.old.state p))) }
    {
        let Some(pending) = self.pending.find(id) else {
            return Ok(Done::quiet(self.alloc));
        };
        if pending.is_asked() {
            return Ok(Done::quiet(self.alloc));
        }
        let Some(attempt) = pending.latest() else {
            return Ok(Done::quiet(self.alloc));
        };
        let mut messages = Vec::with_capacity(self.alloc, 1)?;
        messages.push(attempt.ask_of(self.number, pending.request())?)?;
        self.pending.ask(id);
        Ok(Done::sends(messages))
    }

    // Evidence for a pending request is kept, and completes it once it is enough.
    fn keep(&mut self, id: &RequestId, evidence: Evidence) -> Result<Done, NoMemory>
        ensures moves { IfSome (model.with_id id.now self.old.state.pending) (λ p. Moves self.old self.new result
            (numbered_move self.old.number (concluded self.old.state (kept p evidence)))) }
    {
        let completed = self.pending.keep(id, evidence)?;
        Ok(self.complete_if(completed))
    }

    fn complete_if(&mut self, completed: Option<Completed>) -> Done
        ensures moves { Makes self.new result
            (numbered_move self.old.number (completes_if self.old.state completed)) }
    {
        match completed {
            None => Done::quiet(self.alloc),
            Some(completed) => self.complete(completed),
        }
    }

    fn complete(&mut self, completed: Completed) -> Done
        ensures moves { Makes self.new result (numbered_move self.old.number
            (model.completes_with self.old.state completed.id completed.answer completed.by)) }
    {
        self.pending.remove(&completed.id);
        Done::completes(self.alloc, completed)
    }
}

// A pending request, and what was delivered for it.
ghost use Rattle.std.specs.Prelude.{◌≡◌, OnOk, OnErr, IfOk, true, false, ◌++◌, ◌∷◌, []};
ghost use Rattle.std.specs.List.{list_all, list_any};
ghost use Rattle.std.specs.Option.{option_copied};
ghost use Rattle.curp_base.specs.Words.{last_of};
ghost use Rattle.curp_model.specs.Client as model;
ghost use Rattle.curp_client.specs.Requests.{ask_at, first_sent};
ghost use Rattle.curp_client.specs.Evidence.{completion, is_backed, kept};

use crate::evidence::{
    Accept, Early, Evidence, Glimpse, KnownMaster, add_accept, add_early, add_glimpse, has_accepted,
};
use curp_base::{Items, NoMemory, Shared};
use curp_cmd::{NodeId, Request};
use curp_msg::{Ask, Body, Completed, Message, PartConfig};
use std::alloc::Global;
use std::marker::Model;

/// One sending of a request: to whom, and what was known of it.
#[derive(Drop)]
pub(crate) struct Attempt {
    master: KnownMaster,
    witnesses: Items<NodeId>,
}

impl Model for Attempt {
    ghost use Rattle.curp_model.specs.Client as model;

    ghost Value = { model.Attempt };

    ghost view = { λ a. record {
      master = a.master.node;
      epoch = a.master.epoch;
      version = a.master.version;
      witnesses = a.witnesses;
    } };
}

impl Attempt {
    /// A sending to the nodes of that partition.
    pub(crate) fn at(alloc: Global, part: &PartConfig) -> Result<Attempt, NoMemory>
        ensures { IfOk result (λ attempt. attempt ≡ model.attempt_at part.now) }
    {
        let master = KnownMaster {
            node: part.master,
            epoch: part.epoch,
            version: part.version,
        };
        Ok(Attempt {
            master,
            witnesses: part.witnesses.copy(alloc)?,
        })
    }

    /// What asks its master once more for a request of the client of that number: for a synced reply to an update, or for
    /// a value of a read.
    pub(crate) fn ask_of(&self, number: u32, request: &Shared<Request>) -> Result<Message, NoMemory>
        ensures { IfOk result (λ message. message ≡ ask_at number request.now self.now) }
    {
        let ask = Ask {
            request: request.share()?,
            epoch: self.master.epoch,
            version: self.master.version,
        };
        let body = if request.command.is_update() {
            Body::Sync(ask)
        } else {
            Body::Read(ask)
        };
        Ok(Message {
            from: NodeId::client(number),
            to: self.master.node,
            body,
        })
    }

    // Whether it went to that master, and all its witnesses have accepted.
    fn is_backed(&self, master: &KnownMaster, accepts: &[Accept]) -> bool
        ensures { result ≡ is_backed master.now accepts.now self.now }
    {
        *master == self.master && self.all_accepted(accepts)
    }

    // Whether all its witnesses have accepted, at its epoch.
    fn all_accepted(&self, accepts: &[Accept]) -> bool
        ensures { result ≡ list_all (model.has_accepted accepts.now self.now.epoch) self.now.witnesses }
    {
        self.witnesses.as_slice().iter().all(|witness| has_accepted(
            accepts,
            self.master.epoch,
            *witness,
        ))
    }
}

/// A request that isn't completed, and what was delivered for it.
#[derive(Drop)]
pub(crate) struct Pending {
    request: Shared<Request>,
    // The newest last.
    attempts: Vec<Attempt>,
    // A synced reply, or a value, was asked for since the last attempt.
    asked: bool,
    early: Vec<Early>,
    accepts: Vec<Accept>,
    glimpses: Vec<Glimpse>,
    lives: Vec<Accept>,
}

impl Model for Pending {
    ghost use Rattle.curp_model.specs.Client as model;

    ghost Value = { model.Pending };

    ghost view = { λ p. record {
      request = p.request;
      attempts = p.attempts.items;
      asked = p.asked;
      early = p.early.items;
      accepts = p.accepts.items;
      glimpses = p.glimpses.items;
      lives = p.lives.items;
    } };
}

impl Pending {
    /// A request that is sent for the first time.
    pub(crate) fn first_sent(
        alloc: Global,
        request: Shared<Request>,
        part: &PartConfig,
    ) -> Result<Pending, NoMemory>
        ensures { IfOk result (λ pending. pending ≡ first_sent request part.now) }
    {
        let mut attempts = Vec::with_capacity(alloc, 1)?;
        attempts.push(Attempt::at(alloc, part)?)?;
        Ok(Pending {
            request,
            attempts,
            asked: false,
            early: Vec::new(alloc),
            accepts: Vec::new(alloc),
            glimpses: Vec::new(alloc),
            lives: Vec::new(alloc),
        })
    }

    pub(crate) fn request(&self) -> &Shared<Request>
        ensures { result.now ≡ self.now.request }
    {
        &self.request
    }

    pub(crate) fn is_asked(&self) -> bool
        ensures { result ≡ self.now.asked }
    {
        self.asked
    }

    /// The latest attempt.
    #[tactic(auto, using(crate::proofs::Found::last_is))]
    pub(crate) fn latest(&self) -> Option<&Attempt>
        ensures { option_copied result ≡ last_of self.now.attempts }
    {
        self.attempts.last()
    }

    /// A synced reply, or a value, was asked for.
    pub(crate) fn ask(&mut self)
        ensures { self.new ≡ record self.old { asked = true } }
    {
        self.asked = true;
    }

    /// It was sent once more.
    pub(crate) fn resend(&mut self, attempt: Attempt) -> Result<(), NoMemory>
        ensures ok { OnOk result
            (self.new ≡ record self.old { attempts = self.old.attempts ++ attempt ∷ []; asked = false }) }
        ensures err { OnErr result (self.new ≡ self.old) }
    {
        self.attempts.push(attempt)?;
        self.asked = false;
        Ok(())
    }

    /// Keeps evidence, each once.
    pub(crate) fn keep(&mut self, evidence: Evidence) -> Result<(), NoMemory>
        ensures ok { OnOk result (self.new ≡ kept self.old evidence) }
        ensures err { OnErr result (self.new ≡ self.old) }
    {
        match evidence {
            Evidence::Reply(early) => add_early(&mut self.early, early),
            Evidence::Accept(accept) => add_accept(&mut self.accepts, accept),
            Evidence::Quick(glimpse) => add_glimpse(&mut self.glimpses, glimpse),
            Evidence::Live(accept) => add_accept(&mut self.lives, accept),
        }
    }

    /// What completes the request, once there is enough of what was delivered.
    pub(crate) fn completion(&self) -> Option<Completed>
        ensures { result ≡ completion self.now }
    {
        let id = self.request.id;
        if self.request.command.is_update() {
            self.proved_reply().map(|early| early.completes(&id))
        } else {
            self.seen_glimpse().map(|glimpse| glimpse.completes(&id))
        }
    }

    // The first unsynced reply that is enough.
    fn proved_reply(&self) -> Option<&Early>
        ensures { option_copied result ≡ model.proved_answer self.now }
    {
        self.early.iter().find(|early| self.is_proved(early))
    }

    // The first Quick that is enough.
    fn seen_glimpse(&self) -> Option<&Glimpse>
        ensures { option_copied result ≡ model.seen_glimpse self.now }
    {
        self.glimpses.iter().find(|glimpse| self.is_seen(glimpse))
    }

    fn is_proved(&self, early: &Early) -> bool
        ensures { result ≡ list_any (model.proves self.now early.now) self.now.attempts }
    {
        self.some_is_backed(&early.master, &self.accepts)
    }

    fn is_seen(&self, glimpse: &Glimpse) -> bool
        ensures { result ≡ list_any (model.is_seen self.now glimpse.now) self.now.attempts }
    {
        self.some_is_backed(&glimpse.master, &self.lives)
    }

    fn some_is_backed(&self, master: &KnownMaster, accepts: &[Accept]) -> bool
        ensures { result ≡ list_any (is_backed master.now accepts.now) self.now.attempts }
    {
        self.attempts
            .iter()
            .any(|attempt| attempt.is_backed(master, accepts))
    }
}

// What is delivered for a request that isn't completed.
ghost use Rattle.std.specs.Prelude.{◌≡◌, OnOk, OnErr};
ghost use Rattle.std.specs.List.{list_any};
ghost use Rattle.curp_model.specs.Client as model;

use curp_base::NoMemory;
use curp_cmd::{Answer, NodeId, RequestId};
use curp_msg::{Capture, Completed};
use std::marker::Model;

/// A master as it is known, with the epoch and the version of its lists.
#[derive(Clone, Copy, PartialEq, Eq)]
pub(crate) struct KnownMaster {
    pub(crate) node: NodeId,
    pub(crate) epoch: u32,
    pub(crate) version: u32,
}

/// An unsynced reply that was delivered.
#[derive(Drop)]
pub(crate) struct Early {
    pub(crate) master: KnownMaster,
    pub(crate) answer: Answer,
}

impl Model for Early {
    ghost use Rattle.curp_model.specs.Client as model;

    ghost Value = { model.Early };

    ghost view = { λ e. record {
      master = e.master.node;
      epoch = e.master.epoch;
      version = e.master.version;
      answer = e.answer;
    } };
}

impl Early {
    ghost use Rattle.curp_client.specs.Evidence.{by_reply};

    /// An update completes by it.
    pub(crate) fn completes(&self, id: &RequestId) -> Completed
        ensures { result ≡ by_reply id.now self.now }
    {
        Completed {
            id: *id,
            answer: self.answer,
            by: None,
        }
    }
}

/// A Quick that was delivered.
#[derive(Drop)]
pub(crate) struct Glimpse {
    pub(crate) master: KnownMaster,
    pub(crate) capture: u64,
    pub(crate) answer: Answer,
}

impl Model for Glimpse {
    ghost use Rattle.curp_model.specs.Client as model;

    ghost Value = { model.Glimpse };

    ghost view = { λ g. record {
      master = g.master.node;
      epoch = g.master.epoch;
      version = g.master.version;
      capture = g.capture;
      answer = g.answer;
    } };
}

impl Glimpse {
    ghost use Rattle.curp_client.specs.Evidence.{by_glimpse};

    /// A read completes by it.
    pub(crate) fn completes(&self, id: &RequestId) -> Completed
        ensures { result ≡ by_glimpse id.now self.now }
    {
        let capture = Capture {
            master: self.master.node,
            epoch: self.master.epoch,
            number: self.capture,
        };
        Completed {
            id: *id,
            answer: self.answer,
            by: Some(capture),
        }
    }
}

/// An accept, or a Live, that was delivered.
#[derive(Drop)]
pub(crate) struct Accept {
    pub(crate) witness: NodeId,
    pub(crate) epoch: u32,
}

impl Model for Accept {
    ghost use Rattle.curp_model.specs.Client as model;

    ghost Value = { model.Accept };

    ghost view = { λ a. record { witness = a.witness; epoch = a.epoch } };
}

/// What is delivered for a request: enough of it completes the request. Replies and accepts are for an update, Quicks
/// and Lives for a read.
#[derive(Drop)]
pub(crate) enum Evidence {
    Reply(Early),
    Accept(Accept),
    Quick(Glimpse),
    Live(Accept),
}

/// Of those of a master, an epoch and a version the first is kept.
pub(crate) fn add_early(early: &mut Vec<Early>, new: Early) -> Result<(), NoMemory>
    ensures ok { OnOk result (early.new.items ≡ model.with_early early.old.items new) }
    ensures err { OnErr result (early.new.items ≡ early.old.items) }
{
    if !is_told(early, &new) {
        early.push(new)?;
    }
    Ok(())
}

fn is_told(early: &[Early], new: &Early) -> bool
    ensures { result ≡ list_any (model.is_told new.now) early.now }
{
    early.iter().any(|told| told.master == new.master)
}

/// Of those of a master, an epoch and a version the first is kept.
pub(crate) fn add_glimpse(glimpses: &mut Vec<Glimpse>, new: Glimpse) -> Result<(), NoMemory>
    ensures ok { OnOk result (glimpses.new.items ≡ model.with_glimpse glimpses.old.items new) }
    ensures err { OnErr result (glimpses.new.items ≡ glimpses.old.items) }
{
    if !is_glimpsed(glimpses, &new) {
        glimpses.push(new)?;
    }
    Ok(())
}

fn is_glimpsed(glimpses: &[Glimpse], new: &Glimpse) -> bool
    ensures { result ≡ list_any (model.is_glimpsed new.now) glimpses.now }
{
    glimpses.iter().any(|seen| seen.master == new.master)
}

/// Each is kept once.
pub(crate) fn add_accept(accepts: &mut Vec<Accept>, new: Accept) -> Result<(), NoMemory>
    ensures ok { OnOk result (accepts.new.items ≡ model.with_accept accepts.old.items new) }
    ensures err { OnErr result (accepts.new.items ≡ accepts.old.items) }
{
    if !has_accepted(accepts, new.epoch, new.witness) {
        accepts.push(new)?;
    }
    Ok(())
}

/// Whether the witness has accepted at the epoch.
pub(crate) fn has_accepted(accepts: &[Accept], epoch: u32, witness: NodeId) -> bool
    ensures { result ≡ model.has_accepted accepts.now epoch witness }
{
    accepts.iter().any(|accept| accept.epoch == epoch && accept.witness == witness)
}

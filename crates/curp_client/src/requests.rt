// The requests of a client that aren't completed.
ghost use Rattle.std.specs.Prelude.{◌≡◌, ◌<◌, ℕ, length, fold, min, position, true, false, ◌++◌, ◌∷◌, []};
ghost use Rattle.std.specs.Prelude.{OnOk, OnErr, IfOk};
ghost use Rattle.std.specs.Option.{option_copied};
ghost use Rattle.curp_base.specs.Words.{Each};
ghost use Rattle.curp_cmd.specs.RequestId.{same_id};
ghost use Rattle.curp_model.specs.Client as model;
ghost use Rattle.curp_client.specs.Evidence.{Completes, kept};
ghost use Rattle.curp_client.specs.Requests.{Changes, least_of};

use crate::evidence::Evidence;
use crate::pending::{Attempt, Pending};
use curp_base::{NoMemory, Shared};
use curp_cmd::{Request, RequestId};
use curp_msg::Completed;
use std::alloc::Global;
use std::marker::Model;

/// Pending requests, in ascending order of their numbers. Contracts see the list.
#[derive(Drop)]
pub(crate) struct Requests {
    items: Vec<Pending>,
}

impl Model for Requests {
    ghost use Rattle.std.specs.Prelude.{List};
    ghost use Rattle.curp_model.specs.Client as model;
    ghost use Rattle.curp_model.specs.Client.{NumbersRise};

    ghost Value = { List model.Pending };

    ghost view = { λ r. r.items.items };

    ghost invariant = { λ r. NumbersRise r.items.items };
}

impl Requests {
    pub(crate) fn new(alloc: Global) -> Requests
        ensures { result ≡ [] }
    {
        Requests {
            items: Vec::new(alloc),
        }
    }

    pub(crate) fn len(&self) -> usize
        ensures { result ≡ length self.now }
    {
        self.items.len()
    }

    /// The least number of these requests and of one more.
    pub(crate) fn first_with(&self, seq: u32) -> u32
        ensures { result ≡ fold (λ (least : ℕ) (p : model.Pending). min least p.request.id.seq) seq self.now }
    {
        self.items
            .iter()
            .fold(seq, |least, pending| least.min(pending.request().id.seq))
    }

    /// The least number of these requests.
    pub(crate) fn least(&self) -> Option<u32>
        ensures { result ≡ least_of self.now }
    {
        let (first, rest) = self.items.split_first()?;
        let seq = first.request().id.seq;
        Some(
            rest.iter()
                .fold(seq, |least, pending| least.min(pending.request().id.seq)),
        )
    }

    /// The request of that id.
    pub(crate) fn find(&self, id: &RequestId) -> Option<&Pending>
        ensures { option_copied result ≡ model.with_id id.now self.now }
    {
        self.items
            .iter()
            .find(|pending| pending.request().id == *id)
    }

    /// A request with a higher number.
    pub(crate) fn push(&mut self, pending: Pending) -> Result<(), NoMemory>
        requires { Each (λ (p : model.Pending). p.request.id.seq < pending.request.id.seq) self.old }
        ensures ok { OnOk result (self.new ≡ self.old ++ pending ∷ []) }
        ensures err { OnErr result (self.new ≡ self.old) }
    {
        self.items.push(pending)?;
        Ok(())
    }

    /// The request of that id isn't pending any more.
    pub(crate) fn remove(&mut self, id: &RequestId)
        ensures { self.new ≡ model.without_id id.now self.old }
    {
        self.items.retain(|pending| pending.request().id != *id);
    }

    /// The request of that id was sent once more.
    pub(crate) fn resend(&mut self, id: &RequestId, attempt: Attempt) -> Result<(), NoMemory>
        ensures ok { OnOk result (Changes self.old self.new id.now
            (λ p. record p { attempts = p.attempts ++ attempt ∷ []; asked = false })) }
        ensures err { OnErr result (self.new ≡ self.old) }
    {
        if let Some(at) = place_of(&self.items, id) {
            self.items[at].resend(attempt)?;
        }
        Ok(())
    }

    /// A synced reply to the request of that id, or its value, was asked for.
    pub(crate) fn ask(&mut self, id: &RequestId)
        ensures { Changes self.old self.new id.now (λ p. record p { asked = true }) }
    {
        if let Some(at) = place_of(&self.items, id) {
            self.items[at].ask();
        }
    }

    /// Keeps evidence for the request of that id, and gives what completes it then.
    pub(crate) fn keep(
        &mut self,
        id: &RequestId,
        evidence: Evidence,
    ) -> Result<Option<Completed>, NoMemory>
        ensures ok { OnOk result (Changes self.old self.new id.now (λ p. kept p evidence)) }
        ensures completes { IfOk result (Completes self.old id.now evidence) }
        ensures err { OnErr result (self.new ≡ self.old) }
    {
        let Some(at) = place_of(&self.items, id) else {
            return Ok(None);
        };
        let pending = &mut self.items[at];
        pending.keep(evidence)?;
        Ok(pending.completion())
    }
}

/// Where the request of an id stands.
fn place_of(items: &[Pending], id: &RequestId) -> Option<usize>
    ensures { result ≡ position (λ (p : model.Pending). same_id p.request.id id.now) items.now }
{
    items.iter().position(|pending| pending.request().id == *id)
}

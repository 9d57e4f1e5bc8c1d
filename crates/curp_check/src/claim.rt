ghost use Rattle.std.specs.Prelude.{◌≡◌, ◌↔◌, ◌++◌, [], ◌∷◌, Some, Ok, Err, OnOk, OnErr, IfErr};
ghost use Rattle.std.specs.BTreeMap.{Updates};
ghost use Rattle.curp_cmd.specs.RequestId.{id_cmp};
ghost use Rattle.curp_order.specs.Order.{IsHistory};
ghost use Rattle.curp_order.specs.declared.Event as order;
ghost use Rattle.curp_check.specs.Claim.{nothing_claimed, with_event, with_line};
ghost use Rattle.curp_check.specs.Stages.{request_of, stage_after};
ghost use Rattle.curp_base.specs.Failing.{IfBecause};

use crate::events::PackedEvents;
use crate::order::PackedOrder;
use curp_base::{Failed, NoMemory};
use curp_cmd::RequestId;
use curp_order::Event;
use curp_script::{EventLine, FieldName, LineError};
use std::alloc::Global;
use std::collections::BTreeMap;
use std::marker::Model;

/// How many lines a claim may have.
pub const CLAIM_LIMIT: u64 = 400_000;

/// How far a request is.
#[derive(Clone, Copy)]
pub(crate) enum RequestStage {
    Invoked,
    Completed,
}

/// A history, and the order that is claimed for it. Contracts see both.
pub struct Claim {
    history: PackedEvents,
    order: PackedOrder,
    // How far each request of the history is.
    stages: BTreeMap<RequestId, RequestStage>,
}

impl Drop for Claim {
    fn drop(self) {
        let Claim {
            history: _,
            order: _,
            stages: _,
        } = self;
    }
}

impl Model for Claim {
    ghost use Rattle.std.specs.BTreeMap.{get};
    ghost use Rattle.curp_cmd.specs.RequestId.{id_cmp};
    ghost use Rattle.curp_check.specs.Claim.{Claimed};
    ghost use Rattle.curp_check.specs.Stages.{IsFollowed};

    ghost Value = { Claimed };

    ghost view = { λ c. record { events = c.history; order = c.order } };

    ghost invariant = { λ c. IsFollowed (get id_cmp c.stages) c.history };
}

impl Claim {
    /// Nothing happened, and nothing is claimed. It takes no memory.
    pub fn new(alloc: Global) -> Claim
        ensures { result ≡ nothing_claimed }
    {
        Claim {
            history: PackedEvents::new(alloc),
            order: PackedOrder::new(alloc),
            stages: BTreeMap::new(alloc),
        }
    }

    /// Adds what a line says. An event behind the order is a bad `ev`, and one with which the events are no history is a
    /// bad `id`. Where it is refused, nothing is changed.
    pub fn add(&mut self, line: &EventLine) -> Result<(), Failed<LineError>>
        ensures added { OnOk result (with_line self.old line.now ≡ Ok self.new) }
        ensures refused { IfErr result (IfBecause (λ reason. with_line self.old line.now ≡ Err reason)) }
        ensures err { OnErr result (self.new ≡ self.old) }
        ensures bad_id { (e : order.Event) → line.now ≡ EventLine.Event e → self.old.order ≡ []
            → (with_line self.old line.now ≡ Err (LineError.BadField FieldName.Id))
            ↔ (IsHistory (self.old.events ++ e ∷ []) → ⊥) }
    {
        match line {
            EventLine::Event(event) => self.add_event(event),
            EventLine::Place { id, command } => {
                self.order.push(*id, command)?;
                Ok(())
            }
        }
    }

    /// The events, the newest last. They are a history.
    pub(crate) fn history(&self) -> &PackedEvents
        ensures events { result.now ≡ self.now.events }
        ensures is_history { IsHistory self.now.events }
    {
        &self.history
    }

    /// The requests of the order.
    pub(crate) fn order(&self) -> &PackedOrder
        ensures { result.now ≡ self.now.order }
    {
        &self.order
    }
}

impl Claim {
    fn add_event(&mut self, event: &Event) -> Result<(), Failed<LineError>>
        ensures added { OnOk result (with_event self.old event.now ≡ Ok self.new) }
        ensures refused { IfErr result (IfBecause (λ reason. with_event self.old event.now ≡ Err reason)) }
        ensures err { OnErr result (self.new ≡ self.old) }
        ensures is_history { IsHistory self.old.events }
    {
        if !self.order.is_empty() {
            return Err(Failed::Because(LineError::BadField {
                name: FieldName::Ev,
            }));
        }
        let id = request_of(event);
        let Some(stage) = stage_after(event, self.stages.get(&id).copied()) else {
            return Err(Failed::Because(LineError::BadField {
                name: FieldName::Id,
            }));
        };
        push_event(&mut self.history, &mut self.stages, event, stage)?;
        Ok(())
    }
}

fn push_event(
    history: &mut PackedEvents,
    stages: &mut BTreeMap<RequestId, RequestStage>,
    event: &Event,
    stage: RequestStage,
) -> Result<(), NoMemory>
    ensures history { OnOk result (history.new ≡ history.old ++ event.now ∷ []) }
    ensures stages { OnOk result (Updates id_cmp stages.old stages.new (request_of event.now) (Some stage)) }
    ensures history_stays { OnErr result (history.new ≡ history.old) }
    ensures stages_stay { OnErr result (stages.new.entries ≡ stages.old.entries) }
{
    history.push(event)?;
    match stages.insert(request_of(event), stage) {
        Ok(_) => Ok(()),
        Err(error) => {
            history.forget_newest();
            Err(error.into())
        }
    }
}

fn request_of(event: &Event) -> RequestId
    ensures { result ≡ request_of event.now }
{
    match event {
        Event::Invoke { id, .. } | Event::Complete { id, .. } => *id,
    }
}

// How far a request is by an event, where it was so far before, if the event may come then.
fn stage_after(event: &Event, stage: Option<RequestStage>) -> Option<RequestStage>
    ensures { result ≡ stage_after event.now stage }
{
    match (event, stage) {
        (Event::Invoke { .. }, None) => Some(RequestStage::Invoked),
        (Event::Complete { .. }, Some(RequestStage::Invoked)) => Some(RequestStage::Completed),
        _ => None,
    }
}

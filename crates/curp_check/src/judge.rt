ghost use Rattle.std.specs.Prelude.{◌≡◌, ◌↔◌, ◌<◌, length, IsTrue, IfOk};
ghost use Rattle.std.specs.BTreeMap.{get};
ghost use Rattle.curp_base.specs.Words.{At, Each};
ghost use Rattle.curp_cmd.specs.RequestId.{id_cmp};
ghost use Rattle.curp_order.specs.Order.{IsHistory, IsOrder, answers};
ghost use Rattle.curp_order.specs.declared.Event.{Event};
ghost use Rattle.curp_order.specs.declared.Event.TheVariants as seen;
ghost use Rattle.curp_check.specs.Found.{FindsInvocations, FindsPlaces, HasAnswerOfPlace, IsInvoked, IsFound};
ghost use Rattle.curp_check.specs.Verdict.{AreInvoked, IsFirstBroken, IsVerdict};

use crate::events::{Mark, PackedEvents};
use crate::order::{PackedOrder, answers_in};
use crate::places::{Places, invocations_in, places_in};
use crate::sweep::are_in_time;
use crate::{Claim, Clause, Verdict};
use curp_base::NoMemory;
use curp_cmd::{Answer, Command, RequestId};
use curp_order::Event;
use curp_same::Same;
use std::alloc::Global;

/// Whether the order is one of the history, and which clause is the first that fails where it isn't. A completed request
/// that doesn't stand in the order breaks `Stands`, and not `Answered`.
///
/// It takes the time of the history and the order, but for a logarithm, and memory for a place of each request, an answer
/// of each place and what one thread stores.
pub fn check(alloc: Global, claim: &Claim) -> Result<Verdict, NoMemory>
    // It says yes exactly where the order is one of the history.
    ensures yes { IfOk result (λ verdict. (verdict ≡ Verdict.Yes) ↔ IsOrder claim.now.events claim.now.order) }
    // It names a clause exactly where that fails and all of lower numbers hold.
    ensures no { (clause : Clause) → IfOk result (λ verdict.
        (verdict ≡ Verdict.No clause) ↔ IsFirstBroken claim.now.events claim.now.order clause) }
{
    verdict_of(alloc, claim.history(), claim.order())
}

fn verdict_of(
    alloc: Global,
    history: &PackedEvents,
    order: &PackedOrder,
) -> Result<Verdict, NoMemory>
    requires { IsHistory history.now }
    ensures { IfOk result (IsVerdict history.now order.now) }
{
    let Some(places) = places_in(alloc, order)? else {
        return Ok(Verdict::No {
            clause: Clause::Invoked,
        });
    };
    if !were_invoked(alloc, history, order)? {
        return Ok(Verdict::No {
            clause: Clause::Invoked,
        });
    }
    verdict_at(alloc, history, order, &places)
}

/// The same, where each request was invoked and none stands twice.
fn verdict_at(
    alloc: Global,
    history: &PackedEvents,
    order: &PackedOrder,
    places: &Places,
) -> Result<Verdict, NoMemory>
    requires found { FindsPlaces (length order.now) (get id_cmp places.now) order.now }
    requires invoked { AreInvoked history.now order.now }
    ensures { IfOk result (IsVerdict history.now order.now) }
{
    if !are_placed(history, places) {
        return Ok(Verdict::No {
            clause: Clause::Stands,
        });
    }
    let answers = answers_in(alloc, order)?;
    if !are_answered(history, places, &answers) {
        return Ok(Verdict::No {
            clause: Clause::Answered,
        });
    }
    if !are_in_time(history, places) {
        return Ok(Verdict::No {
            clause: Clause::InTime,
        });
    }
    Ok(Verdict::Yes)
}

/// Whether each request of the order was invoked with its command.
fn were_invoked(
    alloc: Global,
    history: &PackedEvents,
    order: &PackedOrder,
) -> Result<bool, NoMemory>
    requires { IsHistory history.now }
    ensures { IfOk result (λ were. IsTrue were ↔ Each (IsInvoked history.now) order.now) }
{
    let invocations = invocations_in(alloc, history)?;
    Ok(all_invoked(history, &invocations, order))
}

fn all_invoked(history: &PackedEvents, invocations: &Places, order: &PackedOrder) -> bool
    requires history { IsHistory history.now }
    requires found { FindsInvocations (length history.now) (get id_cmp invocations.now) history.now }
    ensures { IsTrue result ↔ Each (IsInvoked history.now) order.now }
{
    for at in 0..order.len() {
        let (id, command) = order.asked(at);
        if !was_invoked(history, invocations, &id, &command) {
            return false;
        }
    }
    true
}

fn was_invoked(
    history: &PackedEvents,
    invocations: &Places,
    id: &RequestId,
    command: &Command,
) -> bool
    requires history { IsHistory history.now }
    requires found { FindsInvocations (length history.now) (get id_cmp invocations.now) history.now }
    ensures { IsTrue result ↔ IsInvoked history.now (id.now, command.now) }
{
    match invocations.get(id) {
        Some(at) => invokes(&history.event(*at), id, command),
        None => false,
    }
}

fn invokes(event: &Event, id: &RequestId, command: &Command) -> bool
    ensures { IsTrue result ↔ (event.now ≡ seen.Invoke id.now command.now) }
{
    matches!(event, Event::Invoke { id: other, command: theirs } if other.same(id) && theirs.same(command))
}

/// Whether each completed request has a place.
fn are_placed(history: &PackedEvents, places: &Places) -> bool
    ensures { IsTrue result ↔ Each (IsFound (get id_cmp places.now)) history.now }
{
    for at in 0..history.len() {
        if !is_placed(places, history, at) {
            return false;
        }
    }
    true
}

fn is_placed(places: &Places, history: &PackedEvents, at: usize) -> bool
    requires { at < length history.now }
    ensures { (e : Event) × At history.now at e × (IsTrue result ↔ IsFound (get id_cmp places.now) e) }
{
    match history.mark(at) {
        Mark::Invoke { .. } => true,
        Mark::Complete { id } => places.get(&id).is_some(),
    }
}

/// Whether each completed request that has a place has the answer of that place.
fn are_answered(history: &PackedEvents, places: &Places, answers: &[Answer]) -> bool
    ensures { IsTrue result ↔ Each (HasAnswerOfPlace (get id_cmp places.now) answers.now) history.now }
{
    for at in 0..history.len() {
        if !is_answered(places, answers, history, at) {
            return false;
        }
    }
    true
}

fn is_answered(places: &Places, answers: &[Answer], history: &PackedEvents, at: usize) -> bool
    requires { at < length history.now }
    ensures { (e : Event) × At history.now at e
        × (IsTrue result ↔ HasAnswerOfPlace (get id_cmp places.now) answers.now e) }
{
    match history.mark(at) {
        Mark::Invoke { .. } => true,
        Mark::Complete { .. } => has_answer(places, answers, &history.event(at)),
    }
}

fn has_answer(places: &Places, answers: &[Answer], event: &Event) -> bool
    ensures { IsTrue result ↔ HasAnswerOfPlace (get id_cmp places.now) answers.now event.now }
{
    match event {
        Event::Invoke { .. } => true,
        Event::Complete { id, answer } => match places.get(id) {
            Some(at) => stands_at(answers, *at, answer),
            None => true,
        },
    }
}

fn stands_at(answers: &[Answer], at: usize, answer: &Answer) -> bool
    ensures { IsTrue result ↔ At answers.now at answer.now }
{
    match answers.get(at) {
        Some(other) => other.same(answer),
        None => false,
    }
}

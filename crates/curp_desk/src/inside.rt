ghost use Rattle.std.specs.Prelude.{◌≡◌, ◌⊎◌, ◌↔◌, ◌+◌, ◌++◌, [], ◌∷◌, false, true, None, length, map, IfOk, IfSome, IsErr, OnErr, OnOk, MatchOption, option_map};
ghost use Rattle.curp_journal.specs.Journal.{NodeJournal};
ghost use Rattle.curp_seat.specs.Making.{IsRefused, item_of, with_item};
ghost use Rattle.curp_desk.specs.Outbox.{counted, out_of, step_by};

use crate::MadeStep;
use curp_base::NoMemory;
use curp_cmd::{NodeId, RequestId};
use curp_journal::{Arrived, Named};
use curp_msg::{Completed, Core};
use curp_ruled::Envelope;
use curp_seat::{Kept, Observer, Running, Took};
use std::alloc::{AllocError, Global};
use std::collections::VecDeque;
use std::marker::Model;

/// A made envelope, and the node that it is for.
#[derive(Drop)]
pub(crate) struct Out {
    pub to: NodeId,
    pub envelope: Envelope,
}

/// What lies under a desk's lock.
#[derive(Drop)]
pub(crate) struct Inside<N: Core> {
    alloc: Global,
    running: Running<N>,
    number: u32,
    /// How many items the node had when it came here.
    begun: u64,
    /// How many messages the courier was handed.
    handed: u64,
    outbox: VecDeque<Out>,
    ended: bool,
    /// There was no memory for what a step sent, or for the step.
    short: bool,
}

impl<N: Core> Model for Inside<N> {
    ghost use Rattle.curp_desk.specs.Outbox.{IsOutbox, OnDesk};

    ghost Value = { OnDesk N };

    ghost view = { λ inside. record {
      log = inside.running;
      number = inside.number;
      begun = inside.begun;
      handed = inside.handed;
      outs = inside.outbox.items;
      ended = inside.ended;
      short = inside.short;
    } };

    ghost invariant = { λ inside. IsOutbox (record {
      log = inside.running;
      number = inside.number;
      begun = inside.begun;
      handed = inside.handed;
      outs = inside.outbox.items;
      ended = inside.ended;
      short = inside.short;
    }) };
}

impl<N: Core> Inside<N> {
    pub(crate) fn new(alloc: Global, number: u32, kept: Kept<N>) -> Inside<N>
        requires { kept.ended ≡ false }
        ensures { result ≡ record {
          log = kept;
          number = number;
          begun = length kept.items;
          handed = 0;
          outs = [];
          ended = false;
          short = false;
        } }
    {
        let begun = kept.journal().len() as u64;
        Inside {
            alloc,
            running: Running::new(alloc, kept),
            number,
            begun,
            handed: 0,
            outbox: VecDeque::new(alloc),
            ended: false,
            short: false,
        }
    }

    /// Gives the node an input, and puts out what it sends. None where the node refused it, or no stamp is left. After running out
    /// of memory no more steps are made.
    pub(crate) fn make<G: Observer>(
        &mut self,
        observer: &G,
        arrived: Arrived,
    ) -> Result<Option<MadeStep>, NoMemory>
        ensures added { IfOk result (λ made. IfSome made (λ _. self.new.log ≡ with_item N.machine self.old.log arrived)) }
        ensures step { IfOk result (λ made. IfSome made (λ step.
            step ≡ step_by arrived (item_of N.machine self.old.log arrived))) }
        ensures cause { IfOk result (λ made. made ≡ None ↔ IsRefused N.machine self.old.log arrived) }
        ensures refused { IfOk result (λ made. made ≡ None → self.new ≡ self.old) }
        ensures err { OnErr result ((self.new.log ≡ self.old.log) ⊎ (self.new.log ≡ with_item N.machine self.old.log arrived)) }
        ensures falls_short { OnErr result (self.new.short ≡ true) }
        ensures stays_short { self.old.short ≡ true → IsErr result }
        ensures number { self.new.number ≡ self.old.number }
        ensures ended { self.new.ended ≡ self.old.ended }
        ensures handed { self.new.handed ≡ self.old.handed }
        ensures begun { self.new.begun ≡ self.old.begun }
    {
        if self.short {
            return Err(AllocError);
        }
        let took = Took::of(&arrived);
        self.short = true;
        let made = self.running.make(observer, arrived)?;
        if made.refused != 0 {
            self.short = false;
            return Ok(None);
        }
        let completed = id_of(&made.sent.completed);
        put_out(self.alloc, self.number, made.sent.named, &mut self.outbox)?;
        self.short = false;
        Ok(Some(MadeStep {
            took,
            completed,
            stamp: self.running.last_stamp(),
        }))
    }

    /// What is to be sent next: it is the courier's then.
    pub(crate) fn next(&mut self) -> Option<Out>
        ensures next { MatchOption result (self.old.outs ≡ []) (λ out. self.old.outs ≡ out ∷ self.new.outs) }
        ensures handed { MatchOption result (self.new.handed ≡ self.old.handed) (λ _. self.new.handed ≡ counted (self.old.handed + 1)) }
        ensures log { self.new.log ≡ self.old.log }
    {
        let next = self.outbox.pop_front();
        if next.is_some() {
            self.handed = self.handed.saturating_add(1);
        }
        next
    }

    /// The node has ended.
    pub(crate) fn end(&mut self)
        ensures { self.new ≡ record self.old { ended = true } }
    {
        self.ended = true;
    }

    pub(crate) fn ended(&self) -> bool
        ensures { result ≡ self.now.ended }
    {
        self.ended
    }

    pub(crate) fn into_kept(self) -> Kept<N>
        ensures kept { result ≡ self.log }
        ensures running { result.ended ≡ false }
    {
        self.running.into_kept()
    }
}

/// The request that was completed, if one was.
fn id_of(completed: &Option<Completed>) -> Option<RequestId>
    ensures { result ≡ option_map (λ completed. completed.id) completed.now }
{
    match completed {
        Some(completed) => Some(completed.id),
        None => None,
    }
}

/// Puts out what a step sent, behind what is there. After running out of memory nothing is put out.
fn put_out(
    alloc: Global,
    number: u32,
    named: Vec<Named>,
    outbox: &mut VecDeque<Out>,
) -> Result<(), NoMemory>
    ensures ok { OnOk result (outbox.new.items ≡ outbox.old.items ++ map (out_of number) named.items) }
    ensures err { OnErr result (outbox.new.items ≡ outbox.old.items) }
{
    let mut outs = VecDeque::from_vec(outs_of(alloc, number, named)?);
    outbox.append(&mut outs)
}

fn outs_of(alloc: Global, number: u32, named: Vec<Named>) -> Result<Vec<Out>, NoMemory>
    ensures { IfOk result (λ outs. outs.items ≡ map (out_of number) named.items) }
{
    let mut outs = Vec::with_capacity(alloc, named.len())?;
    for message in named {
        outs.push(out_of(alloc, number, message)?)?;
    }
    Ok(outs)
}

fn out_of(alloc: Global, number: u32, named: Named) -> Result<Out, NoMemory>
    ensures { IfOk result (λ out. out ≡ out_of number named) }
{
    let to = named.message.to;
    Ok(Out {
        to,
        envelope: Envelope::new(alloc, number, Arrived::Message(named))?,
    })
}

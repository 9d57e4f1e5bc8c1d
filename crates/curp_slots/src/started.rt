ghost use Rattle.std.specs.Prelude.{◌≡◌, ◌<◌, ◌≤◌, ◌≢◌, false, length, IfOk, OnOk, OnErr, Err};
ghost use Rattle.curp_base.specs.declared.failed.Failed.TheVariants as failed;
ghost use Rattle.curp_cmd.specs.Hash.{hashes as each_once};
ghost use Rattle.curp_model.specs.Witness.{HoldsInOrder, by_room, collect, conflict, freeze, frozen_requests, full_set};
ghost use Rattle.curp_model.specs.Witness.{gc, hold, holds, is_live, started_witness, stranger_to, suspects, turned_away};
ghost use Rattle.curp_slots.specs.Answers.{AnswersGc, refusal};
ghost use Rattle.curp_slots.specs.Holding.{with_owner_marked, with_owners_marked};
ghost use Rattle.curp_slots.specs.Slots.{owner};

use crate::answer::RecordAnswer;
use crate::error::Stranger;
use crate::hashes::AscendingHashes;
use crate::listed::Listed;
use crate::register::Register;
use crate::slots::Slots;
use curp_base::{Failed, NoMemory, Shared};
use curp_cmd::{Request, RequestId};
use curp_model::Mode;
use curp_msg::Reason;
use std::alloc::Global;
use std::marker::Model;

/// A witness that was started: it has the room that it needs to hold requests.
#[derive(Drop)]
pub struct StartedWitness {
    epoch: u32,
    frozen: bool,
    slots: Slots,
    register: Register,
}

impl Model for StartedWitness {
    ghost use Rattle.std.specs.Prelude.{length, Some};
    ghost use Rattle.curp_model.specs.Witness.{WitnessState};
    ghost use Rattle.curp_slots.specs.Holding.{SlotsTell};
    ghost use Rattle.curp_slots.specs.Modes.{started_mode};

    ghost Value = { WitnessState };

    ghost view = { λ w. record {
      mode = started_mode w.frozen;
      epoch = Some w.epoch;
      sets = length w.slots.sets;
      ways = w.slots.ways;
      held = w.register.held;
    } };

    ghost invariant = { λ w. SlotsTell w.slots w.register };
}

impl StartedWitness {
    /// A witness that was started at that epoch, and holds nothing. All the memory that it needs to hold requests is
    /// taken here.
    pub fn new(alloc: Global, sets: u32, ways: u32, epoch: u32) -> Result<StartedWitness, NoMemory>
        requires some_sets { 1 ≤ sets }
        requires sets_fit { sets ≤ 1024 }
        requires some_ways { 1 ≤ ways }
        requires ways_fit { ways ≤ 16 }
        ensures { IfOk result (λ witness. witness ≡ started_witness sets ways epoch) }
    {
        let slots = Slots::new(alloc, sets, ways)?;
        let register = Register::new(alloc, sets * ways)?;
        Ok(StartedWitness {
            epoch,
            frozen: false,
            slots,
            register,
        })
    }

    #[tactic(auto, unfolding(curp_model::specs::Witness::hold))]
    pub fn hold(&mut self, epoch: u32, request: Shared<Request>) -> RecordAnswer
        ensures state { self.new ≡ (hold self.old epoch request).state }
        ensures answer { refusal result ≡ (hold self.old epoch request).reason }
    {
        if let Some(why) = self.turned_away(epoch) {
            return RecordAnswer::Rejected(why);
        }
        if self.holds(&request.id) {
            return RecordAnswer::Accepted;
        }
        let hashes = AscendingHashes::of(&request.command);
        self.hold_new(request, hashes.as_slice())
    }

    #[tactic(auto, unfolding(curp_model::specs::Witness::gc))]
    pub fn gc(
        &mut self,
        alloc: Global,
        epoch: u32,
        ids: &[RequestId],
    ) -> Result<Vec<Shared<Request>>, Failed<Stranger>>
        ensures state { result ≢ Err failed.NoMemory → self.new ≡ (gc self.old epoch ids.now).state }
        ensures answer { AnswersGc result (gc self.old epoch ids.now).answer }
        ensures err { OnErr result (self.new ≡ self.old) }
    {
        if epoch != self.epoch {
            return Err(Failed::Because(Stranger {
                epoch: Some(self.epoch),
            }));
        }
        if self.frozen {
            return Ok(Vec::new(alloc));
        }
        Ok(self.collect(alloc, ids)?)
    }

    pub fn freeze(&mut self, alloc: Global) -> Result<Vec<Shared<Request>>, NoMemory>
        ensures state { OnOk result (self.new ≡ freeze self.old) }
        ensures answer { IfOk result (λ requests. requests.items ≡ frozen_requests self.old) }
        ensures err { OnErr result (self.new ≡ self.old) }
    {
        let requests = self.register.by_least_hash(alloc)?;
        self.frozen = true;
        Ok(requests)
    }

    #[tactic(auto, using(crate::proofs::Modes::live_is))]
    pub fn probe(&self, epoch: u32) -> bool
        ensures { result ≡ is_live self.now.mode self.now.epoch epoch }
    {
        !self.frozen && self.epoch == epoch
    }

    pub fn mode(&self) -> Mode
        ensures value { result ≡ self.now.mode }
        ensures not_idle { result ≢ Mode.Idle }
    {
        if self.frozen {
            Mode::Frozen
        } else {
            Mode::Normal
        }
    }

    pub fn epoch(&self) -> u32
        ensures { self.now.epoch ≡ Some result }
    {
        self.epoch
    }

    /// What it holds stands in ascending order of the ids, whatever came.
    pub fn holds_in_order(&self)
        ensures { HoldsInOrder self.now }
    {
        let _register = &self.register;
    }

    pub fn holds(&self, id: &RequestId) -> bool
        ensures { result ≡ holds self.now id.now }
    {
        self.register.holds(id)
    }

    // Why it turns away whatever comes at that epoch.
    #[tactic(auto, using(crate::proofs::Modes::stranger_away))]
    fn turned_away(&self, epoch: u32) -> Option<Reason>
        ensures { result ≡ turned_away self.now.mode (stranger_to epoch self.now.epoch) }
    {
        if self.epoch != epoch {
            return Some(Reason::Stranger { epoch: self.epoch });
        }
        if self.frozen {
            return Some(Reason::Frozen);
        }
        None
    }

    // Drops the listed requests, and gives the suspects among what remains.
    fn collect(
        &mut self,
        alloc: Global,
        ids: &[RequestId],
    ) -> Result<Vec<Shared<Request>>, NoMemory>
        ensures state { OnOk result (self.new ≡ collect self.old ids.now) }
        ensures answer { IfOk result (λ requests. requests.items ≡ suspects (collect self.old ids.now)) }
        ensures err { OnErr result (self.new ≡ self.old) }
    {
        let listed = Listed::of(alloc, ids)?;
        let suspects = self.register.suspects(alloc, &listed)?;
        self.slots.free(&listed);
        self.register.collect(&listed);
        Ok(suspects)
    }

    // Holds a request with those hashes and an id that isn't held, if there is room for it.
    fn hold_new(&mut self, request: Shared<Request>, hashes: &[u64]) -> RecordAnswer
        requires new { holds self.old request.id ≡ false }
        requires hashes { hashes.now ≡ each_once request.command }
        requires some { 1 ≤ length hashes.now }
        requires few { length hashes.now ≤ 4 }
        ensures state { let held = conflict self.old request in
            self.new ≡ (by_room self.old request held (full_set self.old request)).state }
        ensures answer { let held = conflict self.old request in
            refusal result ≡ (by_room self.old request held (full_set self.old request)).reason }
    {
        if let Some(held) = self.slots.least_owner(hashes) {
            mark_owners(&self.slots, &mut self.register, hashes);
            return RecordAnswer::Rejected(Reason::Conflict { held });
        }
        if let Some(set) = self.slots.full_set(hashes) {
            return RecordAnswer::Rejected(Reason::SetFull { set });
        }
        self.slots.take(hashes, &request.id);
        self.register.add(request);
        RecordAnswer::Accepted
    }
}

/// Marks the requests that have a slot for one of the hashes.
fn mark_owners(slots: &Slots, register: &mut Register, hashes: &[u64])
    ensures { register.new
        ≡ record register.old { held = with_owners_marked slots.now.sets hashes.now register.old.held } }
{
    if let [hash, rest @ ..] = hashes {
        mark_owner(slots, register, *hash);
        mark_owners(slots, register, rest);
    }
}

/// Marks the request that has a slot for the hash, if one has it.
fn mark_owner(slots: &Slots, register: &mut Register, hash: u64)
    ensures { register.new
        ≡ record register.old { held = with_owner_marked (owner slots.now.sets hash) register.old.held } }
{
    if let Some(id) = slots.owner(hash) {
        register.mark(&id);
    }
}

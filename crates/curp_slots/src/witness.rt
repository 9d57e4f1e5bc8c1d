ghost use Rattle.std.specs.Prelude.{◌≡◌, ◌<◌, ◌↔◌, ◌⊎◌, ◌≢◌, IfOk, IsErr, OnOk, OnErr, Err};
ghost use Rattle.curp_base.specs.declared.failed.Failed.TheVariants as failed;
ghost use Rattle.curp_model.specs.Witness.{HoldsInOrder, freeze, fresh_witness, frozen_requests};
ghost use Rattle.curp_model.specs.Witness.{gc, hold, holds, is_live, start, started_witness};
ghost use Rattle.curp_slots.specs.Answers.{AnswersGc, AnswersStart, refusal};
ghost use Rattle.curp_slots.specs.Shape.{IsShape};

use crate::answer::RecordAnswer;
use crate::error::{BadShape, NotIdle, Stranger};
use crate::started::StartedWitness;
use curp_base::{Failed, NoMemory, Shared};
use curp_cmd::{Request, RequestId};
use curp_model::Mode;
use curp_msg::Reason;
use std::alloc::Global;
use std::marker::Model;

/// A witness: it holds requests that don't conflict, until they are stored. One that wasn't started takes no memory.
pub struct Witness {
    alloc: Global,
    stage: Stage,
}

// Whether a witness was started, and so has room.
#[derive(Drop)]
enum Stage {
    // Its shape alone. Once it is frozen it is never started.
    Unstarted { frozen: bool, sets: u32, ways: u32 },
    Started(StartedWitness),
}

impl Drop for Witness {
    fn drop(self) {
        let Witness { alloc: _, stage: _ } = self;
    }
}

impl Model for Witness {
    ghost use Rattle.curp_model.specs.Witness.{WitnessState};

    ghost Value = { WitnessState };

    ghost use Rattle.curp_slots.specs.Stage.{HasShape, state_of};

    ghost view = { λ w. state_of w.stage };

    ghost invariant = { λ w. HasShape w.stage };
}

impl Witness {
    /// A witness that wasn't started, with so many sets of so many slots. It takes no memory.
    pub fn new(alloc: Global, sets: u32, ways: u32) -> Result<Witness, BadShape>
        ensures ok { IfOk result (λ witness. witness ≡ fresh_witness sets ways) }
        ensures bad_shape { IsErr result ↔ ((sets < 1) ⊎ ((1024 < sets) ⊎ ((ways < 1) ⊎ (16 < ways)))) }
    {
        check_shape(sets, ways)?;
        Ok(Witness {
            alloc,
            stage: Stage::Unstarted {
                frozen: false,
                sets,
                ways,
            },
        })
    }

    /// A witness that was started at that epoch, and holds nothing, with so many sets of so many slots.
    pub fn started(
        alloc: Global,
        sets: u32,
        ways: u32,
        epoch: u32,
    ) -> Result<Witness, Failed<BadShape>>
        ensures ok { IfOk result (λ witness. witness ≡ started_witness sets ways epoch) }
        ensures bad_shape { (result ≡ Err (failed.Because (record {})))
            ↔ ((sets < 1) ⊎ ((1024 < sets) ⊎ ((ways < 1) ⊎ (16 < ways)))) }
    {
        check_shape(sets, ways).map_err(Failed::Because)?;
        let started = StartedWitness::new(alloc, sets, ways, epoch)?;
        Ok(Witness {
            alloc,
            stage: Stage::Started(started),
        })
    }

    /// Starts the witness at that epoch, once. All the memory that it needs to hold requests is taken here. Nothing that
    /// it answers depends on the partition, so that takes no part.
    pub fn start(&mut self, _part: u32, epoch: u32) -> Result<(), Failed<NotIdle>>
        ensures state { result ≢ Err failed.NoMemory → self.new ≡ start self.old epoch }
        ensures answer { AnswersStart result self.old.mode }
        ensures err { OnErr result (self.new ≡ self.old) }
    {
        match &self.stage {
            Stage::Unstarted {
                frozen: false,
                sets,
                ways,
            } => {
                let started = StartedWitness::new(self.alloc, *sets, *ways, epoch)?;
                self.stage = Stage::Started(started);
                Ok(())
            }
            Stage::Unstarted { frozen: true, .. } => Err(Failed::Because(NotIdle {
                mode: Mode::Frozen,
            })),
            Stage::Started(started) => Err(Failed::Because(NotIdle {
                mode: started.mode(),
            })),
        }
    }

    /// Holds the request, if it was started at that epoch, isn't frozen, holds none that conflicts, and has a slot for
    /// each of the request's hashes (CURP's record). One with an id that is held is accepted as it is, whatever its
    /// command. What conflicts and has survived three collections is suspected. It takes no memory, and looks only at
    /// the slots of the request's hashes and at what has them, but for making room for its id among those that are
    /// held.
    #[tactic(auto, unfolding(curp_model::specs::Witness::hold))]
    pub fn hold(&mut self, epoch: u32, request: Shared<Request>) -> RecordAnswer
        ensures state { self.new ≡ (hold self.old epoch request).state }
        ensures answer { refusal result ≡ (hold self.old epoch request).reason }
    {
        match &mut self.stage {
            Stage::Unstarted { frozen: true, .. } => RecordAnswer::Rejected(Reason::Frozen),
            Stage::Unstarted { frozen: false, .. } => RecordAnswer::Rejected(Reason::Idle),
            Stage::Started(started) => started.hold(epoch, request),
        }
    }

    /// A collection: the listed requests are dropped, and what remains has survived one more collection. It gives the
    /// suspects, in ascending order of their ids. The ids may come in any order and repeated, and ids that aren't held
    /// are passed over. A frozen witness of that epoch drops nothing and gives none. It costs a search for each listed id and
    /// for what is held. The collections and the suspects are this project's own choice.
    #[tactic(auto, unfolding(curp_model::specs::Witness::gc))]
    pub fn gc(
        &mut self,
        epoch: u32,
        ids: &[RequestId],
    ) -> Result<Vec<Shared<Request>>, Failed<Stranger>>
        ensures state { result ≢ Err failed.NoMemory → self.new ≡ (gc self.old epoch ids.now).state }
        ensures answer { AnswersGc result (gc self.old epoch ids.now).answer }
        ensures err { OnErr result (self.new ≡ self.old) }
    {
        match &mut self.stage {
            Stage::Unstarted { .. } => Err(Failed::Because(Stranger { epoch: None })),
            Stage::Started(started) => started.gc(self.alloc, epoch, ids),
        }
    }

    /// Holds nothing more from then on, for good, and gives a copy of all that it holds, in ascending order of the
    /// least hashes.
    pub fn freeze(&mut self) -> Result<Vec<Shared<Request>>, NoMemory>
        ensures state { OnOk result (self.new ≡ freeze self.old) }
        ensures answer { IfOk result (λ requests. requests.items ≡ frozen_requests self.old) }
        ensures err { OnErr result (self.new ≡ self.old) }
    {
        match &mut self.stage {
            Stage::Unstarted { frozen, .. } => {
                *frozen = true;
                Ok(Vec::new(self.alloc))
            }
            Stage::Started(started) => started.freeze(self.alloc),
        }
    }

    /// Whether it takes requests of that epoch: it was started at it, and isn't frozen.
    pub fn probe(&self, epoch: u32) -> bool
        ensures { result ≡ is_live self.now.mode self.now.epoch epoch }
    {
        match &self.stage {
            Stage::Unstarted { .. } => false,
            Stage::Started(started) => started.probe(epoch),
        }
    }

    /// What it does with requests now.
    pub fn mode(&self) -> Mode
        ensures { result ≡ self.now.mode }
    {
        match &self.stage {
            Stage::Unstarted { frozen: false, .. } => Mode::Idle,
            Stage::Unstarted { frozen: true, .. } => Mode::Frozen,
            Stage::Started(started) => started.mode(),
        }
    }

    /// The epoch at which it was started, if it was.
    pub fn epoch(&self) -> Option<u32>
        ensures { result ≡ self.now.epoch }
    {
        match &self.stage {
            Stage::Unstarted { .. } => None,
            Stage::Started(started) => Some(started.epoch()),
        }
    }

    /// What it holds stands in ascending order of the ids, whatever came.
    pub fn holds_in_order(&self)
        ensures { HoldsInOrder self.now }
    {
        match &self.stage {
            Stage::Unstarted { .. } => (),
            Stage::Started(started) => started.holds_in_order(),
        }
    }

    /// Whether it holds the request with that id.
    pub fn holds(&self, id: &RequestId) -> bool
        ensures { result ≡ holds self.now id.now }
    {
        match &self.stage {
            Stage::Unstarted { .. } => false,
            Stage::Started(started) => started.holds(id),
        }
    }
}

/// Whether there are witnesses with so many sets of so many slots.
fn check_shape(sets: u32, ways: u32) -> Result<(), BadShape>
    ensures ok { IfOk result (λ _. IsShape sets ways) }
    ensures bad_shape { IsErr result ↔ ((sets < 1) ⊎ ((1024 < sets) ⊎ ((ways < 1) ⊎ (16 < ways)))) }
{
    if (1..=1024).contains(&sets) && (1..=16).contains(&ways) {
        Ok(())
    } else {
        Err(BadShape)
    }
}

ghost use Rattle.std.specs.Prelude.{◌≡◌, IfOk, IfErr};
ghost use Rattle.std.specs.Option.{option_map};
ghost use Rattle.std.specs.Result.{result_ok};
ghost use Rattle.curp_model.specs.Recovery.{Recovering, again_in, append_answered, fence_answered};
ghost use Rattle.curp_model.specs.Recovery.{log_comes, on_master, on_recover, recovery_ordered, requests_come};
ghost use Rattle.curp_model.specs.Recovery.{stored_comes};
ghost use Rattle.curp_msg.specs.Moved.{Makes, Moves, numbered_move};
ghost use Rattle.curp_recover.specs.Answers.{TellsIgnored, awaits_backups, awaits_log, awaits_requests};
ghost use Rattle.curp_recover.specs.Answers.{finished_log, phase_name, replayed_in, round_in};
ghost use Rattle.curp_recover.specs.Heard.{heard, is_serving, unadopted};

use crate::replay::{storing, with_log};
use crate::stage::{Awaited, RecoveryStage, awaited_after};
use crate::turned::turned_away;
use crate::{Ignored, Phase, messages};
use curp_base::{Failed, Items, NoMemory, Shared, TryCopy, copies_of};
use curp_cmd::{Entry, NodeId, Request};
use curp_log::Log;
use curp_msg::{AppendAnswer, Appended, Body, Done, FenceReply, Local, Message, Recover};
use std::alloc::{AllocError, Global};
use std::marker::Model;

/// A master that recovers a partition (after CURP's recovery). Contracts see its number and its state.
pub struct Recovery {
    alloc: Global,
    number: u32,
    order: Recover,
    stage: RecoveryStage,
}

impl Drop for Recovery {
    fn drop(self) {
        let Recovery {
            alloc: _,
            number: _,
            order: _,
            stage: _,
        } = self;
    }
}

impl Model for Recovery {
    ghost use Rattle.curp_model.specs.Recovery.{RecoveryState};
    ghost use Rattle.curp_msg.specs.Moved.{Node};
    ghost use Rattle.curp_recover.specs.Stage.{IsStage, phase_of};

    ghost Value = { Node RecoveryState };

    ghost view = { λ r. record { number = r.number; state = record { order = r.order; phase = phase_of r.stage } } };

    ghost invariant = { λ r. IsStage r.order r.stage };
}

impl Recovery {
    /// Master `number` gets its order, and asks the backup and the witness that it names.
    #[tactic(auto, unfolding(curp_model::specs::Recovery::on_recover))]
    pub fn begin(alloc: Global, number: u32, order: &Recover) -> Result<(Recovery, Done), NoMemory>
        ensures { IfOk result (λ begun. Makes begun.0 begun.1 (numbered_move number (on_recover number order.now))) }
    {
        let order = order.try_copy(alloc)?;
        let asked = messages::unanswered(alloc, number, &order, &None, &None)?;
        let stage = RecoveryStage::Asking {
            log: None,
            requests: None,
        };
        let recovery = Recovery {
            alloc,
            number,
            order,
            stage,
        };
        Ok((recovery, Done::sends(asked)))
    }

    /// A message comes. Its addressee isn't looked at. By its adoption it would begin to serve: there it does nothing, and
    /// its caller asks before, by `is_adopted_by`.
    #[tactic(auto, unfolding(curp_model::specs::Recovery::on_master))]
    pub fn on_message(&mut self, message: &Message) -> Result<Done, NoMemory>
        ensures moves { Moves self.old self.new result (numbered_move self.old.number
            (unadopted self.old.number self.old.state message.now.from message.now.body)) }
    {
        match &message.body {
            Body::FenceAnswer(answer) => self.on_fence_answer(&message.from, &answer.answer),
            Body::FrozenAnswer { requests } => {
                self.on_frozen_answer(&message.from, requests.as_slice())
            }
            Body::Appended(appended) => self.on_appended(&message.from, appended),
            _ => turned_away(self.alloc, self.number, &message.body),
        }
    }

    /// An order comes. It refuses none.
    pub fn on_order(&mut self, order: &Local) -> Result<Done, NoMemory>
        ensures moves { Moves self.old self.new result (numbered_move self.old.number
            (recovery_ordered self.old.number self.old.state order.now)) }
    {
        match order {
            Local::Sync => self.again(),
            _ => Ok(Done::quiet(self.alloc)),
        }
    }

    /// Whether it begins to serve by that message. Then `finish` gives the log to serve with.
    #[tactic(auto, unfolding(curp_model::specs::Recovery::on_master))]
    pub fn is_adopted_by(&self, message: &Message) -> bool
        ensures { result ≡ is_serving
            (on_master self.now.number (Recovering self.now.state) message.now.from message.now.body).state }
    {
        match &message.body {
            Body::Adopted(_) => self.phase() == Phase::Waiting,
            _ => false,
        }
    }

    /// The log of the named backup comes. Once the requests are there too, the replayed log goes to each fresh backup. What
    /// is no log counts as not delivered.
    pub fn on_log(&mut self, entries: &[Entry]) -> Result<Done, Failed<Ignored>>
        ensures moves { Moves self.old self.new result (numbered_move self.old.number
            (log_comes self.old.number self.old.state self.old.state.order.backup entries.now self.old.state.phase)) }
        ensures ignored { TellsIgnored (awaits_log self.old.state.phase) (phase_name self.old.state.phase) result }
    {
        let RecoveryStage::Asking {
            log: None,
            requests,
        } = &self.stage
        else {
            return Err(Failed::Because(self.ignored()));
        };
        let order = &self.order;
        let Some(log) = Log::from_entries(self.alloc, order.lo, order.hi, entries)? else {
            return Ok(Done::quiet(self.alloc));
        };
        let (stage, done) = with_log(self.alloc, self.number, order, log, entries, requests)?;
        self.stage = stage;
        Ok(done)
    }

    /// The requests of the named witness come. Once the log is there too, the replayed log goes to each fresh backup.
    pub fn on_frozen(&mut self, requests: Vec<Shared<Request>>) -> Result<Done, Failed<Ignored>>
        ensures moves { Moves self.old self.new result (numbered_move self.old.number
            (requests_come self.old.number self.old.state self.old.state.order.witness requests.items
            self.old.state.phase)) }
        ensures ignored { TellsIgnored (awaits_requests self.old.state.phase) (phase_name self.old.state.phase) result }
    {
        let (alloc, number, order) = (self.alloc, self.number, &self.order);
        match &mut self.stage {
            RecoveryStage::Asking {
                log: None,
                requests: None,
            } => {
                self.stage = RecoveryStage::Asking {
                    log: None,
                    requests: Some(Items::new(requests)),
                };
                Ok(Done::quiet(alloc))
            }
            RecoveryStage::Asking {
                log: Some(fenced),
                requests: None,
            } => {
                let log = fenced.take_log(alloc, order)?;
                let entries = fenced.entries.as_slice();
                let (stage, done) = storing(alloc, number, order, log, entries, &requests)?;
                self.stage = stage;
                Ok(done)
            }
            _ => Err(Failed::Because(self.ignored())),
        }
    }

    /// A backup has stored so much of the log. Once each fresh backup has the whole of it, the manager is told. The round
    /// takes no part, since a whole log is stored whichever append brought it.
    pub fn on_stored(
        &mut self,
        backup: &NodeId,
        length: u64,
        round: u64,
    ) -> Result<Done, Failed<Ignored>>
        ensures moves { Moves self.old self.new result (numbered_move self.old.number
            (stored_comes self.old.number self.old.state backup.now length self.old.state.phase)) }
        ensures ignored { TellsIgnored (awaits_backups self.old.state.phase) (phase_name self.old.state.phase) result }
    {
        let (alloc, number, order) = (self.alloc, self.number, &self.order);
        match &mut self.stage {
            RecoveryStage::Replayed {
                replayed,
                awaited: awaited @ Awaited::Storing,
            } => {
                if !replayed.is_stored_by(order, backup, length) {
                    return Ok(Done::quiet(alloc));
                }
                let is_last = replayed.is_last(order.backups.as_slice(), backup);
                let told = replayed.complete_by(alloc, number, order, backup)?;
                *awaited = awaited_after(is_last);
                Ok(Done::sends(told))
            }
            _ => Err(Failed::Because(self.ignored())),
        }
    }

    /// What it waits for is asked, sent or told again. Appends go in a new round to the backups that aren't complete, and
    /// none do where the number of the round would pass 2^64 - 1. It is never ignored, so it fails for memory alone.
    pub fn again(&mut self) -> Result<Done, NoMemory>
        ensures moves { Moves self.old self.new result (numbered_move self.old.number
            (again_in self.old.number self.old.state self.old.state.phase)) }
    {
        let (alloc, number, order) = (self.alloc, self.number, &self.order);
        let sent = match &mut self.stage {
            RecoveryStage::Asking { log, requests } => {
                messages::unanswered(alloc, number, order, log, requests)?
            }
            RecoveryStage::Replayed {
                replayed,
                awaited: Awaited::Storing,
            } => replayed.send_again(alloc, number, order)?,
            RecoveryStage::Replayed {
                awaited: Awaited::Adoption,
                ..
            } => messages::told(alloc, number, order, true)?,
        };
        Ok(Done::sends(sent))
    }

    /// The log to serve with, once all fresh backups have it; else the recovery is given back. It takes no memory.
    pub fn finish(self) -> Result<Log, Recovery>
        ensures log { option_map (λ log. log.entries) (result_ok result) ≡ finished_log self.state.phase }
        ensures lo { IfOk result (λ log. log.lo ≡ self.state.order.lo) }
        ensures hi { IfOk result (λ log. log.hi ≡ self.state.order.hi) }
        ensures back { IfErr result (λ same. same ≡ self) }
    {
        let Recovery {
            alloc,
            number,
            order,
            stage,
        } = self;
        match stage {
            RecoveryStage::Replayed {
                replayed,
                awaited: Awaited::Adoption,
            } => Ok(replayed.log),
            stage => Err(Recovery {
                alloc,
                number,
                order,
                stage,
            }),
        }
    }

    pub fn phase(&self) -> Phase
        ensures { result ≡ phase_name self.now.state.phase }
    {
        match &self.stage {
            RecoveryStage::Asking { .. } => Phase::Asking,
            RecoveryStage::Replayed {
                awaited: Awaited::Storing,
                ..
            } => Phase::Storing,
            RecoveryStage::Replayed {
                awaited: Awaited::Adoption,
                ..
            } => Phase::Waiting,
        }
    }

    /// The last round of appends that was begun, and 0 before the first.
    pub fn round(&self) -> u64
        ensures { result ≡ round_in self.now.state.phase }
    {
        match &self.stage {
            RecoveryStage::Asking { .. } => 0,
            RecoveryStage::Replayed { replayed, .. } => replayed.round,
        }
    }

    /// The length of the log that the backup gave, once its requests are replayed.
    pub fn cut(&self) -> Option<u64>
        ensures { result ≡ option_map (λ r. r.cut) (replayed_in self.now.state.phase) }
    {
        match &self.stage {
            RecoveryStage::Asking { .. } => None,
            RecoveryStage::Replayed { replayed, .. } => Some(replayed.cut),
        }
    }

    /// The replayed log, once there is one.
    pub fn log(&self) -> Option<&Log>
        ensures { option_map (λ log. log.now.entries) result
            ≡ option_map (λ r. r.log) (replayed_in self.now.state.phase) }
    {
        match &self.stage {
            RecoveryStage::Asking { .. } => None,
            RecoveryStage::Replayed { replayed, .. } => Some(&replayed.log),
        }
    }

    /// The order that it was given.
    pub fn order(&self) -> &Recover
        ensures { result.now ≡ self.now.state.order }
    {
        &self.order
    }

    pub fn number(&self) -> u32
        ensures { result ≡ self.now.number }
    {
        self.number
    }

    // ---- messages

    fn on_fence_answer(&mut self, from: &NodeId, answer: &FenceReply) -> Result<Done, NoMemory>
        ensures moves { Moves self.old self.new result (numbered_move self.old.number
            (fence_answered self.old.number self.old.state from.now answer.now)) }
    {
        let FenceReply::Log(entries) = answer else {
            return Ok(Done::quiet(self.alloc));
        };
        if *from != self.order.backup {
            return Ok(Done::quiet(self.alloc));
        }
        heard(self.alloc, self.on_log(entries.as_slice()))
    }

    fn on_frozen_answer(
        &mut self,
        from: &NodeId,
        requests: &[Shared<Request>],
    ) -> Result<Done, NoMemory>
        ensures moves { Moves self.old self.new result (numbered_move self.old.number
            (requests_come self.old.number self.old.state from.now requests.now self.old.state.phase)) }
    {
        if *from != self.order.witness {
            return Ok(Done::quiet(self.alloc));
        }
        let requests = copies_of(self.alloc, requests)?;
        heard(self.alloc, self.on_frozen(requests))
    }

    fn on_appended(&mut self, from: &NodeId, appended: &Appended) -> Result<Done, NoMemory>
        ensures moves { Moves self.old self.new result (numbered_move self.old.number
            (append_answered self.old.number self.old.state from.now appended.now.answer)) }
    {
        match appended.answer {
            AppendAnswer::Stored { length } => {
                heard(self.alloc, self.on_stored(from, length, appended.round))
            }
            _ => Ok(Done::quiet(self.alloc)),
        }
    }

    // ----

    fn ignored(&self) -> Ignored
        ensures { result.phase ≡ phase_name self.now.state.phase }
    {
        Ignored {
            phase: self.phase(),
        }
    }
}

/// What isn't waited for is heard, and does nothing.
fn heard(alloc: Global, told: Result<Done, Failed<Ignored>>) -> Result<Done, NoMemory>
    ensures { result ≡ heard told }
{
    match told {
        Ok(done) => Ok(done),
        Err(Failed::Because(Ignored { .. })) => Ok(Done::quiet(alloc)),
        Err(Failed::NoMemory) => Err(AllocError),
    }
}

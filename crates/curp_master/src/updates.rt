ghost use Rattle.std.specs.Prelude.{◌≡◌, ◌≢◌, ◌∷◌, [], true, IfOk};
ghost use Rattle.curp_cmd.specs.declared.entry.Entry.TheVariants.{Op};
ghost use Rattle.curp_model.specs.declared.Check.TheVariants.{New};
ghost use Rattle.curp_model.specs.Master.{carries_out, executes, holds_back, is_clean, known_at, on_update};
ghost use Rattle.curp_model.specs.Master.{state_of, verdict};
ghost use Rattle.curp_model.specs.Table.{check};
ghost use Rattle.curp_msg.specs.Moved.{Moves};
ghost use Rattle.curp_master.specs.Built.{move_of};
ghost use Rattle.curp_master.specs.Rounds.{IsNextRound};
ghost use Rattle.curp_master.specs.Updates.{new_verdict, pushes_held};
ghost use Rattle.curp_master_log.specs.MasterLog.{CanPush};

use crate::room::{make_room, push_held};
use crate::{Master, Round};
use curp_base::{NoMemory, Shared};
use curp_cmd::{Answer, Request};
use curp_master_log::{op_of, op_room, reply_room};
use curp_model::{Check, Verdict, Wish};
use curp_msg::{Ask, Done, Refusal};
use curp_rounds::messages;
use std::slice::from_ref;

impl Master {
    #[tactic(auto, unfolding(curp_model::specs::Master::on_update))]
    pub(crate) fn on_update(&mut self, wish: Wish, ask: &Ask) -> Result<Done, NoMemory>
        ensures moves { Moves self.old self.new result
            (move_of self.old (on_update self.old.number self.old.state wish ask.now)) }
    {
        let verdict = self.verdict(wish, ask);
        self.carry_out(wish, &ask.request, verdict)
    }

    // By the first of the rules that holds.
    fn verdict(&self, wish: Wish, ask: &Ask) -> Verdict
        ensures verdict { result ≡ verdict self.now.state wish ask.now }
        ensures can_push { result ≡ Verdict.Execute → CanPush (state_of self.now.state) ask.now.request }
    {
        if ask.epoch != self.epoch {
            return Verdict::Deny(Refusal::Epoch {
                current: self.epoch,
            });
        }
        if !self.phase.is_open() {
            return Verdict::Deny(Refusal::Switching);
        }
        match self.master_log.log().check(&ask.request.id) {
            Check::Expired => Verdict::Deny(Refusal::Expired),
            Check::Stale { first } => Verdict::Deny(Refusal::Stale { first }),
            Check::Known { answer, index } => self.known_at(wish, answer, index),
            Check::New => self.new_at(ask),
        }
    }

    // Of a request that stands in the log.
    fn known_at(&self, wish: Wish, answer: Answer, index: u64) -> Verdict
        ensures verdict { result ≡ known_at self.now.state wish answer index }
        ensures known { result ≢ Verdict.Execute }
    {
        if index < self.synced() {
            return Verdict::Tell(answer);
        }
        if self.master_log.log().request(index).is_none() || self.held.contains(index) {
            return Verdict::Deny(Refusal::InProgress);
        }
        match wish {
            Wish::AtOnce if self.master_log.is_free(index) => Verdict::TellAgain(answer),
            _ => Verdict::HoldBack(index),
        }
    }

    // Of a request that doesn't.
    fn new_at(&self, ask: &Ask) -> Verdict
        requires { check (state_of self.now.state).table ask.now.request.id ≡ New }
        ensures verdict { result ≡ new_verdict self.now.state ask.now }
        ensures can_push { result ≡ Verdict.Execute → CanPush (state_of self.now.state) ask.now.request }
    {
        if ask.version != self.version {
            return Verdict::Deny(Refusal::Version {
                current: self.version,
            });
        }
        if !self.master_log.log().owns(&ask.request.command) {
            return Verdict::Deny(Refusal::NotOwner);
        }
        Verdict::Execute
    }

    fn carry_out(
        &mut self,
        wish: Wish,
        request: &Shared<Request>,
        verdict: Verdict,
    ) -> Result<Done, NoMemory>
        requires { verdict ≡ Verdict.Execute → CanPush (state_of self.old.state) request.now }
        ensures moves { Moves self.old self.new result (move_of self.old
            (carries_out self.old.number self.old.state wish request.now verdict)) }
    {
        match verdict {
            Verdict::Deny(why) => self.tell(messages::refuse(self.number, request.id, why)),
            Verdict::Tell(answer) => self.reply(true, request.id, &answer),
            Verdict::TellAgain(answer) => self.reply(false, request.id, &answer),
            Verdict::HoldBack(index) => self.hold_back(index),
            Verdict::Execute => self.execute(wish, request),
        }
    }

    fn execute(&mut self, wish: Wish, request: &Shared<Request>) -> Result<Done, NoMemory>
        requires { CanPush (state_of self.old.state) request.now }
        ensures moves { Moves self.old self.new result (move_of self.old
            (executes self.old.number self.old.state wish request.now
            (is_clean self.old.state request.now.command))) }
    {
        let is_clean = self.is_clean(&request.command)?;
        match wish {
            Wish::AtOnce if is_clean => self.push_free(request),
            Wish::AtOnce => self.push_held(request, false),
            Wish::WhenSynced => self.push_held(request, is_clean),
        }
    }

    // It is answered at once.
    fn push_free(&mut self, request: &Shared<Request>) -> Result<Done, NoMemory>
        requires { CanPush (state_of self.old.state) request.now }
        ensures moves { Moves self.old self.new result
            (move_of self.old (executes self.old.number self.old.state Wish.AtOnce request.now true)) }
    {
        // All room is taken before anything changes.
        let shared = request.share()?;
        let unanswered = self.reply_to(self.version, false, request.id, &Answer::Done);
        let (mut reply, mut sent) = reply_room(self.alloc, unanswered)?;
        make_room(&mut self.queue, 1, &mut self.master_log, op_room(request))?;
        let answer = self.master_log.push_op(shared, true);
        self.queue.add(request.id, self.master_log.log().len());
        reply.set(self.reply_to(self.version, false, request.id, &answer));
        sent.push_reserved(messages::reply(self.number, reply));
        Ok(Done::sends(sent))
    }

    // It waits for its synced reply, and a round begins.
    fn push_held(&mut self, request: &Shared<Request>, is_free: bool) -> Result<Done, NoMemory>
        requires { CanPush (state_of self.old.state) request.now }
        ensures moves { Moves self.old self.new result
            (move_of self.old (pushes_held self.old.number self.old.state request.now is_free)) }
    {
        let Some(round) = self.round_with_op(request)? else {
            return Ok(Done::quiet(self.alloc));
        };
        push_held(
            &mut self.held,
            &mut self.queue,
            &mut self.master_log,
            request,
            is_free,
        )?;
        self.round = round.number;
        Ok(Done::sends(round.appends))
    }

    // The next round, with the request behind the log.
    fn round_with_op(&self, request: &Shared<Request>) -> Result<Option<Round>, NoMemory>
        ensures { IfOk result (λ round. IsNextRound self.now (Op request.now request.now.first ∷ []) round) }
    {
        let entry = op_of(request.share()?);
        let round = self.next_round(from_ref(&entry));
        drop(entry);
        round
    }

    // What stands in the log already waits for its synced reply, and a round begins.
    fn hold_back(&mut self, index: u64) -> Result<Done, NoMemory>
        ensures moves { Moves self.old self.new result
            (move_of self.old (holds_back self.old.number self.old.state index)) }
    {
        let Some(round) = self.next_round(&[])? else {
            return Ok(Done::quiet(self.alloc));
        };
        self.held.reserve(1)?;
        self.held.insert(index);
        self.round = round.number;
        Ok(Done::sends(round.appends))
    }
}

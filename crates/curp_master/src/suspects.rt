ghost use Rattle.std.specs.Prelude.{◌≡◌, length, OnOk, OnErr};
ghost use Rattle.curp_model.specs.Master.{on_collected, treat, treats};
ghost use Rattle.curp_msg.specs.Moved.{Moves};
ghost use Rattle.curp_master.specs.Built.{move_of};
ghost use Rattle.curp_master_log.specs.Suspects.{news};

use crate::Master;
use crate::room::make_room;
use curp_base::{NoMemory, Shared, copies_of};
use curp_cmd::Request;
use curp_master_log::suspects::{news, treat_each};
use curp_msg::{Done, GcAnswer};
use std::alloc::AllocError;

impl Master {
    /// A witness answers a collection. Its suspects are queued to be collected again, and a new one is pushed first.
    #[tactic(auto, unfolding(curp_model::specs::Master::on_collected))]
    pub(crate) fn on_collected(&mut self, answer: &GcAnswer) -> Result<Done, NoMemory>
        ensures moves { Moves self.old self.new result
            (move_of self.old (on_collected self.old.number self.old.state answer.now)) }
    {
        match answer {
            GcAnswer::Suspects(suspects) if self.phase.is_open() => self.treat(suspects.as_slice()),
            _ => Ok(Done::quiet(self.alloc)),
        }
    }

    // Each in turn. Where one is pushed, a round begins behind the last.
    fn treat(&mut self, suspects: &[Shared<Request>]) -> Result<Done, NoMemory>
        ensures moves { Moves self.old self.new result
            (move_of self.old (treats self.old.number self.old.state suspects.now)) }
    {
        let news = news(self.alloc, self.master_log.log(), suspects)?;
        if news.is_empty() {
            self.take_in(suspects, 0)?;
            return Ok(Done::quiet(self.alloc));
        }
        let Some(round) = self.next_round(&news)? else {
            return Ok(Done::quiet(self.alloc));
        };
        self.take_in(suspects, news.len() as u64)?;
        self.round = round.number;
        Ok(Done::sends(round.appends))
    }

    // So many of them are pushed. All room is taken before anything changes.
    fn take_in(&mut self, suspects: &[Shared<Request>], ops: u64) -> Result<(), NoMemory>
        requires { ops ≡ length (news self.old.state.lo self.old.state.hi self.old.state.log suspects.now) }
        ensures number { self.new.number ≡ self.old.number }
        ensures state { OnOk result (self.new.state ≡ treat self.old.state suspects.now) }
        ensures err { OnErr result (self.new ≡ self.old) }
    {
        let Some(units) = ops.checked_mul(5) else {
            return Err(AllocError);
        };
        let shared = copies_of(self.alloc, suspects)?;
        let ids = shared.len() as u64;
        make_room(&mut self.queue, ids, &mut self.master_log, units)?;
        treat_each(&mut self.master_log, &mut self.queue, shared);
        Ok(())
    }
}

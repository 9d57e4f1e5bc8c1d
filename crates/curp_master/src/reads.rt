ghost use Rattle.std.specs.FinMap as store;
ghost use Rattle.std.specs.Prelude.{◌≡◌, Some, None};
ghost use Rattle.curp_cmd.specs.declared.command.Command.TheVariants.{Get};
ghost use Rattle.curp_model.specs.Master.{answers_at_once, captures_read, on_glance, on_read, read_refusal, state_of};
ghost use Rattle.curp_msg.specs.Moved.{Moves};
ghost use Rattle.curp_master.specs.Built.{move_of};

use crate::Master;
use curp_base::{Boxed, NoMemory, Shared};
use curp_cmd::{Answer, Command, Key, Request};
use curp_model::Check;
use curp_msg::{Ask, Done, Quick, Refusal};
use curp_rounds::{Captured, messages};

impl Master {
    /// A client asks to read. Only a Get is read.
    #[tactic(auto, unfolding(curp_model::specs::Master::on_read))]
    pub(crate) fn on_read(&mut self, ask: &Ask) -> Result<Done, NoMemory>
        ensures moves { Moves self.old self.new result
            (move_of self.old (on_read self.old.number self.old.state ask.now)) }
    {
        let Command::Get(key) = &ask.request.command else {
            return Ok(Done::quiet(self.alloc));
        };
        match self.read_refusal(ask) {
            Some(why) => self.tell(messages::refuse(self.number, ask.request.id, why)),
            None => self.capture(&ask.request, key),
        }
    }

    /// A client asks to read, and for an answer at once where that is safe. Only a Get is read.
    #[tactic(auto, unfolding(curp_model::specs::Master::on_glance))]
    pub(crate) fn on_glance(&mut self, ask: &Ask) -> Result<Done, NoMemory>
        ensures moves { Moves self.old self.new result
            (move_of self.old (on_glance self.old.number self.old.state ask.now)) }
    {
        let Command::Get(key) = &ask.request.command else {
            return Ok(Done::quiet(self.alloc));
        };
        if let Some(why) = self.read_refusal(ask) {
            return self.tell(messages::refuse(self.number, ask.request.id, why));
        }
        if self.is_clean(&ask.request.command)? {
            self.answer_at_once(&ask.request, key)
        } else {
            self.capture(&ask.request, key)
        }
    }

    // By the first of the rules that holds.
    fn read_refusal(&self, ask: &Ask) -> Option<Refusal>
        ensures { result ≡ read_refusal self.now.state ask.now }
    {
        if ask.epoch != self.epoch {
            return Some(Refusal::Epoch {
                current: self.epoch,
            });
        }
        if !self.phase.is_open() {
            return Some(Refusal::Switching);
        }
        match self.master_log.log().check(&ask.request.id) {
            Check::Expired => return Some(Refusal::Expired),
            Check::Stale { first } => return Some(Refusal::Stale { first }),
            Check::Known { .. } | Check::New => {}
        }
        if ask.version != self.version {
            return Some(Refusal::Version {
                current: self.version,
            });
        }
        if !self.master_log.log().owns(&ask.request.command) {
            return Some(Refusal::NotOwner);
        }
        None
    }

    // It waits with its value, and a round begins.
    fn capture(&mut self, request: &Shared<Request>, key: &Key) -> Result<Done, NoMemory>
        ensures moves { Moves self.old self.new result
            (move_of self.old (captures_read self.old.number self.old.state request.now key.now)) }
    {
        let Some(number) = self.captures.count().checked_add(1) else {
            return Ok(Done::quiet(self.alloc));
        };
        let Some(round) = self.next_round(&[])? else {
            return Ok(Done::quiet(self.alloc));
        };
        let shared = request.share()?;
        self.captures.reserve()?;
        let captured = Captured::new(
            number,
            shared,
            self.value(key),
            self.master_log.log().len(),
            round.number,
        );
        self.captures.push(captured);
        self.round = round.number;
        Ok(Done::sends(round.appends))
    }

    // It takes the next capture number, and no round begins.
    fn answer_at_once(&mut self, request: &Request, key: &Key) -> Result<Done, NoMemory>
        ensures moves { Moves self.old self.new result
            (move_of self.old (answers_at_once self.old.number self.old.state request.now key.now)) }
    {
        let Some(number) = self.captures.count().checked_add(1) else {
            return Ok(Done::quiet(self.alloc));
        };
        let quick = Quick {
            id: request.id,
            epoch: self.epoch,
            version: self.version,
            capture: number,
            answer: self.value(key),
        };
        let done = self.tell(messages::quick(self.number, Boxed::new(self.alloc, quick)?))?;
        self.captures.use_number(number);
        Ok(done)
    }

    // What a key has.
    fn value(&self, key: &Key) -> Answer
        ensures { result ≡ Answer.Found (store.get (state_of self.now.state).store key.now) }
    {
        Answer::Found(self.master_log.log().store().get(key))
    }
}

ghost use Rattle.std.specs.Prelude.{◌≡◌, ◌∷◌, [], IfOk};
ghost use Rattle.curp_model.specs.Master.{reply};
ghost use Rattle.curp_msg.specs.Moved.{done_of, sends};

use crate::Master;
use curp_base::{Boxed, NoMemory};
use curp_cmd::{Answer, RequestId};
use curp_master_log::only;
use curp_msg::{Done, Message, Reply};
use curp_rounds::messages;

impl Master {
    /// A reply to the client of a request, and nothing else.
    pub(crate) fn reply(
        &self,
        synced: bool,
        id: RequestId,
        answer: &Answer,
    ) -> Result<Done, NoMemory>
        ensures { IfOk result (λ done. done ≡ done_of
            (sends self.now.state (reply self.now.number self.now.state synced id answer.now ∷ []))) }
    {
        let reply = Boxed::new(self.alloc, self.reply_to(self.version, synced, id, answer))?;
        self.tell(messages::reply(self.number, reply))
    }

    /// A message, and nothing else.
    pub(crate) fn tell(&self, message: Message) -> Result<Done, NoMemory>
        ensures { IfOk result (λ done. done ≡ done_of (sends self.now.state (message ∷ []))) }
    {
        Ok(Done::sends(only(self.alloc, message)?))
    }

    /// A reply bears the master's own epoch, and the version of its lists.
    pub(crate) fn reply_to(
        &self,
        version: u32,
        synced: bool,
        id: RequestId,
        answer: &Answer,
    ) -> Reply
        ensures { result ≡ record {
          id = id;
          synced = synced;
          epoch = self.now.state.epoch;
          version = version;
          answer = answer.now;
        } }
    {
        Reply {
            id,
            synced,
            epoch: self.epoch,
            version,
            answer: *answer,
        }
    }
}

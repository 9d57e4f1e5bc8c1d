ghost use Rattle.curp_model.specs.Master.{collect_in};
ghost use Rattle.curp_msg.specs.Moved.{Moves, numbered_move};

use crate::Master;
use curp_base::NoMemory;
use curp_msg::Done;
use curp_rounds::messages;

impl Master {
    /// The ids that are due leave the queue, and go to each witness, unless it takes up new lists.
    pub(crate) fn collect(&mut self) -> Result<Done, NoMemory>
        ensures moves { Moves self.old self.new result (numbered_move self.old.number
            (collect_in self.old.number self.old.state self.old.state.phase)) }
    {
        if !self.phase.is_open() {
            return Ok(Done::quiet(self.alloc));
        }
        let synced = self.master_log.synced();
        let ids = self.queue.due(synced)?;
        let sent = messages::gc_each(self.alloc, self.number, &self.witnesses, self.epoch, &ids)?;
        self.queue.leave(synced);
        Ok(Done::sends(sent))
    }
}

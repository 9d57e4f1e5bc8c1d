ghost use Rattle.std.specs.Prelude.{◌≡◌, ◌++◌, length, slice_get, IfOk, OnOk, OnErr};
ghost use Rattle.curp_model.specs.Master.{on_appended, on_stored, settle, synced_replies, synced_reply};
ghost use Rattle.curp_msg.specs.Moved.{Moves};
ghost use Rattle.curp_master.specs.Built.{move_of};
ghost use Rattle.curp_master.specs.Settling.{acknowledging, listing, prepares_in};

use crate::Master;
use curp_base::{Boxed, NoMemory};
use curp_cmd::NodeId;
use curp_master_log::only;
use curp_msg::{AppendAnswer, Appended, Done, Message};
use curp_rounds::{Acknowledged, Heard, messages};

impl Master {
    #[tactic(auto, unfolding(curp_model::specs::Master::on_appended))]
    pub(crate) fn on_appended(
        &mut self,
        from: &NodeId,
        appended: &Appended,
    ) -> Result<Done, NoMemory>
        ensures moves { Moves self.old self.new result (move_of self.old
            (on_appended self.old.number self.old.state from.now appended.now.round appended.now.answer)) }
    {
        match appended.answer {
            AppendAnswer::Stored { length } => self.on_stored(from, length, appended.round),
            _ => Ok(Done::quiet(self.alloc)),
        }
    }

    fn on_stored(&mut self, from: &NodeId, long: u64, round: u64) -> Result<Done, NoMemory>
        ensures moves { Moves self.old self.new result
            (move_of self.old (on_stored self.old.number self.old.state from.now long round)) }
    {
        if !self.phase.stores_on(&self.backups, from) {
            return Ok(Done::quiet(self.alloc));
        }
        let more = Acknowledged::new(*from, long, round);
        if self.phase.is_open() {
            self.settle(&more)
        } else {
            self.prepare_by(&more)
        }
    }

    // A backup has so much more, and the manager is told once where the next list has the whole log.
    fn prepare_by(&mut self, more: &Acknowledged) -> Result<Done, NoMemory>
        ensures moves { Moves self.old self.new result (move_of self.old
            (prepares_in self.old.number (acknowledging self.old.state more.now) self.old.state.phase)) }
    {
        let long = self.master_log.log().len();
        let ready = self
            .phase
            .ready_version(long, &Heard::raised(&self.acknowledged, more));
        match ready {
            None => {
                self.acknowledge(more)?;
                Ok(Done::quiet(self.alloc))
            }
            Some(version) => {
                let sent = only(self.alloc, messages::prepared(self.number, version))?;
                self.acknowledge(more)?;
                self.phase.note_prepared();
                Ok(Done::sends(sent))
            }
        }
    }

    // A backup has so much more, and what all have is answered.
    fn settle(&mut self, more: &Acknowledged) -> Result<Done, NoMemory>
        ensures moves { Moves self.old self.new result (move_of self.old
            (settle self.old.number (acknowledging self.old.state more.now))) }
    {
        let sent = self.settled(
            &Heard::raised(&self.acknowledged, more),
            &self.backups,
            self.version,
        )?;
        self.acknowledge(more)?;
        self.release();
        Ok(Done::sends(sent))
    }

    // A backup has so much more.
    fn acknowledge(&mut self, more: &Acknowledged) -> Result<(), NoMemory>
        ensures number { self.new.number ≡ self.old.number }
        ensures state { OnOk result (self.new.state ≡ acknowledging self.old.state more.now) }
        ensures err { OnErr result (self.new ≡ self.old) }
    {
        self.acknowledged.raise(more)?;
        let synced = Heard::so_far(&self.acknowledged).least_length(&self.backups);
        self.master_log.settle(synced);
        Ok(())
    }

    /// What all backups have is answered, and waits no longer.
    pub(crate) fn release(&mut self)
        ensures number { self.new.number ≡ self.old.number }
        ensures state { self.new.state ≡ (settle self.old.number self.old.state).state }
    {
        let synced = self.master_log.synced();
        self.held.remove_below(synced);
        self.captures
            .remove_ready(&Heard::so_far(&self.acknowledged), &self.backups);
        self.settled = synced;
    }

    /// What is said to settle, where these are the backups of the list, which have so much, and of that version.
    pub(crate) fn settled(
        &self,
        heard: &Heard<'_>,
        backups: &[NodeId],
        version: u32,
    ) -> Result<Vec<Message>, NoMemory>
        ensures { IfOk result (λ sent. sent.items ≡ (settle self.now.number
            (listing self.now.state heard.now backups.now version)).messages) }
    {
        let synced = heard.least_length(backups);
        let mut sent = self.synced_replies(version, self.held.below(synced))?;
        self.captures.tell_ready(
            &mut sent,
            self.alloc,
            self.number,
            self.epoch,
            heard,
            backups,
        )?;
        let moved = self.master_log.log().between(self.settled, synced)?;
        messages::tell_moved(&mut sent, self.alloc, self.number, &moved)?;
        Ok(sent)
    }

    fn synced_replies(&self, version: u32, indexes: &[u64]) -> Result<Vec<Message>, NoMemory>
        ensures { IfOk result (λ sent. sent.items
            ≡ synced_replies self.now.number (record self.now.state { version = version }) indexes.now) }
    {
        let mut sent = Vec::with_capacity(self.alloc, indexes.len())?;
        for index in indexes {
            self.reply_synced(&mut sent, version, *index)?;
        }
        Ok(sent)
    }

    fn reply_synced(
        &self,
        sent: &mut Vec<Message>,
        version: u32,
        index: u64,
    ) -> Result<(), NoMemory>
        ensures { OnOk result (sent.new.items ≡ sent.old.items ++ synced_reply self.now.number
            (record self.now.state { version = version }) index (slice_get self.now.state.log index)) }
    {
        let log = self.master_log.log();
        if let (Some(request), Some(answer)) = (log.request(index), log.answer(index)) {
            let reply = self.reply_to(version, true, request.id, &answer);
            sent.push(messages::reply(self.number, Boxed::new(self.alloc, reply)?))?;
        }
        Ok(())
    }
}

ghost use Rattle.std.specs.Prelude.{◌≡◌, IfOk, OnOk, OnErr};
ghost use Rattle.curp_model.specs.Master.{Switching, adopted_in, begins_round, prepare_in, prepared_message};
ghost use Rattle.curp_model.specs.Master.{switch_to, sync_in};
ghost use Rattle.curp_msg.specs.Moved.{Moves};
ghost use Rattle.curp_rounds.specs.Backups.{stored_by_all};
ghost use Rattle.curp_master.specs.Built.{move_of};
ghost use Rattle.curp_master.specs.Switching.{IsSettledNext, next_lists, rounds_behind, taken_up};

use crate::Master;
use curp_base::NoMemory;
use curp_master_log::in_prefix;
use curp_msg::{Done, Message, Prepare};
use curp_rounds::{Heard, MasterPhase, Switch, messages};
use std::mem::replace;

impl Master {
    /// The order to begin a round. While it takes up new lists, the manager is told again that they have the log.
    pub(crate) fn sync(&mut self) -> Result<Done, NoMemory>
        ensures moves { Moves self.old self.new result
            (move_of self.old (sync_in self.old.number self.old.state self.old.state.phase)) }
    {
        match self.phase.told_version() {
            Some(version) => self.sync_prepared(version),
            None => self.begin_round(),
        }
    }

    fn sync_prepared(&mut self, version: u32) -> Result<Done, NoMemory>
        ensures moves { Moves self.old self.new result (move_of self.old
            (rounds_behind self.old.number self.old.state (prepared_message self.old.number version))) }
    {
        let Some(round) = self.next_round(&[])? else {
            return Ok(Done::quiet(self.alloc));
        };
        let told = messages::prepared(self.number, version);
        let sent = in_prefix(self.alloc, told, round.appends)?;
        self.round = round.number;
        Ok(Done::sends(sent))
    }

    /// The manager gives it new lists.
    pub(crate) fn prepare(&mut self, prepare: &Prepare) -> Result<Done, NoMemory>
        ensures moves { Moves self.old self.new result
            (move_of self.old (prepare_in self.old.number self.old.state prepare.now self.old.state.phase)) }
    {
        match &self.phase {
            MasterPhase::Open if self.version < prepare.version => self.switch_to(prepare),
            MasterPhase::Switching(switch) if switch.version == prepare.version =>
                self.begin_round(),
            _ => Ok(Done::quiet(self.alloc)),
        }
    }

    // It takes up these lists, and a round begins.
    fn switch_to(&mut self, prepare: &Prepare) -> Result<Done, NoMemory>
        ensures moves { Moves self.old self.new result (move_of self.old (begins_round self.old.number
            (record self.old.state { phase = Switching (switch_to self.old.state prepare.now) }))) }
    {
        let Some(number) = self.round.checked_add(1) else {
            return Ok(Done::quiet(self.alloc));
        };
        let phase = MasterPhase::Switching(Switch {
            version: prepare.version,
            backups: prepare.backups.copy(self.alloc)?,
            witnesses: prepare.witnesses.copy(self.alloc)?,
            round: number,
            prepared: false,
        });
        let Some(round) = self.next_round_in(&phase, &[])? else {
            return Ok(Done::quiet(self.alloc));
        };
        self.phase = phase;
        self.round = round.number;
        Ok(Done::sends(round.appends))
    }

    /// The manager has adopted its lists of that version: it serves with them, and settles.
    pub(crate) fn adopted(&mut self, version: u32) -> Result<Done, NoMemory>
        ensures moves { Moves self.old self.new result
            (move_of self.old (adopted_in self.old.number self.old.state version self.old.state.phase)) }
    {
        let Some(next) = self.settled_next(version)? else {
            return Ok(Done::quiet(self.alloc));
        };
        self.take_up(next.synced)?;
        self.release();
        Ok(Done::sends(next.sent))
    }

    // What it says as it takes up the lists of that version, if it switches to them.
    fn settled_next(&self, version: u32) -> Result<Option<Settled>, NoMemory>
        ensures { IfOk result (λ next. IsSettledNext self.now version (next_lists version self.now.state.phase) next) }
    {
        match &self.phase {
            MasterPhase::Switching(switch) if switch.version == version => {
                let backups = switch.backups.as_slice();
                let heard = Heard::so_far(&self.acknowledged);
                Ok(Some(Settled {
                    synced: heard.least_length(backups),
                    sent: self.settled(&heard, backups, version)?,
                }))
            }
            _ => Ok(None),
        }
    }

    // It serves with the lists that it switched to, whose backups all have so much.
    fn take_up(&mut self, synced: u64) -> Result<(), NoMemory>
        requires { synced ≡ stored_by_all self.old.state.acknowledged (taken_up self.old.state).backups }
        ensures number { self.new.number ≡ self.old.number }
        ensures state { OnOk result (self.new.state ≡ taken_up self.old.state) }
        ensures err { OnErr result (self.new ≡ self.old) }
    {
        self.master_log.settle_anew(synced)?;
        if let MasterPhase::Switching(switch) = replace(&mut self.phase, MasterPhase::Open) {
            self.version = switch.version;
            self.backups = switch.backups.into_vec();
            self.witnesses = switch.witnesses.into_vec();
        }
        Ok(())
    }
}

/// How much is synced by the next lists, and what is said then.
#[derive(Drop)]
struct Settled {
    synced: u64,
    sent: Vec<Message>,
}

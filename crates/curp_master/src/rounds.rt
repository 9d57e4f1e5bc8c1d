ghost use Rattle.std.specs.Prelude.{◌≡◌, ◌≤◌, IfOk};
ghost use Rattle.curp_model.specs.Master.{appends, begins_round, from_backup};
ghost use Rattle.curp_msg.specs.Moved.{Moves};
ghost use Rattle.curp_master.specs.Built.{move_of};
ghost use Rattle.curp_rounds.specs.Phases.{phase_of};
ghost use Rattle.curp_master.specs.Rounds.{IsNextRound, append_from, at_round, in_phase};

use crate::{Master, Round};
use curp_base::{Items, NoMemory, copies_of, past};
use curp_cmd::{Entry, NodeId};
use curp_master_log::suffix_with;
use curp_msg::{Append, Done, Message};
use curp_rounds::{Heard, MasterPhase, messages};

impl Master {
    /// A round begins.
    pub(crate) fn begin_round(&mut self) -> Result<Done, NoMemory>
        ensures moves { Moves self.old self.new result
            (move_of self.old (begins_round self.old.number self.old.state)) }
    {
        let Some(round) = self.next_round(&[])? else {
            return Ok(Done::quiet(self.alloc));
        };
        self.round = round.number;
        Ok(Done::sends(round.appends))
    }

    /// The next round, with these entries behind the log, unless its number would pass 2^64 - 1.
    pub(crate) fn next_round(&self, more: &[Entry]) -> Result<Option<Round>, NoMemory>
        ensures { IfOk result (λ round. IsNextRound self.now more.now round) }
    {
        self.next_round_in(&self.phase, more)
    }

    /// The next round of that phase.
    pub(crate) fn next_round_in(
        &self,
        phase: &MasterPhase,
        more: &[Entry],
    ) -> Result<Option<Round>, NoMemory>
        ensures { IfOk result (λ round. IsNextRound (in_phase self.now (phase_of phase.now)) more.now round) }
    {
        match self.round.checked_add(1) {
            None => Ok(None),
            Some(number) => {
                let appends = self.appends(phase, number, more)?;
                Ok(Some(Round { number, appends }))
            }
        }
    }

    // What a round sends, with these entries behind the log. What the backups lack is read of the log once.
    fn appends(
        &self,
        phase: &MasterPhase,
        round: u64,
        more: &[Entry],
    ) -> Result<Vec<Message>, NoMemory>
        ensures { IfOk result (λ sent. sent.items ≡ appends self.now.number
            (at_round (in_phase self.now (phase_of phase.now)).state round more.now)) }
    {
        let backups = phase.stored_on(self.alloc, &self.backups)?;
        let stored = Heard::so_far(&self.acknowledged).least_length(&backups);
        let lacking = suffix_with(self.alloc, self.master_log.log(), stored, more)?;
        let mut sent = Vec::with_capacity(self.alloc, backups.len())?;
        for backup in &backups {
            sent.push(self.append_to(backup, round, stored, &lacking)?)?;
        }
        Ok(sent)
    }

    // What a backup lacks, of what all of them have up to a length and not all behind it.
    fn append_to(
        &self,
        backup: &NodeId,
        round: u64,
        stored: u64,
        lacking: &[Entry],
    ) -> Result<Message, NoMemory>
        requires { stored ≤ (from_backup self.now.state.acknowledged backup.now).length }
        ensures { IfOk result (λ message. message
            ≡ append_from self.now.number self.now.state round stored lacking.now backup.now) }
    {
        let base = self.acknowledged.reach_of(backup).long;
        let entries = copies_of(self.alloc, past(lacking, base - stored))?;
        Ok(messages::append(
            self.number,
            *backup,
            Append {
                epoch: self.epoch,
                base,
                round,
                entries: Items::new(entries),
            },
        ))
    }
}

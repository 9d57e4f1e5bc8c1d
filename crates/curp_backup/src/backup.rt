ghost use Rattle.std.specs.Prelude.{◌≡◌, ◌≢◌, ◌<◌, ◌≤◌, ◌↔◌, drop, length, IsTrue, OnErr, OnOk, IfOk, Err};
ghost use Rattle.curp_base.specs.declared.failed.Failed.TheVariants as failed;
ghost use Rattle.curp_model.specs.Backup.{fresh_backup, install, append, fence};
ghost use Rattle.curp_entries.specs.Packed.{IsPackedPart, IsShortTail};
ghost use Rattle.curp_backup.specs.Answers.{AnswersAppend, AnswersFence, install_answer};

use crate::{AppendError, Fenced};
use curp_base::{Failed, NoMemory, past};
use curp_cmd::Entry;
use curp_entries::PackedEntries;
use std::alloc::Global;
use std::marker::Model;

/// A backup: it keeps the entries of a master of its epoch, and takes nothing of an epoch below its fence. Contracts see its
/// state, and how many of the oldest entries of its log are packed.
pub struct Backup {
    installed: Option<u32>,
    fence: u32,
    log: PackedEntries,
}

impl Drop for Backup {
    fn drop(self) {
        let Backup {
            installed: _,
            fence: _,
            log: _,
        } = self;
    }
}

impl Model for Backup {
    ghost use Rattle.curp_backup.specs.Content.{Content};

    ghost Value = { Content };

    ghost view = { λ b. record {
      state = record { installed = b.installed; fence = b.fence; log = b.log.entries };
      packed = b.log.packed;
    } };
}

impl Backup {
    /// A backup that isn't installed, and keeps nothing yet. It takes no memory.
    pub fn new(alloc: Global) -> Backup
        ensures { result.state ≡ fresh_backup }
    {
        Backup {
            installed: None,
            fence: 0,
            log: PackedEntries::new(alloc),
        }
    }

    /// Installs the backup at that epoch, for good.
    pub fn install(&mut self, epoch: u32) -> Result<(), Fenced>
        ensures state { self.new.state ≡ install self.old.state epoch }
        ensures packed { self.new.packed ≡ self.old.packed }
        ensures answer { result ≡ install_answer self.old.state epoch }
    {
        if self.is_fenced(epoch) {
            return Err(Fenced { epoch: self.fence });
        }
        match self.installed {
            None => {
                self.installed = Some(epoch);
                Ok(())
            }
            Some(own) if own == epoch => Ok(()),
            Some(own) => Err(Fenced { epoch: own }),
        }
    }

    /// Takes entries that stand in the log of that epoch's master from `base` on, and gives the length of the log then.
    /// Of the entries that were there before, the oldest are packed first, so that fewer than 128 aren't, or else one of the
    /// first 64 of those has no encoding. The round takes no part: it is for the message that answers.
    #[tactic(auto, unfolding(curp_model::specs::Backup::append))]
    pub fn append(
        &mut self,
        epoch: u32,
        base: u64,
        entries: &[Entry],
        round: u64,
    ) -> Result<u64, Failed<AppendError>>
        ensures state { result ≢ Err failed.NoMemory
            → self.new.state ≡ (append self.old.state epoch base entries.now).state }
        ensures answer { AnswersAppend result (append self.old.state epoch base entries.now).answer }
        ensures err { OnErr result (self.new.state ≡ self.old.state) }
        ensures short { OnOk result (IsShortTail (drop self.new.packed self.old.state.log)) }
        ensures packed_before { OnOk result (self.new.packed ≤ length self.old.state.log) }
    {
        // The list is the same whether it was packed or not.
        let packed = self.log.pack();
        if self.is_fenced(epoch) {
            return Err(Failed::Because(AppendError::Fenced { epoch: self.fence }));
        }
        if self.installed != Some(epoch) {
            return Err(Failed::Because(AppendError::NotInstalled));
        }
        let length = self.log.len();
        if base > length {
            return Err(Failed::Because(AppendError::Gap { length }));
        }
        packed?;
        self.log.extend(past(entries, length - base))?;
        Ok(self.log.len())
    }

    /// Raises the fence to that epoch, and gives a copy of the whole log.
    #[tactic(auto, unfolding(curp_model::specs::Backup::fence))]
    pub fn fence(&mut self, epoch: u32) -> Result<Vec<Entry>, Failed<Fenced>>
        ensures state { result ≢ Err failed.NoMemory → self.new.state ≡ (fence self.old.state epoch).state }
        ensures packed { self.new.packed ≡ self.old.packed }
        ensures answer { AnswersFence result (fence self.old.state epoch).answer }
        ensures err { OnErr result (self.new ≡ self.old) }
    {
        if self.is_fenced(epoch) {
            return Err(Failed::Because(Fenced { epoch: self.fence }));
        }
        let log = self.log.suffix(0)?;
        self.fence = epoch;
        Ok(log)
    }

    /// The epoch at which it is installed, if it is.
    pub fn epoch(&self) -> Option<u32>
        ensures { result ≡ self.now.state.installed }
    {
        self.installed
    }

    /// The epoch below which it takes nothing.
    pub fn fence_epoch(&self) -> u32
        ensures { result ≡ self.now.state.fence }
    {
        self.fence
    }

    /// A copy of the entries that it keeps.
    pub fn log(&self) -> Result<Vec<Entry>, NoMemory>
        ensures { IfOk result (λ log. log.items ≡ self.now.state.log) }
    {
        self.log.suffix(0)
    }

    /// How many of its oldest entries are packed, and their encodings, one behind the other.
    pub fn packed(&self) -> (u64, &[u8])
        ensures count { result.0 ≡ self.now.packed }
        ensures part { IsPackedPart self.now.state.log result.0 result.1.now }
    {
        self.log.packed()
    }

    // Whether the fence is above that epoch.
    fn is_fenced(&self, epoch: u32) -> bool
        ensures { IsTrue result ↔ (epoch < self.now.state.fence) }
    {
        epoch < self.fence
    }
}

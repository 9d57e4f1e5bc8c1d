ghost use Rattle.std.specs.Prelude.{◌≡◌};
ghost use Rattle.curp_cmd.specs.Node.{backup_node};
ghost use Rattle.curp_model.specs.Backup.{fresh_backup, installed_backup, on_backup};
ghost use Rattle.curp_msg.specs.Moved.{Moves, numbered_move, says};

use curp_backup::{AppendError, Backup, Fenced};
use curp_base::{Failed, Items, NoMemory};
use curp_cmd::NodeId;
use curp_msg::{
    Append, AppendAnswer, Appended, Body, Core, Done, FenceAnswer, FenceReply, Local, Message,
};
use std::alloc::{AllocError, Global};
use std::marker::Model;

/// A backup as a node.
pub struct BackupNode {
    alloc: Global,
    number: u32,
    backup: Backup,
}

impl Drop for BackupNode {
    fn drop(self) {
        let BackupNode {
            alloc: _,
            number: _,
            backup: _,
        } = self;
    }
}

impl Model for BackupNode {
    ghost use Rattle.curp_model.specs.Backup.{BackupState};
    ghost use Rattle.curp_msg.specs.Moved.{Node};

    ghost Value = { Node BackupState };

    ghost view = { λ n. record { number = n.number; state = n.backup.state } };
}

impl BackupNode {
    /// A backup of that number that wasn't installed, and keeps nothing. It takes no memory.
    pub fn fresh(alloc: Global, number: u32) -> BackupNode
        ensures number { result.number ≡ number }
        ensures state { result.state ≡ fresh_backup }
    {
        BackupNode {
            alloc,
            number,
            backup: Backup::new(alloc),
        }
    }

    /// A backup of that number as at opening: it is installed at that epoch, and keeps nothing. It takes no memory.
    pub fn new(alloc: Global, number: u32, epoch: u32) -> BackupNode
        ensures number { result.number ≡ number }
        ensures state { result.state ≡ installed_backup epoch }
    {
        let mut backup = Backup::new(alloc);
        // A fresh backup takes each epoch.
        let _installed = backup.install(epoch);
        BackupNode {
            alloc,
            number,
            backup,
        }
    }

    fn answer(&self, to: NodeId, body: Body) -> Message
        ensures { result ≡ says (backup_node self.now.number) to body }
    {
        Message {
            from: NodeId::backup(self.number),
            to,
            body,
        }
    }

    #[tactic(auto, unfolding(curp_model::specs::Backup::on_backup))]
    fn on_append(&mut self, from: NodeId, append: &Append) -> Result<Done, NoMemory>
        ensures { Moves self.old self.new result
            (numbered_move self.old.number (on_backup self.old.number self.old.state from (Body.Append append.now))) }
    {
        let mut messages = Vec::with_capacity(self.alloc, 1)?;
        let entries = append.entries.as_slice();
        let answer = match self
            .backup
            .append(append.epoch, append.base, entries, append.round)
        {
            Ok(length) => AppendAnswer::Stored { length },
            Err(Failed::Because(AppendError::Fenced { epoch })) => AppendAnswer::Fenced { epoch },
            Err(Failed::Because(AppendError::NotInstalled)) => AppendAnswer::NotInstalled,
            Err(Failed::Because(AppendError::Gap { length })) => AppendAnswer::Gap { length },
            Err(Failed::NoMemory) => return Err(AllocError),
        };
        let appended = Appended {
            epoch: append.epoch,
            round: append.round,
            answer,
        };
        messages.push_reserved(self.answer(from, Body::Appended(appended)));
        Ok(Done::sends(messages))
    }

    #[tactic(auto, unfolding(curp_model::specs::Backup::on_backup))]
    fn on_fence(&mut self, from: NodeId, epoch: u32) -> Result<Done, NoMemory>
        ensures { Moves self.old self.new result
            (numbered_move self.old.number (on_backup self.old.number self.old.state from (Body.Fence epoch))) }
    {
        let mut messages = Vec::with_capacity(self.alloc, 1)?;
        let answer = match self.backup.fence(epoch) {
            Ok(log) => FenceReply::Log(Items::new(log)),
            Err(Failed::Because(Fenced { epoch })) => FenceReply::Fenced { epoch },
            Err(Failed::NoMemory) => return Err(AllocError),
        };
        let answered = FenceAnswer { epoch, answer };
        messages.push_reserved(self.answer(from, Body::FenceAnswer(answered)));
        Ok(Done::sends(messages))
    }
}

impl Core for BackupNode {
    ghost use Rattle.curp_nodes.specs.Machines.{backup_machine};
    ghost use Rattle.curp_nodes.specs.Refusals.{backup_refusals, backup_taken};

    ghost machine = { backup_machine };

    ghost refusals = { backup_refusals };

    ghost messages_taken = { backup_taken };

    #[tactic(auto, unfolding(crate::specs::Machines::backup_machine, curp_model::specs::Backup::on_backup))]
    fn on_message(&mut self, message: &Message) -> Result<Done, NoMemory> {
        match &message.body {
            Body::Append(append) => self.on_append(message.from, append),
            Body::Install { epoch } => {
                let _installed = self.backup.install(*epoch);
                Ok(Done::quiet(self.alloc))
            }
            Body::Fence { epoch } => self.on_fence(message.from, *epoch),
            _ => Ok(Done::quiet(self.alloc)),
        }
    }

    #[tactic(auto, unfolding(crate::specs::Machines::backup_machine))]
    fn on_order(&mut self, _order: &Local) -> Result<Done, NoMemory> {
        Ok(Done::quiet(self.alloc))
    }
}

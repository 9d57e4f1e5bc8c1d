// What is being done with a partition.
ghost use Rattle.std.specs.Prelude.{◌≡◌, IfOk, Some};
ghost use Rattle.std.specs.Option.{option_copied};
ghost use Rattle.curp_model.specs.Manager as model;
ghost use Rattle.curp_changes.specs.Work.{doing_of};

use crate::messages::{adopted_message, recover_messages, replace_messages, start_on};
use curp_base::{Boxed, Items, NoMemory, TryCopy};
use curp_cmd::{Keeper, NodeId};
use curp_msg::{Message, PartConfig, Recover};
use std::alloc::Global;
use std::marker::Model;

/// New lists with one fresh node.
#[derive(Drop)]
pub struct Replacement {
    pub kind: Keeper,
    pub fresh: NodeId,
    pub version: u32,
    pub backups: Items<NodeId>,
    pub witnesses: Items<NodeId>,
}

/// A master that is to recover a partition, and its order.
#[derive(Drop)]
pub struct Attempt {
    pub master: NodeId,
    pub order: Boxed<Recover>,
}

#[derive(Drop)]
pub enum Doing {
    Steady,
    Replacing(Replacement),
    Recovering(Attempt),
}

impl Replacement {
    /// The same lists.
    pub fn copy(&self, alloc: Global) -> Result<Replacement, NoMemory>
        ensures { IfOk result (λ copy. copy ≡ self.now) }
    {
        Ok(Replacement {
            kind: self.kind,
            fresh: self.fresh,
            version: self.version,
            backups: self.backups.copy(alloc)?,
            witnesses: self.witnesses.copy(alloc)?,
        })
    }
}

impl Attempt {
    /// The same master, with the same order.
    pub fn copy(&self, alloc: Global) -> Result<Attempt, NoMemory>
        ensures { IfOk result (λ copy. copy ≡ self.now) }
    {
        Ok(Attempt {
            master: self.master,
            order: self.order.try_copy(alloc)?,
        })
    }
}

/// What is being done with a partition.
pub struct Work {
    doing: Doing,
}

impl Drop for Work {
    fn drop(self) {
        let Work { doing: _ } = self;
    }
}

impl Model for Work {
    ghost use Rattle.curp_model.specs.Manager as model;
    ghost use Rattle.curp_changes.specs.Work.{doing_of};

    ghost Value = { model.Doing };

    ghost view = { λ w. doing_of w.doing };
}

impl Work {
    /// Nothing.
    pub fn steady() -> Work
        ensures { result ≡ model.Steady }
    {
        Work {
            doing: Doing::Steady,
        }
    }

    /// It is given new lists.
    pub fn replacing(lists: Replacement) -> Work
        ensures { result ≡ model.Replacing lists.kind lists.fresh lists.version lists.backups lists.witnesses }
    {
        Work {
            doing: Doing::Replacing(lists),
        }
    }

    /// It is recovered.
    pub fn recovering(attempt: Attempt) -> Work
        ensures { result ≡ model.Recovering attempt.master attempt.order }
    {
        Work {
            doing: Doing::Recovering(attempt),
        }
    }

    /// What is done, to look at.
    pub fn doing(&self) -> &Doing
        ensures { doing_of result.now ≡ self.now }
    {
        &self.doing
    }
}

impl TryCopy for Work {
    fn try_copy(&self, alloc: Global) -> Result<Work, NoMemory> {
        match &self.doing {
            Doing::Steady => Ok(Work::steady()),
            Doing::Replacing(lists) => Ok(Work::replacing(lists.copy(alloc)?)),
            Doing::Recovering(attempt) => Ok(Work::recovering(attempt.copy(alloc)?)),
        }
    }
}

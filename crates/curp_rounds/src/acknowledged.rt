ghost use Rattle.std.specs.Prelude.{◌≡◌, max};
ghost use Rattle.curp_cmd.specs.Node.{same_node};

use crate::reach::Reach;
use curp_cmd::NodeId;
use std::marker::Model;

/// The greatest length of its log and the last round that a backup has acknowledged.
pub struct Acknowledged {
    backup: NodeId,
    long: u64,
    round: u64,
}

impl Drop for Acknowledged {
    fn drop(self) {
        let Acknowledged {
            backup: _,
            long: _,
            round: _,
        } = self;
    }
}

impl Model for Acknowledged {
    ghost use Rattle.curp_model.specs.Master.{Acknowledged};

    ghost Value = { Acknowledged };

    ghost view = { λ a. record { backup = a.backup; length = a.long; round = a.round } };
}

impl Acknowledged {
    /// That backup has acknowledged so much.
    pub fn new(backup: NodeId, long: u64, round: u64) -> Acknowledged
        ensures { result ≡ record { backup = backup; length = long; round = round } }
    {
        Acknowledged {
            backup,
            long,
            round,
        }
    }

    pub(crate) fn copy(&self) -> Acknowledged
        ensures { result ≡ self.now }
    {
        Acknowledged {
            backup: self.backup,
            long: self.long,
            round: self.round,
        }
    }

    pub(crate) fn backup(&self) -> NodeId
        ensures { result ≡ self.now.backup }
    {
        self.backup
    }

    pub(crate) fn is_from(&self, backup: &NodeId) -> bool
        ensures { result ≡ same_node self.now.backup backup.now }
    {
        self.backup == *backup
    }

    pub(crate) fn reach(&self) -> Reach
        ensures long { result.long ≡ self.now.length }
        ensures round { result.round ≡ self.now.round }
    {
        Reach {
            long: self.long,
            round: self.round,
        }
    }

    pub(crate) fn set(&mut self, long: u64, round: u64)
        ensures { self.new ≡ record self.old { length = long; round = round } }
    {
        self.long = long;
        self.round = round;
    }

    // What is acknowledged never falls.
    pub(crate) fn raise(&mut self, more: &Acknowledged)
        ensures { self.new ≡ record self.old {
          length = max self.old.length more.now.length;
          round = max self.old.round more.now.round;
        } }
    {
        self.long = self.long.max(more.long);
        self.round = self.round.max(more.round);
    }
}

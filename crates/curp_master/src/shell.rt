use curp_cmd::NodeId;
use curp_rounds::Acknowledgements;
use std::alloc::Global;
use std::marker::Model;

/// All memory of a master that has no log yet. Contracts see which master it is, and its lists.
#[derive(Drop)]
pub struct Shell {
    pub(crate) alloc: Global,
    pub(crate) number: u32,
    pub(crate) part: u32,
    pub(crate) epoch: u32,
    pub(crate) version: u32,
    pub(crate) backups: Vec<NodeId>,
    pub(crate) witnesses: Vec<NodeId>,
    pub(crate) acknowledged: Acknowledgements,
}

impl Model for Shell {
    ghost use Rattle.std.specs.Prelude.{◌≡◌};
    ghost use Rattle.curp_rounds.specs.Backups.{all_at};
    ghost use Rattle.curp_master.specs.Shells as shells;

    ghost Value = { shells.Shell };

    ghost view = { λ s. record {
      number = s.number;
      part = s.part;
      epoch = s.epoch;
      version = s.version;
      backups = s.backups.items;
      witnesses = s.witnesses.items;
    } };

    ghost invariant = { λ s. s.acknowledged ≡ all_at s.backups.items 0 0 };
}

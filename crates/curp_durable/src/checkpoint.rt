use crate::stand::Stand;
use curp_msg::Core;
use std::marker::Model;

/// Where a node stood, and the place of its journal's last commit byte then. A journal that has the same bytes before that
/// place, whatever stands from there on, is opened from it (`Durable::open_from`).
#[derive(Drop)]
pub struct Checkpoint<N: Core> {
    pub(crate) stand: Stand<N>,
    pub(crate) commit: u64,
}

impl<N: Core> Model for Checkpoint<N> {
    ghost use Rattle.curp_durable.specs.Value.{CheckpointParts};

    ghost Value = { CheckpointParts N };

    ghost view = { λ c. record { stand = c.stand; commit = c.commit } };
}

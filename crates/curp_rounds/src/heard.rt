ghost use Rattle.std.specs.Prelude.{◌≡◌, ℕ, nat_le, ◌&&◌, fold, min};
ghost use Rattle.curp_model.specs.Master.{all_have, from_backup};
ghost use Rattle.curp_rounds.specs.Backups.{is_within, raised_by, stored_by_all};

use crate::acknowledged::Acknowledged;
use crate::acknowledgements::Acknowledgements;
use crate::reach::{Reach, least_reach};
use curp_cmd::NodeId;
use std::marker::Model;

/// What a master has heard of its backups: what they have acknowledged, perhaps with one acknowledgement more that isn't
/// kept yet. Contracts see what is acknowledged then.
#[derive(Drop)]
pub struct Heard<'a> {
    all: &'a Acknowledgements,
    more: Option<Acknowledged>,
}

impl<'a> Model for Heard<'a> {
    ghost use Rattle.std.specs.Prelude.{List};
    ghost use Rattle.curp_model.specs.Master.{Acknowledged};
    ghost use Rattle.curp_rounds.specs.Backups.{heard_with};

    ghost Value = { List Acknowledged };

    ghost view = { λ h. heard_with h.all.now h.more };
}

impl<'a> Heard<'a> {
    /// What is kept.
    pub fn so_far(all: &'a Acknowledgements) -> Heard<'a>
        ensures { result ≡ all.now }
    {
        Heard { all, more: None }
    }

    /// With one acknowledgement more.
    pub fn raised(all: &'a Acknowledgements, more: &Acknowledged) -> Heard<'a>
        ensures { result ≡ raised_by all.now more.now }
    {
        Heard {
            all,
            more: Some(more.copy()),
        }
    }

    /// Whether each of these backups has acknowledged at least that length and that round.
    pub fn all_have(&self, backups: &[NodeId], long: u64, round: u64) -> bool
        ensures { result ≡ all_have self.now backups.now long round }
    {
        backups.iter().all(|backup| self.has(backup, long, round))
    }

    /// The greatest length and the greatest round that each of these backups has acknowledged. There is none of no
    /// backups.
    pub fn reach_of_all(&self, backups: &[NodeId]) -> Option<Reach>
        ensures { (long round : ℕ) → all_have self.now backups.now long round ≡ is_within result long round }
    {
        let mut least = None;
        for backup in backups {
            least = Some(least_reach(least, self.reach_of(backup)));
        }
        least
    }

    /// The least length that a backup of the list has acknowledged.
    pub fn least_length(&self, backups: &[NodeId]) -> u64
        ensures { result ≡ stored_by_all self.now backups.now }
    {
        match backups {
            [] => 0,
            [first, others @ ..] => self.least_of(self.length_from(first), others),
        }
    }

    // The least of a length and those that backups have acknowledged.
    fn least_of(&self, length: u64, backups: &[NodeId]) -> u64
        ensures { result ≡ fold (λ least b. min least (from_backup self.now b).length) length backups.now }
    {
        backups.iter().fold(length, |least, backup| {
            least.min(self.length_from(backup))
        })
    }

    fn has(&self, backup: &NodeId, long: u64, round: u64) -> bool
        ensures { result ≡ (nat_le long (from_backup self.now backup.now).length
            && nat_le round (from_backup self.now backup.now).round) }
    {
        let reach = self.reach_of(backup);
        long <= reach.long && round <= reach.round
    }

    fn length_from(&self, backup: &NodeId) -> u64
        ensures { result ≡ (from_backup self.now backup.now).length }
    {
        self.reach_of(backup).long
    }

    // What a backup has acknowledged, at first nothing.
    fn reach_of(&self, backup: &NodeId) -> Reach
        ensures long { result.long ≡ (from_backup self.now backup.now).length }
        ensures round { result.round ≡ (from_backup self.now backup.now).round }
    {
        let kept = self.all.reach_of(backup);
        let Some(more) = &self.more else {
            return kept;
        };
        if more.is_from(backup) {
            kept.max(more.reach())
        } else {
            kept
        }
    }
}

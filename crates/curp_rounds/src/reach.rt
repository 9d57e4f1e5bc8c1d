ghost use Rattle.std.specs.Prelude.{◌≡◌, ℕ, ◌&&◌, max, Some};
ghost use Rattle.curp_rounds.specs.Backups.{is_within};

/// A length of the log and a round.
#[derive(Clone, Copy)]
pub struct Reach {
    pub long: u64,
    pub round: u64,
}

impl Reach {
    /// The greater length and the greater round.
    pub(crate) fn max(self, other: Reach) -> Reach
        ensures long { result.long ≡ max self.long other.long }
        ensures round { result.round ≡ max self.round other.round }
    {
        Reach {
            long: self.long.max(other.long),
            round: self.round.max(other.round),
        }
    }
}

/// The least of what some backups have acknowledged, if there are any, and of what one more has.
pub(crate) fn least_reach(least: Option<Reach>, other: Reach) -> Reach
    ensures { (long round : ℕ) → is_within (Some result) long round
        ≡ (is_within least long round && is_within (Some other) long round) }
{
    match least {
        None => other,
        Some(reach) => Reach {
            long: reach.long.min(other.long),
            round: reach.round.min(other.round),
        },
    }
}

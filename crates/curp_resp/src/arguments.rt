ghost use Rattle.std.specs.Prelude.{◌≡◌, ◌∷◌, ◌<◌, length, map, take};
ghost use Rattle.curp_resp.specs.Kept.{kept_byte, kept_by, kept_end, nothing_kept};

use crate::argument::Argument;
use crate::frame::Effect;
use std::marker::Model;

/// How many arguments are kept: those of the longest command.
const MOST_KEPT: usize = 9;

/// What is kept of the arguments of a request: the first nine, by their first bytes.
#[derive(Drop)]
pub(crate) struct Arguments {
    whole: [Argument; MOST_KEPT],
    len: usize,
    // How many are whole, those counted that aren't kept.
    count: u64,
    // The one in work.
    present: Argument,
}

impl Model for Arguments {
    ghost use Rattle.std.specs.Prelude.{◌≤◌, take};
    ghost use Rattle.curp_resp.specs.Kept.{KeptArguments};

    ghost Value = { KeptArguments };

    ghost view = { λ a. record { whole = take a.len a.whole; count = a.count; present = a.present } };

    ghost invariant = { λ a. a.len ≤ 9 };
}

impl Arguments {
    pub(crate) fn none() -> Arguments
        ensures { result ≡ nothing_kept }
    {
        Arguments {
            whole: [Argument::empty(); MOST_KEPT],
            len: 0,
            count: 0,
            present: Argument::empty(),
        }
    }

    pub(crate) fn apply(&mut self, effect: Effect, byte: u8)
        ensures { self.new ≡ kept_by effect byte self.old }
    {
        match effect {
            Effect::Nothing => {}
            Effect::Begin => self.present = Argument::empty(),
            Effect::Keep => self.present.push(byte),
            Effect::End => self.end(),
        }
    }

    /// The argument in work is whole.
    fn end(&mut self)
        ensures { self.new ≡ kept_end self.old }
    {
        if self.len < MOST_KEPT {
            self.whole[self.len] = self.present;
            self.len += 1;
        }
        self.count = self.count.saturating_add(1);
    }

    /// The whole arguments that are kept.
    pub(crate) fn whole(&self) -> &[Argument]
        ensures { result.now ≡ self.now.whole }
    {
        &self.whole[..self.len]
    }

    /// How many arguments are whole.
    pub(crate) fn count(&self) -> u64
        ensures { result ≡ self.now.count }
    {
        self.count
    }
}

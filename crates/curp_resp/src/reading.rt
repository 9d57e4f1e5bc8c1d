ghost use Rattle.std.specs.Prelude.{◌≡◌};
ghost use Rattle.curp_resp.specs.Frames.{fresh_frame, frame_step, is_fresh};
ghost use Rattle.curp_resp.specs.Kept.{nothing_kept};
ghost use Rattle.curp_resp.specs.KeptMeaning.{meaning_of_kept};
ghost use Rattle.curp_resp.specs.Feeds.{TakesByte};

use crate::arguments::Arguments;
use crate::asked::Asked;
use crate::command::meaning_of;
use crate::frame::{Frame, Step};

/// A request of which a prefix was read.
#[derive(Drop)]
pub(crate) struct Reading {
    frame: Frame,
    arguments: Arguments,
}

/// What bytes come to.
#[derive(Clone, Copy)]
pub(crate) enum Progress {
    /// More bytes are to come.
    More,
    /// The request is whole.
    Whole,
    /// The next byte can't follow.
    Refused,
}

impl Reading {
    pub(crate) fn new() -> Reading
        ensures { result ≡ record { frame = fresh_frame; arguments = nothing_kept } }
    {
        Reading {
            frame: Frame::fresh(),
            arguments: Arguments::none(),
        }
    }

    /// Reads the next byte.
    pub(crate) fn take(&mut self, byte: u8) -> Progress
        ensures { TakesByte (frame_step self.old.frame byte) byte self.old.arguments result self.new }
    {
        match self.frame.step(byte) {
            Step::On(frame, effect) => {
                self.frame = frame;
                self.arguments.apply(effect, byte);
                Progress::More
            }
            Step::Whole(effect) => {
                self.arguments.apply(effect, byte);
                Progress::Whole
            }
            Step::Refused => Progress::Refused,
        }
    }

    /// Whether no byte of it was read.
    pub(crate) fn is_fresh(&self) -> bool
        ensures { result ≡ is_fresh self.now.frame }
    {
        self.frame.is_fresh()
    }

    /// What it means, where it is whole.
    pub(crate) fn meaning(&self) -> Asked
        ensures { result ≡ meaning_of_kept self.now.arguments }
    {
        meaning_of(&self.arguments)
    }
}

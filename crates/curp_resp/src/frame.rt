ghost use Rattle.std.specs.Prelude.{◌≡◌};
ghost use Rattle.curp_resp.specs.Frames.{after_byte, argument_step, count_step, first_step, frame_step, fresh_frame};
ghost use Rattle.curp_resp.specs.Frames.{is_fresh, length_step, size_step};

use crate::number::{Digits, NumberStep};

/// How many arguments a request may have.
const MOST_ARGUMENTS: u32 = 64;

/// How many bytes an argument may have.
const MOST_SIZE: u32 = 65_536;

/// What is read next of a request.
#[derive(Clone, Copy)]
pub(crate) enum Stage {
    /// The star in front, or an empty line.
    Star,
    /// The number of arguments, of which these digits were read.
    Count(Digits),
    /// The line feed behind it.
    CountFeed,
    /// The dollar in front of an argument.
    Dollar,
    /// The number of an argument's bytes, of which these digits were read.
    Size(Digits),
    /// The line feed behind it, where the number is this.
    SizeFeed(u32),
    /// The bytes of an argument, so many, and the carriage return behind them.
    Bytes(u32),
    /// The line feed behind that.
    BytesFeed,
    /// The `1` behind the minus sign of an array that is none.
    NullDigit,
    /// The carriage return behind it.
    NullEnd,
    /// The line feed that ends a request of no arguments.
    EmptyFeed,
}

/// Where the reading of a request stands.
#[derive(Clone, Copy)]
pub(crate) struct Frame {
    stage: Stage,
    /// How many arguments are to come behind the one in work. It counts once their number was read.
    behind: u32,
}

/// What the next byte does to the arguments.
#[derive(Clone, Copy)]
pub(crate) enum Effect {
    Nothing,
    /// An argument begins behind it.
    Begin,
    /// It is one of the argument in work.
    Keep,
    /// The argument in work is whole.
    End,
}

/// What the next byte does.
#[derive(Clone, Copy)]
pub(crate) enum Step {
    On(Frame, Effect),
    /// The request is whole, and so its last argument, if it has any.
    Whole(Effect),
    /// No request goes on so.
    Refused,
}

impl Frame {
    pub(crate) fn fresh() -> Frame
        ensures { result ≡ fresh_frame }
    {
        Frame {
            stage: Stage::Star,
            behind: 0,
        }
    }

    /// Whether no byte of the request was read.
    pub(crate) fn is_fresh(self) -> bool
        ensures { result ≡ is_fresh self }
    {
        matches!(self.stage, Stage::Star)
    }

    /// What the next byte does.
    pub(crate) fn step(self, byte: u8) -> Step
        ensures { result ≡ frame_step self byte }
    {
        match self.stage {
            Stage::Star => self.first_step(byte),
            Stage::Count(digits) => self.length_step(digits, byte),
            Stage::CountFeed => self.after(byte, b'\n', Stage::Dollar, Effect::Nothing),
            Stage::Dollar => self.after(byte, b'$', Stage::Size(Digits::none()), Effect::Nothing),
            Stage::Size(digits) => self.size_step(digits.step(MOST_SIZE, byte)),
            Stage::SizeFeed(size) => self.after(byte, b'\n', Stage::Bytes(size), Effect::Begin),
            Stage::Bytes(0) => self.after(byte, b'\r', Stage::BytesFeed, Effect::Nothing),
            Stage::Bytes(left) => Step::On(self.at(Stage::Bytes(left - 1)), Effect::Keep),
            Stage::BytesFeed if byte == b'\n' => self.argument_step(),
            Stage::BytesFeed => Step::Refused,
            Stage::NullDigit => self.after(byte, b'1', Stage::NullEnd, Effect::Nothing),
            Stage::NullEnd => self.after(byte, b'\r', Stage::EmptyFeed, Effect::Nothing),
            Stage::EmptyFeed if byte == b'\n' => Step::Whole(Effect::Nothing),
            Stage::EmptyFeed => Step::Refused,
        }
    }

    /// The first byte of a request.
    fn first_step(self, byte: u8) -> Step
        ensures { result ≡ first_step self.behind byte }
    {
        match byte {
            b'\n' => Step::Whole(Effect::Nothing),
            b'\r' => Step::On(self.at(Stage::EmptyFeed), Effect::Nothing),
            _ => self.after(byte, b'*', Stage::Count(Digits::none()), Effect::Nothing),
        }
    }

    /// A byte of the number of arguments.
    fn length_step(self, digits: Digits, byte: u8) -> Step
        ensures { result ≡ length_step digits self.behind byte }
    {
        if byte == b'-' && digits.is_none() {
            Step::On(self.at(Stage::NullDigit), Effect::Nothing)
        } else {
            Frame::count_step(digits.step(MOST_ARGUMENTS, byte))
        }
    }

    fn at(self, stage: Stage) -> Frame
        ensures { result ≡ record self { stage = stage } }
    {
        Frame { stage, ..self }
    }

    /// The next byte has to be this one.
    fn after(self, byte: u8, wanted: u8, stage: Stage, effect: Effect) -> Step
        ensures { result ≡ after_byte wanted stage effect self.behind byte }
    {
        if byte == wanted {
            Step::On(self.at(stage), effect)
        } else {
            Step::Refused
        }
    }

    fn count_step(step: NumberStep) -> Step
        ensures { result ≡ count_step step }
    {
        match step {
            NumberStep::More(digits) => Step::On(
                Frame {
                    stage: Stage::Count(digits),
                    behind: 0,
                },
                Effect::Nothing,
            ),
            NumberStep::Ends(0) => Step::On(
                Frame {
                    stage: Stage::EmptyFeed,
                    behind: 0,
                },
                Effect::Nothing,
            ),
            NumberStep::Ends(count) => Step::On(
                Frame {
                    stage: Stage::CountFeed,
                    behind: count - 1,
                },
                Effect::Nothing,
            ),
            NumberStep::Refused => Step::Refused,
        }
    }

    fn size_step(self, step: NumberStep) -> Step
        ensures { result ≡ size_step self.behind step }
    {
        match step {
            NumberStep::More(digits) => Step::On(self.at(Stage::Size(digits)), Effect::Nothing),
            NumberStep::Ends(size) => Step::On(self.at(Stage::SizeFeed(size)), Effect::Nothing),
            NumberStep::Refused => Step::Refused,
        }
    }

    /// An argument is whole.
    fn argument_step(self) -> Step
        ensures { result ≡ argument_step self.behind }
    {
        match self.behind {
            0 => Step::Whole(Effect::End),
            behind => Step::On(
                Frame {
                    stage: Stage::Dollar,
                    behind: behind - 1,
                },
                Effect::End,
            ),
        }
    }
}

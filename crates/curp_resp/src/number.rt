ghost use Rattle.std.specs.Prelude.{◌≡◌, ◌<◌, ◌==◌};
ghost use Rattle.curp_resp.specs.Frames.{digit_step, may_end, no_digits, number_step};

/// The digits of a number that were read.
#[derive(Clone, Copy)]
pub(crate) struct Digits {
    value: u32,
    count: u32,
}

/// What the next byte does to a number.
#[derive(Clone, Copy)]
pub(crate) enum NumberStep {
    /// A number may begin with these digits.
    More(Digits),
    /// The number is whole.
    Ends(u32),
    /// No number goes on so.
    Refused,
}

/// How many digits a number has at most.
const MOST_DIGITS: u32 = 5;

impl Digits {
    pub(crate) fn none() -> Digits
        ensures { result ≡ no_digits }
    {
        Digits { value: 0, count: 0 }
    }

    /// Whether none was read.
    pub(crate) fn is_none(self) -> bool
        ensures { result ≡ (self.count == 0) }
    {
        self.count == 0
    }

    /// What the next byte does to a number up to this one.
    pub(crate) fn step(self, most: u32, byte: u8) -> NumberStep
        ensures { result ≡ number_step most self byte }
    {
        match byte {
            b'0'..=b'9' => self.digit_step(most, byte - b'0'),
            b'\r' if self.may_end(most) => NumberStep::Ends(self.value),
            _ => NumberStep::Refused,
        }
    }

    /// The same, where the byte is a digit of this value.
    fn digit_step(self, most: u32, digit: u8) -> NumberStep
        requires { digit < 10 }
        ensures { result ≡ digit_step most self digit }
    {
        let value = 10 * u64::from(self.value) + u64::from(digit);
        if self.count >= MOST_DIGITS || value > u64::from(most) {
            return NumberStep::Refused;
        }
        NumberStep::More(Digits {
            value: value as u32,
            count: self.count + 1,
        })
    }

    /// Whether a number up to this one has these digits.
    fn may_end(self, most: u32) -> bool
        ensures { result ≡ may_end most self }
    {
        self.count >= 1 && self.value <= most
    }
}

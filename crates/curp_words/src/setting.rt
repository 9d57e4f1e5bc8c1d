ghost use Rattle.std.specs.Prelude.{◌≡◌, ◌<◌, ◌^◌, ◌&&◌, false, nat_le};
ghost use Rattle.std.specs.Char.{is_ascii_digit};
ghost use Rattle.std.specs.List.{list_all};
ghost use Rattle.clap.specs.Matches.{first_value, found_of};
ghost use Rattle.clap.specs.Walk.{rule_of};
ghost use Rattle.curp_words.specs.Command.{valued_rule};
ghost use Rattle.curp_words.specs.Numbers.{number_of, number_within};

use clap::{Arg, ArgAction, ArgMatches};
use std::alloc::Global;

/// An option whose value is a number: the range of that number, both ends with it, and the number where the option
/// isn't given.
#[derive(Clone, Copy)]
pub(crate) struct Setting {
    pub name: &'static str,
    pub least: u64,
    pub most: u64,
    pub default: u64,
}

impl Setting {
    /// The option, for a parser of words.
    pub fn arg<'a>(&self, alloc: Global) -> Arg<'a>
        ensures rule { rule_of result ≡ valued_rule self.now.name.now }
        ensures local { result.global ≡ false }
    {
        Arg::new(alloc, self.name)
            .long(self.name)
            .action(ArgAction::Set)
    }

    /// The number that the words give, if what they give is one and in range.
    pub fn read(self, matches: &ArgMatches<'_>) -> Option<u64>
        ensures { result ≡ number_within self.least self.most self.default
            (first_value (found_of matches.now) self.name.now) }
    {
        match matches.get_str(self.name) {
            Some(text) => number_of(text).filter(|number| self.has(*number)),
            None => Some(self.default),
        }
    }

    /// The same, of an option whose numbers are all below 2^32.
    pub fn read_small(self, matches: &ArgMatches<'_>) -> Option<u32>
        ensures { self.most < 2 ^ 32 → self.default < 2 ^ 32
            → result ≡ number_within self.least self.most self.default
            (first_value (found_of matches.now) self.name.now) }
    {
        u32::try_from(self.read(matches)?).ok()
    }

    fn has(&self, number: u64) -> bool
        ensures { result ≡ (nat_le self.now.least number && nat_le number self.now.most) }
    {
        (self.least..=self.most).contains(&number)
    }
}

/// The number that one to twenty decimal digits are.
fn number_of(text: &str) -> Option<u64>
    ensures { result ≡ number_of text.now }
{
    if text.len() > 20 || !are_digits(text.as_bytes()) {
        return None;
    }
    text.parse().ok()
}

fn are_digits(bytes: &[u8]) -> bool
    ensures { result ≡ list_all is_ascii_digit bytes.now }
{
    bytes.iter().all(|byte| byte.is_ascii_digit())
}

//! What is wrong with words that are no command line, as a value that prints.
ghost use Rattle.std.specs.Prelude.{◌≡◌, IfOk, false};
ghost use Rattle.std.specs.Fmt.{WritesOnOk};
ghost use Rattle.clap.specs.Walk.{texts};
ghost use Rattle.curp_words.specs.Arguments.{words_of};
ghost use Rattle.curp_words.specs.Help.{asks_for_help};
ghost use Rattle.curp_words.specs.WrongWords.{Blames, options_text, shown_text};

use crate::arguments::words_in;
use crate::blame::blamed;
use crate::help::{asks_for_help, write_page};
use curp_base::NoMemory;
use std::alloc::Global;
use std::fmt;

// What a newcomer can write behind `curp make`.
const OPTIONS: &str =
    "make takes --number, --f, --sets, --ways, --clients, --parts, --protocol, --steps and \
    --recoveries, each with a number, and --summary; live takes the same but --steps and \
    --summary, and --commands with a number; play takes --history; check and manage take none; \
    resp takes --f and --every, each with a number, and --script";

/// What is wrong with words that are no command line. It prints as a line.
#[derive(Clone, Copy)]
pub enum Blame<'a> {
    /// The words ask what the program can do.
    Help,
    /// The first word with which no command line can begin.
    Word(&'a str),
    /// A command line could go on behind all of the words.
    End,
    /// Nothing was looked for, and it prints as nothing.
    Unknown,
}

/// What is wrong with the words behind the program's name, where they are no command line.
pub fn blame_of(alloc: Global, arguments: &[String]) -> Result<Blame<'_>, NoMemory>
    ensures { IfOk result (Blames (words_of arguments.now)) }
{
    match words_in(alloc, arguments) {
        Ok(words) => blame_of_words(alloc, &words),
        Err(error) => Err(error),
    }
}

fn blame_of_words<'a>(alloc: Global, words: &[&'a str]) -> Result<Blame<'a>, NoMemory>
    ensures { IfOk result (Blames (texts words.now)) }
{
    if asks_for_help(words) {
        return Ok(Blame::Help);
    }
    first_blamed(alloc, words)
}

// Of words that don't ask for help.
fn first_blamed<'a>(alloc: Global, words: &[&'a str]) -> Result<Blame<'a>, NoMemory>
    requires { asks_for_help (texts words.now) ≡ false }
    ensures { IfOk result (Blames (texts words.now)) }
{
    match blamed(alloc, words) {
        Ok(Some(place)) => Ok(Blame::Word(words[place])),
        Ok(None) => Ok(Blame::End),
        Err(error) => Err(error),
    }
}

impl fmt::Display for Blame<'_> {
    ghost use Rattle.std.specs.Prelude.{Some};
    ghost use Rattle.curp_words.specs.WrongWords.{blame_text};

    ghost output = { λ blame. Some (blame_text blame) };

    fn fmt<W: fmt::Write>(&self, f: &mut fmt::Formatter<W>) -> fmt::Result {
        match self {
            Blame::Help => write_page(f),
            Blame::Word(word) => writeln!(f, "curp: this can't stand there: {}", Shown(word)),
            Blame::End => writeln!(f, "curp: something is missing at the end"),
            Blame::Unknown => f.write_str(""),
        }
    }
}

// A word as it is shown: a terminal would obey its control characters.
#[derive(Clone, Copy)]
struct Shown<'a>(&'a str);

impl fmt::Display for Shown<'_> {
    ghost use Rattle.std.specs.Prelude.{Some};
    ghost use Rattle.curp_words.specs.WrongWords.{shown_text};

    ghost output = { λ shown. Some (shown_text shown.0.now) };

    fn fmt<W: fmt::Write>(&self, f: &mut fmt::Formatter<W>) -> fmt::Result {
        write_shown(f, self.0)
    }
}

fn write_shown<W: fmt::Write>(f: &mut fmt::Formatter<W>, text: &str) -> fmt::Result
    ensures { WritesOnOk W.write_str_gives f.old result (shown_text text.now) f.new }
{
    for c in text.chars() {
        write!(f, "{}", ShownChar(c))?;
    }
    Ok(())
}

#[derive(Clone, Copy)]
struct ShownChar(char);

impl fmt::Display for ShownChar {
    ghost use Rattle.std.specs.Prelude.{Some};
    ghost use Rattle.curp_words.specs.WrongWords.{shown_char};

    ghost output = { λ shown. Some (shown_char shown.0) };

    fn fmt<W: fmt::Write>(&self, f: &mut fmt::Formatter<W>) -> fmt::Result {
        let ShownChar(c) = *self;
        if c.is_control() {
            write!(f, "\\u{{{:x}}}", u32::from(c))
        } else {
            write!(f, "{c}")
        }
    }
}

/// Writes the line on the options that there are.
#[tactic(auto, unfolding(crate::specs::WrongWords::options_text))]
pub fn write_options<W: fmt::Write>(f: &mut fmt::Formatter<W>) -> fmt::Result
    ensures { WritesOnOk W.write_str_gives f.old result options_text f.new }
{
    writeln!(f, "curp: {OPTIONS}")
}

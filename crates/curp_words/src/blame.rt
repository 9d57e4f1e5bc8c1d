ghost use Rattle.std.specs.Prelude.{◌≡◌, ◌++◌, IfOk, is_some};
ghost use Rattle.clap.specs.Walk.{texts};
ghost use Rattle.curp_words.specs.Blame.{IsBlamed, is_beginning, is_line_with, value_endings, word_endings};
ghost use Rattle.curp_words.specs.Words.{task_in};

use crate::task::Usage;
use crate::words::read;
use curp_base::{Failed, NoMemory};
use std::alloc::{AllocError, Global};

/// The place of the word that it is about where words are no command line, counted from 0: the first with which no
/// command line can begin. Without one something is missing at the end.
pub(crate) fn blamed(alloc: Global, words: &[&str]) -> Result<Option<usize>, NoMemory>
    ensures { IfOk result (IsBlamed (texts words.now)) }
{
    for place in 0..words.len() {
        if !is_beginning(alloc, &words[..=place])? {
            return Ok(Some(place));
        }
    }
    Ok(None)
}

// Whether a command line can begin with the words.
#[tactic(auto, unfolding(crate::specs::Blame::is_beginning))]
fn is_beginning(alloc: Global, words: &[&str]) -> Result<bool, NoMemory>
    ensures { IfOk result (λ so. so ≡ is_beginning (texts words.now)) }
{
    Ok(lacks_no_value(alloc, words)? || lacks_value(alloc, words)?)
}

// Whether it does with no option at the words' end that waits for its value.
fn lacks_no_value(alloc: Global, words: &[&str]) -> Result<bool, NoMemory>
    ensures { IfOk result (λ so. so ≡ is_line_with word_endings (texts words.now)) }
{
    Ok(
        is_line(alloc, words, &[])?
            || is_line(alloc, words, &["play"])?
            || is_line(alloc, words, &["make"])?
            || is_line(alloc, words, &["live"])?
            || is_line(alloc, words, &["resp"])?,
    )
}

// Whether it does with an option there that waits.
fn lacks_value(alloc: Global, words: &[&str]) -> Result<bool, NoMemory>
    ensures { IfOk result (λ so. so ≡ is_line_with value_endings (texts words.now)) }
{
    Ok(
        is_line(alloc, words, &["1"])?
            || is_line(alloc, words, &["1", "make"])?
            || is_line(alloc, words, &["1", "live"])?
            || is_line(alloc, words, &["1", "resp"])?,
    )
}

// Whether the words are a command line with these behind them.
fn is_line(alloc: Global, words: &[&str], ending: &[&str]) -> Result<bool, NoMemory>
    ensures { IfOk result (λ so. so ≡ is_some (task_in (texts words.now ++ texts ending.now))) }
{
    let mut line = Vec::new(alloc);
    line.extend_from_slice(words)?;
    line.extend_from_slice(ending)?;
    match read(alloc, &line) {
        Ok(_) => Ok(true),
        Err(Failed::Because(Usage)) => Ok(false),
        Err(Failed::NoMemory) => Err(AllocError),
    }
}

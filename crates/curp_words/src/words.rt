ghost use Rattle.std.specs.Prelude.{◌≡◌, ◌≢◌, ◌⊎◌, IfErr, IfOk, Err, None, Some, true};
ghost use Rattle.std.specs.List.{list_all};
ghost use Rattle.std.specs.Option.{option_or};
ghost use Rattle.clap.specs.Faults.{is_simple_and_free};
ghost use Rattle.clap.specs.Simple.{app_of};
ghost use Rattle.clap.specs.Values.{kind_of};
ghost use Rattle.clap.specs.Walk.{texts};
ghost use Rattle.curp_words.specs.Command.{IsRefused, ParserTakes};
ghost use Rattle.curp_words.specs.Plan.{fits};
ghost use Rattle.curp_words.specs.Words.{is_well_formed, live_in, make_in, one_word, task_in, plain_in, refusal, resp_in, two_words};

use crate::live::{live_command, live_task};
use crate::make::{make_command, make_task};
use crate::resp::{resp_command, resp_task};
use crate::task::{Report, Task, Usage};
use clap::{ArgMatches, Command};
use curp_base::Failed;
use std::alloc::Global;

/// What the words behind the program's name ask for: `check` or `manage`, or `play`, `make`, `live` or `resp` with its
/// options, which stand before the word or behind it, in any order and each at most once. An option has its value
/// behind `=` or as the next word. The value is a number of one to twenty decimal digits. Only `--summary`, `--history`
/// and `--script` have no value.
///
/// Running out of memory may come for any words.
pub fn read(alloc: Global, words: &[&str]) -> Result<Task, Failed<Usage>>
    ensures task { IfOk result (λ task. task_in (texts words.now) ≡ Some task) }
    ensures usage { result ≡ Err (Failed.Because (record {})) → task_in (texts words.now) ≡ None }
    ensures no_task { task_in (texts words.now) ≡ None
        → (result ≡ Err (Failed.Because (record {}))) ⊎ (result ≡ Err Failed.NoMemory) }
    ensures in_range { IfOk result fits }
{
    if let Some(task) = plain_task(words) {
        return Ok(task);
    }
    match read_make(alloc, words) {
        Err(Failed::Because(Usage)) => read_other(alloc, words),
        made => made,
    }
}

// The same, of words that are none of `make`.
fn read_other(alloc: Global, words: &[&str]) -> Result<Task, Failed<Usage>>
    ensures task { IfOk result (λ task. option_or (live_in (texts words.now)) (resp_in (texts words.now)) ≡ Some task) }
    ensures err { IfErr result (λ error. error ≢ Failed.NoMemory
        → option_or (live_in (texts words.now)) (resp_in (texts words.now)) ≡ None) }
    ensures in_range { IfOk result fits }
{
    match read_live(alloc, words) {
        Err(Failed::Because(Usage)) => read_resp(alloc, words),
        lived => lived,
    }
}

// What words ask for that the parser doesn't see.
fn plain_task(words: &[&str]) -> Option<Task>
    ensures { result ≡ plain_in (texts words.now) }
{
    match words {
        [word] => one_word(word),
        [word, next] => two_words(word, next),
        _ => None,
    }
}

fn one_word(word: &str) -> Option<Task>
    ensures { result ≡ one_word word.now }
{
    match word {
        "play" => Some(Task::Play(Report::Steps)),
        "check" => Some(Task::Check),
        "manage" => Some(Task::Manage),
        _ => None,
    }
}

// `play` with its one option, before it or behind it.
fn two_words(word: &str, next: &str) -> Option<Task>
    ensures { result ≡ two_words word.now next.now }
{
    let is_option_behind = word == "play" && next == "--history";
    let is_option_before = word == "--history" && next == "play";
    (is_option_behind || is_option_before).then_some(Task::Play(Report::History))
}

// The same, of `make` alone.
fn read_make(alloc: Global, words: &[&str]) -> Result<Task, Failed<Usage>>
    ensures task { IfOk result (λ task. make_in (texts words.now) ≡ Some task) }
    ensures err { IfErr result (λ error. error ≢ Failed.NoMemory → make_in (texts words.now) ≡ None) }
{
    let matches = parsed(make_command(alloc)?, words)?;
    make_task(&matches).ok_or(Failed::Because(Usage))
}

// The same, of `live` alone.
fn read_live(alloc: Global, words: &[&str]) -> Result<Task, Failed<Usage>>
    ensures task { IfOk result (λ task. live_in (texts words.now) ≡ Some task) }
    ensures err { IfErr result (λ error. error ≢ Failed.NoMemory → live_in (texts words.now) ≡ None) }
{
    let matches = parsed(live_command(alloc)?, words)?;
    live_task(&matches).ok_or(Failed::Because(Usage))
}

// The same, of `resp` alone.
fn read_resp(alloc: Global, words: &[&str]) -> Result<Task, Failed<Usage>>
    ensures task { IfOk result (λ task. resp_in (texts words.now) ≡ Some task) }
    ensures err { IfErr result (λ error. error ≢ Failed.NoMemory → resp_in (texts words.now) ≡ None) }
{
    let matches = parsed(resp_command(alloc)?, words)?;
    resp_task(&matches).ok_or(Failed::Because(Usage))
}

// What the parser takes, of words that are well formed.
fn parsed<'a>(command: Command<'a>, words: &'a [&'a str]) -> Result<ArgMatches<'a>, Failed<Usage>>
    ensures ok { is_simple_and_free (app_of command.entry) ≡ true
        → IfOk result (ParserTakes (app_of command.entry) (texts words.now)) }
    ensures err { is_simple_and_free (app_of command.entry) ≡ true
        → IfErr result (λ error. error ≢ Failed.NoMemory → IsRefused (app_of command.entry) (texts words.now)) }
{
    if !are_well_formed(words) {
        return Err(Failed::Because(Usage));
    }
    match command.try_get_matches_from(words) {
        Ok(matches) => Ok(matches),
        Err(error) => Err(refusal(&error)),
    }
}

// Why the parser takes no matches of words: of its errors only one is about memory.
fn refusal(error: &clap::Error) -> Failed<Usage>
    ensures { result ≡ refusal (kind_of error.now) }
{
    match error.kind() {
        clap::error::ErrorKind::OutOfMemory => Failed::NoMemory,
        _ => Failed::Because(Usage),
    }
}

fn are_well_formed(words: &[&str]) -> bool
    ensures { result ≡ list_all is_well_formed (texts words.now) }
{
    words.iter().all(|word| is_well_formed(word))
}

/// A word that may be an option has two hyphens and more behind them; any other begins with no hyphen.
fn is_well_formed(word: &str) -> bool
    ensures { result ≡ is_well_formed word.now }
{
    match word.as_bytes() {
        [b'-', b'-', _, ..] => true,
        [b'-', ..] => false,
        _ => true,
    }
}

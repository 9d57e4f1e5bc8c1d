ghost use Rattle.std.specs.Prelude.{◌≡◌, ◌≤◌, length, if◌then◌else◌, Ok, Err};
ghost use Rattle.curp_cmd.specs.Pairs.{names_twice};
ghost use Rattle.curp_resp.specs.KeptMeaning.{asked_of_kept, meaning_of_kept, two_pairs_alone};
ghost use Rattle.curp_resp.specs.Meaning.{asked_by, key_alone, key_of_increment, multi_alone, pair_alone, swap_alone, text_alone};

use crate::argument::{Argument, pair_of};
use crate::arguments::Arguments;
use crate::asked::{Asked, Other, Wrong};
use crate::word::Word;
use curp_cmd::{Command, Key, MultiError, Value};

/// What a request with these arguments means.
pub(crate) fn meaning_of(arguments: &Arguments) -> Asked
    ensures { result ≡ meaning_of_kept arguments.now }
{
    match asked_of(arguments) {
        Ok(asked) => asked,
        Err(wrong) => Asked::Other(Other::Wrong(wrong)),
    }
}

fn asked_of(arguments: &Arguments) -> Result<Asked, Wrong>
    ensures { result ≡ asked_of_kept arguments.now.whole arguments.now.count }
{
    let whole = arguments.whole();
    let Some((first, others)) = whole.split_first() else {
        return Ok(Asked::Other(Other::Nothing));
    };
    let Some(word) = Word::of(first.bytes()) else {
        return Err(Wrong::Unknown);
    };
    if (whole.len() as u64) < arguments.count() {
        return Err(Wrong::Arguments);
    }
    asked_by(word, others)
}

/// What a word asks with these arguments.
fn asked_by(word: Word, arguments: &[Argument]) -> Result<Asked, Wrong>
    ensures { result ≡ asked_by word arguments.now }
{
    let command = match word {
        Word::Get => Command::Get(key_alone(arguments)?),
        Word::Del => Command::Delete(key_alone(arguments)?),
        Word::Incr => Command::Incr(key_alone(arguments)?),
        Word::IncrBy => Command::Incr(key_of_increment(arguments)?),
        Word::Set => {
            let (key, value) = pair_alone(arguments)?;
            Command::Put(key, value)
        }
        Word::Append => {
            let (key, more) = pair_alone(arguments)?;
            Command::Append(key, more)
        }
        Word::CondNew | Word::SetNx => {
            let (key, value) = pair_alone(arguments)?;
            Command::CondPut(key, None, value)
        }
        Word::CondPut => swap_alone(arguments)?,
        Word::MSet => multi_alone(arguments)?,
        Word::Echo => return Ok(Asked::Other(Other::Echo(text_alone(arguments)?))),
    };
    Ok(Asked::Command(command))
}

fn key_alone(arguments: &[Argument]) -> Result<Key, Wrong>
    ensures { result ≡ key_alone arguments.now }
{
    match arguments {
        [key] => key.key(),
        _ => Err(Wrong::Arguments),
    }
}

/// A key, and what its counter is to grow by, which is 1.
fn key_of_increment(arguments: &[Argument]) -> Result<Key, Wrong>
    ensures { result ≡ key_of_increment arguments.now }
{
    match arguments {
        [key, increment] => {
            let key = key.key()?;
            increment.one()?;
            Ok(key)
        }
        _ => Err(Wrong::Arguments),
    }
}

fn pair_alone(arguments: &[Argument]) -> Result<(Key, Value), Wrong>
    ensures { result ≡ pair_alone arguments.now }
{
    match arguments {
        [key, value] => pair_of(key, value),
        _ => Err(Wrong::Arguments),
    }
}

fn text_alone(arguments: &[Argument]) -> Result<Value, Wrong>
    ensures { result ≡ text_alone arguments.now }
{
    match arguments {
        [text] => text.value(),
        _ => Err(Wrong::Arguments),
    }
}

fn swap_alone(arguments: &[Argument]) -> Result<Command, Wrong>
    ensures { result ≡ swap_alone arguments.now }
{
    match arguments {
        [key, expected, value] => {
            let (key, value) = pair_of(key, value)?;
            Ok(Command::CondPut(key, Some(expected.value()?), value))
        }
        _ => Err(Wrong::Arguments),
    }
}

fn multi_alone(arguments: &[Argument]) -> Result<Command, Wrong>
    ensures { result ≡ multi_alone arguments.now }
{
    match arguments {
        [_, _] => multi_of(&[pair_alone(arguments)?]),
        [_, _, _, _] => {
            let (first, second) = two_pairs_alone(arguments)?;
            multi_of(&[first, second])
        }
        [_, _, _, _, key, value] => {
            let (first, second) = two_pairs_alone(&arguments[..4])?;
            multi_of(&[first, second, pair_of(key, value)?])
        }
        [_, _, _, _, _, _, _, _] => {
            let (first, second) = two_pairs_alone(&arguments[..4])?;
            let (third, fourth) = two_pairs_alone(&arguments[4..])?;
            multi_of(&[first, second, third, fourth])
        }
        _ => Err(Wrong::Arguments),
    }
}

/// Two pairs of a key and its value.
fn two_pairs_alone(arguments: &[Argument]) -> Result<((Key, Value), (Key, Value)), Wrong>
    ensures { result ≡ two_pairs_alone arguments.now }
{
    match arguments {
        [key, value, other_key, other_value] => {
            let first = pair_of(key, value)?;
            Ok((first, pair_of(other_key, other_value)?))
        }
        _ => Err(Wrong::Arguments),
    }
}

/// A multi-put of these pairs.
fn multi_of(pairs: &[(Key, Value)]) -> Result<Command, Wrong>
    requires some { 1 ≤ length pairs.now }
    requires few { length pairs.now ≤ 4 }
    ensures { result ≡ (if names_twice pairs.now then Err Wrong.KeyTwice else Ok (Command.Multi pairs.now)) }
{
    match Command::multi(pairs) {
        Ok(command) => Ok(command),
        Err(_) => Err(Wrong::KeyTwice),
    }
}

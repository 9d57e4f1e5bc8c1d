ghost use Rattle.std.specs.Prelude.{◌≡◌, ◌<◌, ◌≤◌, length, IfOk};
ghost use Rattle.curp_gen.specs.Commands as commands;

use crate::draws::{next_word, pick};
use byteorder::{BigEndian, ByteOrder};
use curp_base::NoMemory;
use curp_cmd::{Command, Key, Value};
use rand_pcg::Pcg32;
use std::alloc::Global;

/// The commands that a client has to invoke, by the number of a plan: each client has a stream of its own. They are of
/// all kinds but multi-puts, on sixteen keys.
pub fn workload(
    alloc: Global,
    number: u64,
    client: u32,
    count: u32,
) -> Result<Vec<Command>, NoMemory>
    ensures { IfOk result (λ list. list.items ≡ commands.workload_of number client count) }
{
    let mut words = Pcg32::new(number, u64::from(client));
    let mut list = Vec::with_capacity(alloc, count as usize)?;
    'commands: for _made in 0..count {
        // By a slice: no proof is generated where a lone command goes through a `?`.
        list.extend_from_slice(&[made_command(&mut words)])?;
    }
    Ok(list)
}

/// A made command.
#[tactic(auto, unfolding(crate::specs::Commands::made_command))]
pub(crate) fn made_command(words: &mut Pcg32) -> Command
    ensures { (result, words.new) ≡ commands.made_command words.old }
{
    let kind = pick(words, 8);
    let digit = pick(words, 16);
    command_of(kind, made_key(digit), words)
}

// A command of one of eight kinds.
fn command_of(kind: u32, key: Key, words: &mut Pcg32) -> Command
    ensures { (result, words.new) ≡ commands.command_of kind key words.old }
{
    match kind {
        0 | 1 => Command::Get(key),
        2 | 3 => Command::Put(key, word_value(words)),
        4 => Command::Incr(key),
        5 => Command::Append(key, value(b"x")),
        6 => Command::Delete(key),
        _ => Command::CondPut(key, None, value(b"1")),
    }
}

// One of the keys k0 to kf.
fn made_key(digit: u32) -> Key
    requires { digit < 16 }
    ensures { result ≡ commands.made_key digit }
{
    let digit = b"0123456789abcdef"[digit as usize];
    match Key::new(&[b'k', digit]) {
        Ok(key) => key,
        Err(_) => unreachable!(),
    }
}

// The value that is the next word.
fn word_value(words: &mut Pcg32) -> Value
    ensures { (result, words.new) ≡ commands.word_value words.old }
{
    let mut bytes = [0; 4];
    BigEndian::write_u32(&mut bytes, next_word(words));
    value(&bytes)
}

// The value that is these few bytes.
fn value(bytes: &[u8]) -> Value
    requires { length bytes.now ≤ 128 }
    ensures { result ≡ bytes.now }
{
    match Value::new(bytes) {
        Ok(value) => value,
        Err(_) => unreachable!(),
    }
}

ghost use Rattle.std.specs.Prelude.{◌≡◌, ◌∷◌, ◌++◌, [], Some, map, IfOk, OnOk};
ghost use Rattle.serde_json.specs.Data.{string};
ghost use Rattle.serde_json.specs.View.{view};
ghost use Rattle.curp_script.specs.Grammar.{key_in, value_in, expected_in};
ghost use Rattle.curp_script.specs.Printed.{bytes_data, expected_data, command_data, command_parts, CommandReadsBack};

use crate::line::text;
use crate::shown::hex_text;
use curp_base::NoMemory;
use curp_cmd::{Command, Key, Pairs, Value};
use serde_json::Value as Json;
use std::alloc::Global;

pub(crate) fn command_json(alloc: Global, command: &Command) -> Result<Json, NoMemory>
    ensures data { IfOk result (λ json. view json ≡ command_data command.now) }
    ensures reads { OnOk result (CommandReadsBack command.now) }
{
    let mut parts = Vec::new(alloc);
    push_command(&mut parts, alloc, command)?;
    Ok(Json::Array(parts))
}

fn push_command(parts: &mut Vec<Json>, alloc: Global, command: &Command) -> Result<(), NoMemory>
    ensures data { OnOk result (map view parts.new.items ≡ map view parts.old.items ++ command_parts command.now) }
    ensures reads { OnOk result (CommandReadsBack command.now) }
{
    match command {
        Command::Get(key) => push_key_alone(parts, alloc, "get", key),
        Command::Put(key, value) => push_one_pair(parts, alloc, "put", key, value),
        Command::Delete(key) => push_key_alone(parts, alloc, "delete", key),
        Command::Incr(key) => push_key_alone(parts, alloc, "incr", key),
        Command::Append(key, more) => push_one_pair(parts, alloc, "append", key, more),
        Command::CondPut(key, expected, value) => {
            push_conditional(parts, alloc, key, expected, value)
        }
        Command::Multi(pairs) => push_multi(parts, alloc, pairs),
    }
}

fn push_key_alone(
    parts: &mut Vec<Json>,
    alloc: Global,
    word: &str,
    key: &Key,
) -> Result<(), NoMemory>
    ensures data { OnOk result (map view parts.new.items
        ≡ map view parts.old.items ++ string word.now ∷ bytes_data key.now ∷ []) }
    ensures key { OnOk result (key_in (bytes_data key.now) ≡ Some key.now) }
{
    push_word(parts, alloc, word)?;
    push_key(parts, alloc, key)
}

fn push_one_pair(
    parts: &mut Vec<Json>,
    alloc: Global,
    word: &str,
    key: &Key,
    value: &Value,
) -> Result<(), NoMemory>
    ensures data { OnOk result (map view parts.new.items
        ≡ map view parts.old.items ++ string word.now ∷ bytes_data key.now ∷ bytes_data value.now ∷ []) }
    ensures key { OnOk result (key_in (bytes_data key.now) ≡ Some key.now) }
    ensures value { OnOk result (value_in (bytes_data value.now) ≡ Some value.now) }
{
    push_key_alone(parts, alloc, word, key)?;
    push_value(parts, alloc, value)
}

fn push_conditional(
    parts: &mut Vec<Json>,
    alloc: Global,
    key: &Key,
    expected: &Option<Value>,
    value: &Value,
) -> Result<(), NoMemory>
    ensures data { OnOk result (map view parts.new.items
        ≡ map view parts.old.items ++ command_parts (Command.CondPut key.now expected.now value.now)) }
    ensures reads { OnOk result (CommandReadsBack (Command.CondPut key.now expected.now value.now)) }
{
    push_key_alone(parts, alloc, "condput", key)?;
    push_expected(parts, alloc, expected)?;
    push_value(parts, alloc, value)
}

fn push_multi(parts: &mut Vec<Json>, alloc: Global, pairs: &Pairs) -> Result<(), NoMemory>
    ensures data { OnOk result (map view parts.new.items
        ≡ map view parts.old.items ++ command_parts (Command.Multi pairs.now)) }
    ensures reads { OnOk result (CommandReadsBack (Command.Multi pairs.now)) }
{
    push_word(parts, alloc, "multi")?;
    for (key, value) in pairs.as_slice() {
        push_key(parts, alloc, key)?;
        push_value(parts, alloc, value)?;
    }
    Ok(())
}

pub(crate) fn push_word(parts: &mut Vec<Json>, alloc: Global, word: &str) -> Result<(), NoMemory>
    ensures { OnOk result (map view parts.new.items ≡ map view parts.old.items ++ string word.now ∷ []) }
{
    push_part(parts, text(alloc, word)?)
}

fn push_key(parts: &mut Vec<Json>, alloc: Global, key: &Key) -> Result<(), NoMemory>
    ensures data { OnOk result (map view parts.new.items ≡ map view parts.old.items ++ bytes_data key.now ∷ []) }
    ensures reads { OnOk result (key_in (bytes_data key.now) ≡ Some key.now) }
{
    push_part(parts, Json::String(hex_text(alloc, key.bytes())?))
}

fn push_value(parts: &mut Vec<Json>, alloc: Global, value: &Value) -> Result<(), NoMemory>
    ensures data { OnOk result (map view parts.new.items ≡ map view parts.old.items ++ bytes_data value.now ∷ []) }
    ensures reads { OnOk result (value_in (bytes_data value.now) ≡ Some value.now) }
{
    push_part(parts, Json::String(hex_text(alloc, value.bytes())?))
}

pub(crate) fn push_expected(
    parts: &mut Vec<Json>,
    alloc: Global,
    expected: &Option<Value>,
) -> Result<(), NoMemory>
    ensures data { OnOk result
        (map view parts.new.items ≡ map view parts.old.items ++ expected_data expected.now ∷ []) }
    ensures reads { OnOk result (expected_in (expected_data expected.now) ≡ Some expected.now) }
{
    match expected {
        Some(value) => push_value(parts, alloc, value),
        None => push_part(parts, Json::Null),
    }
}

pub(crate) fn push_part(parts: &mut Vec<Json>, part: Json) -> Result<(), NoMemory>
    ensures { OnOk result (map view parts.new.items ≡ map view parts.old.items ++ view part ∷ []) }
{
    parts.push(part)?;
    Ok(())
}

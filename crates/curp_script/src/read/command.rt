ghost use Rattle.std.specs.Prelude.{◌≡◌, ◌≤◌, length, take, IfSome, option_map, option_and_then};
ghost use Rattle.curp_script.specs.Digits.{at_most, by_twos};
ghost use Rattle.curp_script.specs.Values.{value_data, values_data, value_pair};
ghost use Rattle.curp_script.specs.Grammar.{command_at, command_of, command_by, cond_put_of, multi_put};
ghost use Rattle.curp_script.specs.Grammar.{key_in, value_in, expected_in, pair_in, key_alone, one_pair};

use super::digits::decode;
use super::object::{is_null, items_in, text_in, value_at};
use crate::kind::Verb;
use crate::{FieldName, LineError};
use curp_cmd::{Command, Key, Value};
use json::Value as Json;

const BAD_COMMAND: LineError = LineError::BadField {
    name: FieldName::Cmd,
};

// The command of an invocation. A fault anywhere in it is one of cmd.
pub(crate) fn command_at(object: &Json<'_>) -> Result<Command, LineError>
    ensures { result ≡ command_at (value_data object.now) }
{
    let items = value_at(object, FieldName::Cmd).and_then(items_in);
    command_of(items.ok_or(BAD_COMMAND)?)
}

fn command_of(items: &[Json<'_>]) -> Result<Command, LineError>
    ensures { result ≡ command_of (values_data items.now) }
{
    let [word, parts @ ..] = items else {
        return Err(BAD_COMMAND);
    };
    let verb = text_in(word).and_then(Verb::from_text);
    let verb = verb.ok_or(BAD_COMMAND)?;
    match command_by(verb, parts) {
        Some(command) => Ok(command),
        None => Err(BAD_COMMAND),
    }
}

fn command_by(verb: Verb, parts: &[Json<'_>]) -> Option<Command>
    ensures { result ≡ command_by verb (values_data parts.now) }
{
    match verb {
        Verb::Get => key_alone(parts).map(Command::Get),
        Verb::Put => one_pair(parts).map(|(key, value)| Command::Put(key, value)),
        Verb::Delete => key_alone(parts).map(Command::Delete),
        Verb::Incr => key_alone(parts).map(Command::Incr),
        Verb::Append => one_pair(parts).map(|(key, more)| Command::Append(key, more)),
        Verb::CondPut => cond_put_of(parts),
        Verb::Multi => multi_of(parts),
    }
}

fn cond_put_of(parts: &[Json<'_>]) -> Option<Command>
    ensures { result ≡ cond_put_of (values_data parts.now) }
{
    let [key, expected, value] = parts else {
        return None;
    };
    let key = key_of(key)?;
    let expected = expected_of(expected)?;
    let value = value_of(value)?;
    Some(Command::CondPut(key, expected, value))
}

fn multi_of(parts: &[Json<'_>]) -> Option<Command>
    ensures { result ≡ command_by Verb.Multi (values_data parts.now) }
{
    let [key, value, ..] = parts else {
        return None;
    };
    let mut pairs = [pair_of(key, value)?; 4];
    let count = pairs_of(parts, &mut pairs)?;
    multi_put(&pairs[..count])
}

// The pairs that parts are go to the buffer's prefix. The answer is how many they are.
fn pairs_of(parts: &[Json<'_>], buffer: &mut [(Key, Value)]) -> Option<usize>
    ensures pairs { option_map (λ count. take count buffer.new) result
        ≡ option_and_then (at_most (length buffer.old)) (by_twos value_pair parts.now) }
    ensures within { IfSome result (λ count. count ≤ length buffer.old) }
    ensures size { length buffer.new ≡ length buffer.old }
{
    let mut count = 0;
    let mut rest = parts;
    'pairs: while let [key, value, more @ ..] = rest {
        if count == buffer.len() {
            return None;
        }
        buffer[count] = pair_of(key, value)?;
        count += 1;
        rest = more;
    }
    rest.is_empty().then_some(count)
}

fn multi_put(pairs: &[(Key, Value)]) -> Option<Command>
    ensures { result ≡ multi_put pairs.now }
{
    Command::multi(pairs).ok()
}

fn key_alone(parts: &[Json<'_>]) -> Option<Key>
    ensures { result ≡ key_alone (values_data parts.now) }
{
    match parts {
        [key] => key_of(key),
        _ => None,
    }
}

fn one_pair(parts: &[Json<'_>]) -> Option<(Key, Value)>
    ensures { result ≡ one_pair (values_data parts.now) }
{
    match parts {
        [key, value] => pair_of(key, value),
        _ => None,
    }
}

fn pair_of(key: &Json<'_>, value: &Json<'_>) -> Option<(Key, Value)>
    ensures { result ≡ pair_in (value_data key.now) (value_data value.now) }
{
    let key = key_of(key)?;
    let value = value_of(value)?;
    Some((key, value))
}

fn key_of(json: &Json<'_>) -> Option<Key>
    ensures { result ≡ key_in (value_data json.now) }
{
    let mut buffer = [0; 32];
    let len = decode(text_in(json)?, &mut buffer)?;
    Key::new(&buffer[..len]).ok()
}

fn value_of(json: &Json<'_>) -> Option<Value>
    ensures { result ≡ value_in (value_data json.now) }
{
    let mut buffer = [0; 128];
    let len = decode(text_in(json)?, &mut buffer)?;
    Value::new(&buffer[..len]).ok()
}

// A value that is expected, or null where the key is to be absent.
pub(crate) fn expected_of(json: &Json<'_>) -> Option<Option<Value>>
    ensures { result ≡ expected_in (value_data json.now) }
{
    if is_null(json) {
        return Some(None);
    }
    Some(Some(value_of(json)?))
}

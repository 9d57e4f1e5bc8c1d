ghost use Rattle.std.specs.Prelude.{◌+◌, ◌<◌, Some, [], ◌∷◌, flat_map};
ghost use Rattle.std.specs.Fmt.{WritesOnOk, decimal};
ghost use Rattle.curp_cmd.specs.Text.{answer_text, byte_digits, bytes_text, command_text, expected_text, id_text, kind_text, node_label, pair_text, words};

use crate::{Answer, Command, Key, NodeId, NodeKind, Pairs, RequestId, Value};
use std::fmt;

/// A number in decimal digits: a short one, as most are, for less than the number's own text costs.
#[derive(Clone, Copy, Debug)]
pub struct Decimal(pub u64);

impl fmt::Display for Decimal {
    ghost output = { λ number. Some (decimal number.0) };

    fn fmt<W: fmt::Write>(&self, f: &mut fmt::Formatter<W>) -> fmt::Result {
        write_decimal(f, self.0)
    }
}

fn write_decimal<W: fmt::Write>(f: &mut fmt::Formatter<W>, number: u64) -> fmt::Result
    ensures { WritesOnOk W.write_str_gives f.old result (decimal number) f.new }
{
    if number < 10 {
        return write_digit(f, number);
    }
    if number >= 1000 {
        return write!(f, "{number}");
    }
    write_decimal(f, number / 10)?;
    write_digit(f, number % 10)
}

fn write_digit<W: fmt::Write>(f: &mut fmt::Formatter<W>, digit: u64) -> fmt::Result
    requires { digit < 10 }
    ensures { WritesOnOk W.write_str_gives f.old result ((48 + digit) ∷ []) f.new }
{
    f.write_char((b'0' + digit as u8) as char)
}

/// As `1.2` for the second request of client 1.
impl fmt::Display for RequestId {
    ghost output = { λ id. Some (id_text id) };

    fn fmt<W: fmt::Write>(&self, f: &mut fmt::Formatter<W>) -> fmt::Result {
        write!(
            f,
            "{}.{}",
            Decimal(self.client as u64),
            Decimal(self.seq as u64)
        )
    }
}

impl fmt::Display for NodeKind {
    ghost output = { λ kind. Some (kind_text kind) };

    fn fmt<W: fmt::Write>(&self, f: &mut fmt::Formatter<W>) -> fmt::Result {
        match self {
            NodeKind::Manager => f.write_str("manager"),
            NodeKind::Client => f.write_str("client"),
            NodeKind::Master => f.write_str("master"),
            NodeKind::Backup => f.write_str("backup"),
            NodeKind::Witness => f.write_str("witness"),
        }
    }
}

/// The letter of the kind and the number, as `C1`. The one manager is `G`.
impl fmt::Display for NodeId {
    ghost output = { λ node. Some (node_label node) };

    fn fmt<W: fmt::Write>(&self, f: &mut fmt::Formatter<W>) -> fmt::Result {
        let number = Decimal(self.number as u64);
        match self.kind {
            NodeKind::Manager => f.write_str("G"),
            NodeKind::Client => write!(f, "C{number}"),
            NodeKind::Master => write!(f, "M{number}"),
            NodeKind::Backup => write!(f, "B{number}"),
            NodeKind::Witness => write!(f, "W{number}"),
        }
    }
}

/// The bytes, as two lower-case hexadecimal digits each.
impl fmt::Display for Key {
    ghost output = { λ key. Some (bytes_text key) };

    fn fmt<W: fmt::Write>(&self, f: &mut fmt::Formatter<W>) -> fmt::Result {
        write_bytes(f, self.bytes())
    }
}

/// The bytes, as two lower-case hexadecimal digits each; where there is none, a point.
impl fmt::Display for Value {
    ghost output = { λ value. Some (bytes_text value) };

    fn fmt<W: fmt::Write>(&self, f: &mut fmt::Formatter<W>) -> fmt::Result {
        write_bytes(f, self.bytes())
    }
}

fn write_bytes<W: fmt::Write>(f: &mut fmt::Formatter<W>, bytes: &[u8]) -> fmt::Result
    ensures { WritesOnOk W.write_str_gives f.old result (bytes_text bytes.now) f.new }
{
    if bytes.is_empty() {
        return f.write_str(".");
    }
    for byte in bytes {
        write_byte(f, *byte)?;
    }
    Ok(())
}

fn write_byte<W: fmt::Write>(f: &mut fmt::Formatter<W>, byte: u8) -> fmt::Result
    ensures { WritesOnOk W.write_str_gives f.old result (byte_digits byte) f.new }
{
    write!(f, "{byte:02x}")
}

impl fmt::Debug for Key {
    fn fmt<W: fmt::Write>(&self, f: &mut fmt::Formatter<W>) -> fmt::Result {
        let key = *self;
        write!(f, "Key({key})")
    }
}

impl fmt::Debug for Value {
    fn fmt<W: fmt::Write>(&self, f: &mut fmt::Formatter<W>) -> fmt::Result {
        let value = *self;
        write!(f, "Value({value})")
    }
}

/// The command by its name, then its keys and its values. Where a conditional put expects no value, it has `-`.
impl fmt::Display for Command {
    ghost output = { λ command. Some (command_text command) };

    fn fmt<W: fmt::Write>(&self, f: &mut fmt::Formatter<W>) -> fmt::Result {
        match *self {
            Command::Get(key) => write_key(f, "get", &key),
            Command::Put(key, value) => write_pair(f, "put", &key, &value),
            Command::Delete(key) => write_key(f, "delete", &key),
            Command::Incr(key) => write_key(f, "incr", &key),
            Command::Append(key, more) => write_pair(f, "append", &key, &more),
            Command::CondPut(key, expected, value) => {
                write!(f, "condput {key} {} {value}", Expected(expected))
            }
            Command::Multi(pairs) => write!(f, "multi{pairs}"),
        }
    }
}

fn write_key<W: fmt::Write>(f: &mut fmt::Formatter<W>, word: &str, key: &Key) -> fmt::Result
    ensures { WritesOnOk W.write_str_gives f.old result (words (word.now ∷ bytes_text key.now ∷ [])) f.new }
{
    write!(f, "{word} {key}")
}

fn write_pair<W: fmt::Write>(
    f: &mut fmt::Formatter<W>,
    word: &str,
    key: &Key,
    value: &Value,
) -> fmt::Result
    ensures { WritesOnOk W.write_str_gives f.old result (words (word.now ∷ bytes_text key.now ∷ bytes_text value.now ∷ [])) f.new }
{
    write!(f, "{word} {key} {value}")
}

/// The value that a conditional put expects, if it expects one.
#[derive(Clone, Copy)]
pub(crate) struct Expected(pub(crate) Option<Value>);

impl fmt::Display for Expected {
    ghost output = { λ expected. Some (expected_text expected.0) };

    fn fmt<W: fmt::Write>(&self, f: &mut fmt::Formatter<W>) -> fmt::Result {
        match self.0 {
            None => f.write_str("-"),
            Some(value) => write!(f, "{value}"),
        }
    }
}

/// Each key with its value, with a space before each.
impl fmt::Display for Pairs {
    ghost output = { λ pairs. Some (flat_map pair_text pairs) };

    fn fmt<W: fmt::Write>(&self, f: &mut fmt::Formatter<W>) -> fmt::Result {
        for (key, value) in self.as_slice() {
            write!(f, " {key} {value}")?;
        }
        Ok(())
    }
}

impl fmt::Debug for Pairs {
    fn fmt<W: fmt::Write>(&self, f: &mut fmt::Formatter<W>) -> fmt::Result {
        let pairs = *self;
        write!(f, "Pairs({pairs})")
    }
}

/// What is told by a word, and the number or the value behind it, if there is one.
impl fmt::Display for Answer {
    ghost output = { λ answer. Some (answer_text answer) };

    fn fmt<W: fmt::Write>(&self, f: &mut fmt::Formatter<W>) -> fmt::Result {
        match *self {
            Answer::Done => f.write_str("done"),
            Answer::Removed(true) => f.write_str("removed"),
            Answer::Removed(false) => f.write_str("absent"),
            Answer::Number(number) => write!(f, "number {number}"),
            Answer::Length(length) => write!(f, "length {length}"),
            Answer::Swapped(true) => f.write_str("swapped"),
            Answer::Swapped(false) => f.write_str("kept"),
            Answer::NotNumber => f.write_str("not-number"),
            Answer::Overflow => f.write_str("overflow"),
            Answer::TooLong => f.write_str("too-long"),
            Answer::Found(None) => f.write_str("none"),
            Answer::Found(Some(value)) => write!(f, "found {value}"),
        }
    }
}

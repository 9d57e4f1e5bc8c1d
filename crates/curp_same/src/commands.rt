//! Commands, their answers, and requests.
use crate::Same;
use curp_cmd::{Answer, Command, Request};

impl Same for Command {
    fn same(&self, other: &Command) -> bool {
        match self {
            Command::Get(key) => matches!(other, Command::Get(theirs) if key.same(theirs)),
            Command::Put(key, value) => {
                matches!(other, Command::Put(k, v) if key.same(k) && value.same(v))
            }
            Command::Delete(key) => matches!(other, Command::Delete(theirs) if key.same(theirs)),
            Command::Incr(key) => matches!(other, Command::Incr(theirs) if key.same(theirs)),
            Command::Append(key, value) => {
                matches!(other, Command::Append(k, v) if key.same(k) && value.same(v))
            }
            Command::CondPut(key, expected, value) => {
                matches!(other, Command::CondPut(k, e, v) if key.same(k) && expected.same(e) && value.same(v))
            }
            Command::Multi(pairs) => matches!(other, Command::Multi(theirs) if pairs.same(theirs)),
        }
    }
}

impl Same for Answer {
    fn same(&self, other: &Answer) -> bool {
        match self {
            Answer::Done => matches!(other, Answer::Done),
            Answer::Removed(was) => matches!(other, Answer::Removed(theirs) if was.same(theirs)),
            Answer::Number(number) =>
                matches!(other, Answer::Number(theirs) if number.same(theirs)),
            Answer::Length(length) =>
                matches!(other, Answer::Length(theirs) if length.same(theirs)),
            Answer::Swapped(was) => matches!(other, Answer::Swapped(theirs) if was.same(theirs)),
            Answer::NotNumber => matches!(other, Answer::NotNumber),
            Answer::Overflow => matches!(other, Answer::Overflow),
            Answer::TooLong => matches!(other, Answer::TooLong),
            Answer::Found(value) => matches!(other, Answer::Found(theirs) if value.same(theirs)),
        }
    }
}

impl Same for Request {
    fn same(&self, other: &Request) -> bool {
        self.id.same(&other.id) && self.first == other.first && self.command.same(&other.command)
    }
}

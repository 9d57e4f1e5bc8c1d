ghost use Rattle.std.specs.Prelude.{◌≡◌, ◌<◌, ◌≤◌, ◌↔◌, length, true, IsTrue, IfOk};
ghost use Rattle.std.specs.Ordering.{as_partial_cmp};
ghost use Rattle.std.specs.Cmp.{partial_order_from_own_ties};
ghost use Rattle.std.specs.Cmp.Rules.{comparing};
ghost use Rattle.std.proofs.Common.{rules};
ghost use Rattle.curp_cmd.specs.Pairs.{names_twice};
ghost use Rattle.curp_cmd.specs.Store.{keys_of, is_update};

use crate::{Key, MultiError, Pairs, Value};
use std::cmp::Ordering;

/// What a client asks of the store. A command that can't be done as it stands (NotNumber, Overflow, TooLong, or another
/// value than the expected one) leaves the store as it was.
#[derive(Clone, Copy, Debug, PartialEq, Eq)]
pub enum Command {
    /// The value of the key is read.
    Get(Key),
    /// The key has the value from then on.
    Put(Key, Value),
    /// The key has no value from then on.
    Delete(Key),
    /// The key has the next number from then on, as 8 bytes, the highest first. An absent key counts as 0.
    Incr(Key),
    /// The bytes come behind those that the key has. An absent key counts as empty.
    Append(Key, Value),
    /// The key has the last value from then on, if it has the expected one now; None expects that it is absent.
    CondPut(Key, Option<Value>, Value),
    /// Each key has its value from then on.
    Multi(Pairs),
}

impl Command {
    /// The command that puts all these pairs at once.
    pub fn multi(pairs: &[(Key, Value)]) -> Result<Command, MultiError>
        ensures ok { IfOk result (λ command. command ≡ Command.Multi pairs.now) }
        ensures no_pairs { (result ≡ Err MultiError.NoPairs) ↔ (length pairs.now ≡ 0) }
        ensures too_many_pairs { (result ≡ Err MultiError.TooManyPairs) ↔ (4 < length pairs.now) }
        ensures key_twice { (result ≡ Err MultiError.KeyTwice)
            ↔ ((length pairs.now ≤ 4) × (names_twice pairs.now ≡ true)) }
    {
        Ok(Command::Multi(Pairs::new(pairs)?))
    }

    /// How many keys it names.
    pub fn key_count(&self) -> u64
        ensures { result ≡ length (keys_of self.now) }
    {
        match self {
            Command::Multi(pairs) => pairs.as_slice().len() as u64,
            _ => 1,
        }
    }

    /// Whether it may change the store. A Get never does.
    pub fn is_update(&self) -> bool
        ensures { result ≡ is_update self.now }
    {
        !matches!(self, Command::Get(_))
    }
}

/// What the store answers.
#[derive(Clone, Copy, Debug, PartialEq, Eq)]
pub enum Answer {
    /// To a put or a multi-put: it is done, and there is nothing to tell.
    Done,
    /// To a delete: whether the key had a value.
    Removed(bool),
    /// To an increment: the number that the key has now.
    Number(u64),
    /// To an append: how many bytes the key's value has now.
    Length(u32),
    /// To a conditional put: whether the key had the expected value, and so has the new one.
    Swapped(bool),
    /// To an increment: the key's value doesn't have 8 bytes.
    NotNumber,
    /// To an increment: the key's number is the greatest, 2^64 - 1.
    Overflow,
    /// To an append: the value would have more than 128 bytes.
    TooLong,
    /// To a get: the key's value, if it has one.
    Found(Option<Value>),
}

/// The number of a request, as RIFL has it: the client, and which of its requests this is, from 1.
/// They are ordered by the client, then by the number.
#[derive(Clone, Copy, Debug)]
pub struct RequestId {
    pub client: u32,
    pub seq: u32,
}

impl PartialEq for RequestId {
    ghost use Rattle.curp_cmd.specs.RequestId.{same_id};

    ghost eq = { same_id };

    ghost laws = { Prim.search (comparing, rules) };

    fn eq(&self, other: &RequestId) -> bool {
        self.client == other.client && self.seq == other.seq
    }
}

impl Eq for RequestId {
    ghost laws = { Prim.search (comparing, rules) };
}

impl PartialOrd for RequestId {
    ghost use Rattle.curp_cmd.specs.RequestId.{id_cmp};

    ghost partial_cmp = { as_partial_cmp id_cmp };

    ghost laws = { partial_order_from_own_ties (Prim.search (comparing, rules)) (Prim.search (comparing, rules)) };

    fn partial_cmp(&self, other: &RequestId) -> Option<Ordering> {
        Some(self.cmp(other))
    }
}

impl Ord for RequestId {
    ghost use Rattle.curp_cmd.specs.RequestId.{id_cmp};

    ghost cmp = { id_cmp };

    ghost total = { Prim.search (comparing, rules) };

    ghost matches_partial_cmp = { Prim.search (comparing, rules) };

    ghost matches_eq = { Prim.search (comparing, rules) };

    fn cmp(&self, other: &RequestId) -> Ordering {
        self.client
            .cmp(&other.client)
            .then(self.seq.cmp(&other.seq))
    }
}

/// A request as it travels and stands in logs.
#[derive(Clone, Copy, Debug, PartialEq, Eq)]
pub struct Request {
    pub id: RequestId,
    /// The least request of that client that was pending when this one was invoked, itself counted.
    pub first: u32,
    pub command: Command,
}

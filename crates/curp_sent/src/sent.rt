ghost use Rattle.std.specs.Prelude.{◌≡◌, ◌+◌, ◌≤◌, ◌<◌, ◌^◌, [], length, max, OnOk, IfOk, IfErr, IfSome, IfNone, IsTrue};
ghost use Rattle.std.specs.Option.{option_copied};
ghost use Rattle.curp_base.specs.Words.{numbered, all_of};
ghost use Rattle.curp_model.specs.World.{sent_at, with_batch};
ghost use Rattle.curp_sent.specs.Batches.{Rise, NumberStandsAt, IsGapAt, IsBatchOf, weight_of_all};

use crate::batch::Batch;
use curp_base::{Items, NoMemory, Reserved};
use curp_msg::{Message, weight};
use std::alloc::{AllocError, Global};
use std::marker::Model;

// So many messages fit no memory, and below it no number runs over.
const MOST: u64 = 1 << 63;

/// Every message that was ever sent, as the steps sent them. Messages are numbered from 1. Contracts see what each step
/// sent, for how many more steps there is room, and for how many in the list that has the most of it.
pub struct SentMessages {
    batches: Reserved<Batch>,
    // The number of the first message of each batch.
    firsts: Reserved<u64>,
    next: u64,
    // What all messages weigh.
    weight: u64,
}

impl Drop for SentMessages {
    fn drop(self) {
        let SentMessages {
            batches: _,
            firsts: _,
            next: _,
            weight: _,
        } = self;
    }
}

impl Model for SentMessages {
    ghost use Rattle.std.specs.Prelude.{◌^◌, nat_le, if◌then◌else◌, max, min};
    ghost use Rattle.curp_sent.specs.Batches.{Batched, IsIndexOf};

    ghost Value = { Batched };

    ghost view = { λ s. record {
      lists = s.batches.items;
      spare = if nat_le s.next (2 ^ 63) then min s.batches.spare s.firsts.spare else 0;
      most = max s.batches.spare s.firsts.spare;
    } };

    ghost invariant = { λ s. IsIndexOf s.firsts.items s.batches.items s.next s.weight };
}

impl SentMessages {
    /// Nothing was sent yet. It takes no memory.
    pub fn new(alloc: Global) -> SentMessages
        ensures lists { result.lists ≡ [] }
        ensures no_room { result.most ≡ 0 }
    {
        SentMessages {
            batches: Reserved::new(alloc),
            firsts: Reserved::new(alloc),
            next: 1,
            weight: 0,
        }
    }

    /// Makes room for one more step, or for as many as there are where there is none.
    pub fn reserve(&mut self) -> Result<(), NoMemory>
        ensures lists { self.new.lists ≡ self.old.lists }
        ensures room { OnOk result (1 ≤ self.new.spare) }
        ensures no_more { self.new.most ≤ max self.old.most (max 1 (length self.old.lists)) }
    {
        self.batches.reserve(1)?;
        self.firsts.reserve(1)?;
        if self.next > MOST {
            return Err(AllocError);
        }
        Ok(())
    }

    /// Keeps what a step sent. It takes no memory.
    pub fn push(&mut self, messages: Items<Message>)
        requires { 1 ≤ self.old.spare }
        ensures { self.new.lists ≡ with_batch self.old.lists messages }
    {
        if messages.len() == 0 {
            return;
        }
        let first = self.next;
        self.next += messages.len() as u64;
        let added = weight_of_all(messages.as_slice());
        self.weight = self.weight.saturating_add(added);
        self.firsts.push(first);
        self.batches.push(Batch::new(messages));
    }

    /// How many messages were sent.
    pub fn count(&self) -> u64
        ensures count { result ≡ length (all_of self.now.lists) }
        ensures fits { result < u64.MAX }
    {
        self.next - 1
    }

    /// The number that the next message gets.
    pub fn next(&self) -> u64
        ensures { result ≡ length (all_of self.now.lists) + 1 }
    {
        self.next
    }

    /// The weight of all messages. It stands still at 2^64 - 1.
    pub fn weight(&self) -> u64
        ensures { result ≡ weight_of_all (all_of self.now.lists) }
    {
        self.weight
    }

    /// The message of that number.
    pub fn get(&self, number: u64) -> Option<&Message>
        ensures { option_copied result ≡ numbered (all_of self.now.lists) number }
    {
        self.get_at(&self.place_of(number))
    }

    /// Where the message of that number is to be looked for.
    pub fn place_of(&self, number: u64) -> MessagePlace
        ensures { result ≡ number }
    {
        let batch = batch_of(&self.firsts, number).unwrap_or(0);
        MessagePlace { number, batch }
    }

    /// The message of that number. Where it still stands at its place, it isn't searched for.
    pub fn get_at(&self, place: &MessagePlace) -> Option<&Message>
        ensures { option_copied result ≡ numbered (all_of self.now.lists) place.now }
    {
        let index = batch_at(&self.firsts, place)?;
        let offset = place.number - self.firsts[index];
        self.batches[index].as_slice().get(offset as usize)
    }

    /// The messages of the step whose first message has that number, else none. The numbers of all fit a `u64`.
    pub fn step_at(&self, first: u64) -> &[Message]
        ensures messages { result.now ≡ sent_at 1 self.now.lists first }
        ensures fits { first + length result.now < 2 ^ 64 }
    {
        match search(&self.firsts, first) {
            Ok(index) => self.batches[index].as_slice(),
            Err(_) => &[],
        }
    }
}

/// The number of a message, and the batch in which it was found. Contracts see the number.
pub struct MessagePlace {
    number: u64,
    batch: usize,
}

impl Drop for MessagePlace {
    fn drop(self) {
        let MessagePlace {
            number: _,
            batch: _,
        } = self;
    }
}

impl Model for MessagePlace {
    ghost use Rattle.std.specs.Prelude.{ℕ};

    ghost Value = { ℕ };

    ghost view = { λ p. p.number };
}

// What messages weigh in all.
fn weight_of_all(messages: &[Message]) -> u64
    ensures { result ≡ weight_of_all messages.now }
{
    let mut total: u64 = 0;
    for message in messages {
        total = total.saturating_add(weight(message));
    }
    total
}

// The batch that has the number of a place or, of a number past all, the last one.
fn batch_at(firsts: &[u64], place: &MessagePlace) -> Option<usize>
    requires { Rise firsts.now }
    ensures some { IfSome result (IsBatchOf firsts.now place.now) }
    ensures none { IfNone result (IsGapAt firsts.now place.now 0) }
{
    if is_batch_of(firsts, place.number, place.batch) {
        Some(place.batch)
    } else {
        batch_of(firsts, place.number)
    }
}

// Whether the batch at that index has the number, or is the last one and has none past it.
fn is_batch_of(firsts: &[u64], number: u64, at: usize) -> bool
    requires { Rise firsts.now }
    ensures { IsTrue result → IsBatchOf firsts.now number at }
{
    if at >= firsts.len() || number < firsts[at] {
        return false;
    }
    at + 1 == firsts.len() || number < firsts[at + 1]
}

// The batch that has a number or, of a number past all, the last one.
fn batch_of(firsts: &[u64], number: u64) -> Option<usize>
    requires { Rise firsts.now }
    ensures some { IfSome result (IsBatchOf firsts.now number) }
    ensures none { IfNone result (IsGapAt firsts.now number 0) }
{
    match search(firsts, number) {
        Ok(index) => Some(index),
        Err(gap) => gap.checked_sub(1),
    }
}

// Where a number stands among rising ones, or would stand. Most ask for the last one, or for one past it.
fn search(numbers: &[u64], number: u64) -> Result<usize, usize>
    requires { Rise numbers.now }
    ensures found { IfOk result (NumberStandsAt numbers.now number) }
    ensures absent { IfErr result (IsGapAt numbers.now number) }
{
    match numbers.last() {
        Some(last) if *last == number => Ok(numbers.len() - 1),
        Some(last) if *last < number => Err(numbers.len()),
        _ => numbers.binary_search(&number),
    }
}

//! A node and where it stands.
ghost use Rattle.std.specs.Prelude.{◌≡◌, ◌≢◌, ◌≤◌, ◌∷◌, ◌++◌, [], length, IfOk, OnOk, OnErr};
ghost use Rattle.curp_journal.specs.Given.{given};
ghost use Rattle.curp_durable.specs.Lone.{done_in};
ghost use Rattle.curp_durable.specs.Standing.{after, answer_of, answers_of, begun, made_input, made_inputs, stepped};
ghost use Rattle.curp_durable.specs.declared.stand.Answered.{Answered};
ghost use Rattle.curp_msg.specs.Moved.{Moves};

use curp_base::NoMemory;
use curp_journal::{Arrived, Item};
use curp_msg::{Core, Done};
use std::alloc::Global;
use std::marker::Model;
use std::mem;

/// What a node answers to one input of a batch.
pub enum Answered {
    /// It took the input: the item of this number, counted from 1.
    Made { step: u64, item: Item },
    /// It refused it, by this number, or by 255 where no stamp is left. The input isn't kept.
    Refused { number: u8 },
}

impl Drop for Answered {
    fn drop(self) {
        match self {
            Answered::Made { step: _, item: _ } => {}
            Answered::Refused { number: _ } => {}
        }
    }
}

impl Answered {
    /// What the node did, alone: nothing but a refusal, where it refused. It takes no memory.
    pub fn into_done(self, alloc: Global) -> Done
        ensures { result ≡ done_in self }
    {
        match self {
            Answered::Made { step: _, mut item } => {
                mem::replace(&mut item.done, Done::quiet(alloc))
            }
            Answered::Refused { number } => Done::refuses(alloc, number),
        }
    }
}

/// A node, the number of inputs that it took, and its last stamp.
#[derive(Drop)]
pub(crate) struct Stand<N: Core> {
    node: N,
    count: u64,
    last: u64,
}

impl<N: Core> Model for Stand<N> {
    ghost use Rattle.std.specs.Prelude.{◌≤◌};
    ghost use Rattle.curp_durable.specs.Standing.{Standing};

    ghost Value = { Standing N };

    ghost view = { λ s. record { node = s.node; count = s.count; last = s.last } };

    ghost invariant = { λ s. s.count ≤ s.last };
}

/// Gives the node what came.
fn give<N: Core>(node: &mut N, arrived: &Arrived) -> Result<Done, NoMemory>
    ensures moves { Moves node.old node.new result (N.machine node.old (given arrived.now)) }
    ensures refused { IfOk result (λ done. done.refused ≢ 0 → node.new ≡ node.old) }
{
    node.on(arrived.given())
}

impl<N: Core> Stand<N> {
    /// Before any input.
    pub fn begin(node: N) -> Stand<N>
        ensures { result ≡ begun node }
    {
        Stand {
            node,
            count: 0,
            last: 0,
        }
    }

    /// The same, of a copy of the node.
    pub fn with_copy(&self, node: N) -> Stand<N>
        requires { node ≡ self.now.node }
        ensures { result ≡ self.now }
    {
        Stand {
            node,
            count: self.count,
            last: self.last,
        }
    }

    pub fn node(&self) -> &N
        ensures { result.now ≡ self.now.node }
    {
        &self.node
    }

    pub fn count(&self) -> u64
        ensures { result ≡ self.now.count }
    {
        self.count
    }

    pub fn last(&self) -> u64
        ensures { result ≡ self.now.last }
    {
        self.last
    }

    /// Gives the node one input.
    pub fn step(&mut self, arrived: Arrived) -> Result<Answered, NoMemory>
        ensures answer { IfOk result (λ answered. answered ≡ answer_of N.machine self.old arrived) }
        ensures state { OnOk result (self.new ≡ stepped N.machine self.old arrived) }
        ensures err { OnErr result (self.new ≡ self.old) }
    {
        let before = self.last.max(arrived.stamp());
        if before == u64::MAX {
            return Ok(Answered::Refused { number: 255 });
        }
        let done = give(&mut self.node, &arrived)?;
        if done.refused != 0 {
            return Ok(Answered::Refused {
                number: done.refused,
            });
        }
        self.count += 1;
        self.last = before + 1;
        let item = Item {
            stamp: before + 1,
            input: arrived,
            done,
        };
        Ok(Answered::Made {
            step: self.count,
            item,
        })
    }

    /// Gives the node inputs in their order. After an error it has had some of them.
    pub fn step_all(
        &mut self,
        alloc: Global,
        inputs: Vec<Arrived>,
    ) -> Result<Vec<Answered>, NoMemory>
        ensures answers { IfOk result (λ answers. answers.items ≡ answers_of N.machine self.old inputs.items) }
        ensures state { OnOk result (self.new ≡ after N.machine self.old inputs.items) }
    {
        let mut answers = Vec::with_capacity(alloc, inputs.len())?;
        for arrived in inputs {
            answers.push(self.step(arrived)?)?;
        }
        Ok(answers)
    }
}

/// How many of them were made.
pub(crate) fn count_made(answers: &[Answered]) -> usize
    ensures { result ≡ length (made_inputs answers.now) }
{
    let mut count = 0;
    for answered in answers {
        count += made_one(answered);
    }
    count
}

/// 1 where it was made, else 0.
fn made_one(answered: &Answered) -> usize
    ensures count { result ≡ length (made_input answered.now) }
    ensures small { result ≤ 1 }
{
    match answered {
        Answered::Made { .. } => 1,
        Answered::Refused { .. } => 0,
    }
}

/// What came with those that were made, copied.
pub(crate) fn made_inputs(alloc: Global, answers: &[Answered]) -> Result<Vec<Arrived>, NoMemory>
    ensures { IfOk result (λ inputs. inputs.items ≡ made_inputs answers.now) }
{
    let mut inputs = Vec::new(alloc);
    for answered in answers {
        add_made(alloc, &mut inputs, answered)?;
    }
    Ok(inputs)
}

/// Puts what came behind others, where it was made.
#[tactic(auto, using(crate::proofs::Standings::nothing_more))]
fn add_made(alloc: Global, inputs: &mut Vec<Arrived>, answered: &Answered) -> Result<(), NoMemory>
    ensures { OnOk result (inputs.new.items ≡ inputs.old.items ++ made_input answered.now) }
{
    match answered {
        Answered::Made { item, .. } => {
            let input = item.input.copy(alloc)?;
            inputs.push(input)?;
            Ok(())
        }
        Answered::Refused { .. } => Ok(()),
    }
}

/// What the node did by the one answer to a batch of one.
pub(crate) fn done_in(alloc: Global, mut answers: Vec<Answered>) -> Done
    requires { length answers.items ≡ 1 }
    ensures { (answered : Answered) → answers.items ≡ answered ∷ [] → result ≡ done_in answered }
{
    match answers.pop() {
        Some(answered) => answered.into_done(alloc),
        None => unreachable!(),
    }
}

ghost use Rattle.std.specs.Prelude.{◌≡◌, ◌<◌, ◌≤◌, ◌-◌, ◌^◌, length, OnErr, OnOk, IfOk};
ghost use Rattle.curp_client.specs.Requests.{least_of};
ghost use Rattle.curp_model.specs.World.{order};
ghost use Rattle.curp_msg.specs.Script.{IsHeader};
ghost use Rattle.curp_script.specs.Printed.{NamesNode};
ghost use Rattle.curp_words.specs.Plan.{IsPlan, header_of};
ghost use Rattle.curp_gen.specs.Making as making;

use crate::draws::copy_of;
use crate::summary::Summary;
use curp_base::NoMemory;
use curp_cluster::Cluster;
use curp_msg::{Header, Outcome, Step, StepResult};
use curp_words::MakePlan;
use rand_pcg::Pcg32;
use std::alloc::Global;
use std::marker::Model;

/// The stream of words that scripts are made from.
const SCRIPT_STREAM: u64 = 54;

/// A script that is being made, step by step. Each step is made in a world as it is chosen, so the next one is chosen
/// by what all steps before it led to.
pub struct Maker {
    alloc: Global,
    plan: MakePlan,
    world: Cluster,
    words: Pcg32,
    cursor: u64,
    made: u32,
    recoveries: u32,
    refused: u32,
    completed: u32,
}

impl Drop for Maker {
    fn drop(self) {
        let Maker {
            alloc: _,
            plan: _,
            world: _,
            words: _,
            cursor: _,
            made: _,
            recoveries: _,
            refused: _,
            completed: _,
        } = self;
    }
}

impl Model for Maker {
    ghost use Rattle.curp_gen.specs.Making.{IsCounted, Making};

    ghost Value = { Making };

    ghost view = { λ m. record {
      plan = m.plan;
      world = m.world;
      words = m.words;
      cursor = m.cursor;
      made = m.made;
      recoveries = m.recoveries;
      refused = m.refused;
      completed = m.completed;
    } };

    ghost invariant = { λ m. IsCounted (record {
      plan = m.plan;
      world = m.world;
      words = m.words;
      cursor = m.cursor;
      made = m.made;
      recoveries = m.recoveries;
      refused = m.refused;
      completed = m.completed;
    }) };
}

impl Maker {
    /// A script of that plan, before its first step.
    pub fn new(alloc: Global, plan: &MakePlan) -> Result<Maker, NoMemory>
        requires { IsPlan plan.now }
        ensures { IfOk result (λ maker. maker ≡ making.begun plan.now) }
    {
        Ok(Maker {
            alloc,
            plan: *plan,
            world: Cluster::new(alloc, &plan.header())?,
            words: Pcg32::new(plan.number, SCRIPT_STREAM),
            cursor: 1,
            made: 0,
            recoveries: 0,
            refused: 0,
            completed: 0,
        })
    }

    /// The header of the script.
    pub fn header(&self) -> Header
        ensures header { result ≡ header_of self.now.plan }
        ensures in_range { IsHeader result }
    {
        self.plan.header()
    }

    /// Makes the next step. Where there is no memory for it, nothing has changed.
    pub fn next_step(&mut self) -> Result<Step, NoMemory>
        requires { self.old.made < self.old.plan.steps }
        ensures step { IfOk result (λ step. step ≡ making.next_step self.old) }
        ensures names_node { IfOk result NamesNode }
        ensures state { OnOk result (self.new ≡ making.with_next self.old) }
        ensures err { OnErr result (self.new ≡ self.old) }
    {
        let mut words = copy_of(&self.words)?;
        let choice = self.choice(&mut words)?;
        let is_recovery = self.is_recovery_due();
        match self.world.step(&choice.step) {
            Ok(outcome) => {
                self.words = words;
                self.cursor = choice.cursor;
                self.made += 1;
                self.recoveries = plus_if(is_recovery, self.recoveries);
                self.refused = plus_if(!is_done(&outcome), self.refused);
                self.completed = plus_if(outcome.completed.is_some(), self.completed);
                Ok(choice.step)
            }
            Err(error) => Err(error),
        }
    }

    /// What happened in it so far.
    pub fn summary(&self, alloc: Global) -> Result<Summary, NoMemory>
        ensures { IfOk result (λ summary. summary ≡ making.summary_of self.now) }
    {
        Ok(Summary {
            steps: u64::from(self.made),
            refused: u64::from(self.refused),
            messages: self.world.message_count(),
            weight: self.world.weight(),
            completed: u64::from(self.completed),
            order: self.order_length(alloc)?,
        })
    }

    // How many requests stand in the order.
    #[tactic(auto, using(crate::proofs::Answered::as_many_answers))]
    fn order_length(&self, alloc: Global) -> Result<u64, NoMemory>
        ensures { IfOk result (λ count. count ≡ length (order self.now.world)) }
    {
        let order = self.world.order(alloc)?;
        Ok(order.len() as u64)
    }

    // ---- what choices go by

    pub(crate) fn alloc(&self) -> Global {
        self.alloc
    }

    /// The plan of the script.
    pub(crate) fn plan(&self) -> MakePlan
        ensures plan { result ≡ self.now.plan }
        ensures in_range { IsPlan result }
    {
        self.plan
    }

    /// The number of the message that comes next.
    pub(crate) fn cursor(&self) -> u64
        ensures { result ≡ self.now.cursor }
    {
        self.cursor
    }

    /// How many messages were sent.
    pub(crate) fn sent(&self) -> u64
        ensures count { result ≡ making.sent self.now }
        ensures fits { result < u64.MAX }
    {
        self.world.message_count()
    }

    /// How many masters were made so far.
    pub(crate) fn master_count(&self) -> u32
        ensures count { result ≡ length self.now.world.masters }
        ensures least { 1 ≤ result }
    {
        self.world.master_count()
    }

    /// How many requests the client of that number waits for.
    pub(crate) fn pending(&self, client: u32) -> usize
        ensures { result ≡ length (making.pending_of self.now client) }
    {
        self.world
            .client(client)
            .map_or(0, |client| client.pending())
    }

    /// The least of these requests.
    pub(crate) fn least_pending(&self, client: u32) -> Option<u32>
        ensures { result ≡ least_of (making.pending_of self.now client) }
    {
        self.world.client(client)?.least_pending()
    }

    /// Whether the next step is to be a recovery.
    pub(crate) fn is_recovery_due(&self) -> bool
        ensures { result ≡ making.is_recovery_due self.now }
    {
        let interval = self.plan.steps / (self.plan.recoveries + 1);
        interval >= 1 && (self.made + 1) % interval == 0 && self.recoveries < self.plan.recoveries
    }
}

/// The script of a plan.
pub fn make(alloc: Global, plan: &MakePlan) -> Result<(Header, Vec<Step>), NoMemory>
    requires { IsPlan plan.now }
    ensures header { IfOk result (λ script. script.0 ≡ header_of plan.now) }
    ensures steps { IfOk result (λ script. script.1.items ≡ making.made_steps plan.now) }
{
    let mut maker = Maker::new(alloc, plan)?;
    let script = made(alloc, plan, &mut maker);
    drop(maker);
    script
}

// The script of a plan that is begun.
fn made(alloc: Global, plan: &MakePlan, maker: &mut Maker) -> Result<(Header, Vec<Step>), NoMemory>
    requires { maker.old ≡ making.begun plan.now }
    ensures header { IfOk result (λ script. script.0 ≡ header_of plan.now) }
    ensures steps { IfOk result (λ script. script.1.items ≡ making.made_steps plan.now) }
{
    let mut list = Vec::with_capacity(alloc, plan.steps as usize)?;
    'steps: for _made in 0..plan.steps {
        let step = maker.next_step()?;
        list.push(step)?;
    }
    Ok((maker.header(), list))
}

// So much, and one more where it is so.
fn plus_if(so: bool, count: u32) -> u32
    requires { count < 2 ^ 32 - 1 }
    ensures { result ≡ making.plus_if so count }
{
    if so { count + 1 } else { count }
}

// A step was done.
fn is_done(outcome: &Outcome) -> bool
    ensures { result ≡ making.is_done outcome.now.result }
{
    matches!(outcome.result, StepResult::Done)
}

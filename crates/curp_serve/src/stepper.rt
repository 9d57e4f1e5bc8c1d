ghost use Rattle.std.specs.Prelude.{◌≡◌, ◌≤◌, ◌<◌, ◌+◌, ◌++◌, [], ◌∷◌, length, vec_capacity, vec_len, OnOk, IfOk};
ghost use Rattle.curp_law_served.specs.Served as served;
ghost use Rattle.curp_law_served.specs.Served.{if_turn, is_turn};
ghost use Rattle.curp_model.specs.World.{opening};
ghost use Rattle.curp_msg.specs.Script.{IsHeader};
ghost use Rattle.curp_serve.specs.Ended.{Led, going};

use curp_base::{Failed, NoMemory, Shared};
use curp_cluster::Cluster;
use curp_cmd::{Answer, Command, NodeId};
use curp_msg::{Header, STEP_LIMIT, Step, StepResult};
use std::alloc::Global;
use std::marker::Model;

/// After how many commands a round and a collection follow.
const TIDY_EVERY: u64 = 16;

/// Why no further step is made.
#[derive(Clone, Copy, PartialEq, Eq)]
pub(crate) enum Stop {
    TooManySteps,
    /// All messages weigh too much: this much.
    TooLarge { weight: u64 },
}

/// A cluster, and the steps that it has made.
#[derive(Drop)]
pub(crate) struct Stepper {
    alloc: Global,
    cluster: Cluster,
    steps: Vec<Step>,
    delivered: u64,
    commands: u64,
    answer: Option<Answer>,
}

impl Model for Stepper {
    ghost use Rattle.curp_law_served.specs.Served.{Served};
    ghost use Rattle.curp_serve.specs.Ended.{IsBounded, going};

    ghost Value = { Served };

    ghost view = { λ s. going s.cluster s.steps.items s.delivered s.commands s.answer };

    ghost invariant = { λ s. IsBounded (going s.cluster s.steps.items s.delivered s.commands s.answer) };
}

impl Stepper {
    /// The cluster of a header, before any step.
    pub(crate) fn begin(alloc: Global, header: &Header) -> Result<Stepper, NoMemory>
        requires { IsHeader header.now }
        ensures { IfOk result (λ stepper. stepper ≡ going (opening header.now) [] 0 0 None) }
    {
        Ok(Stepper {
            alloc,
            cluster: Cluster::new(alloc, header)?,
            steps: Vec::new(alloc),
            delivered: 0,
            commands: 0,
            answer: None,
        })
    }

    /// The steps that were made.
    pub(crate) fn steps(&self) -> &[Step]
        ensures steps { result.now ≡ self.now.steps }
        ensures few { length result.now ≤ served.most_steps }
    {
        &self.steps
    }

    /// The answer to the command that is served, once it has one.
    pub(crate) fn answer(&self) -> Option<Answer>
        ensures answer { result ≡ self.now.answer }
        ensures free { self.now.stopped ≡ None }
    {
        self.answer
    }

    /// Makes the steps of a command. Between two recoveries lie `every` commands; there is none where that is 0.
    #[tactic(auto, unfolding(curp_law_served::specs::Served::serve))]
    pub(crate) fn serve(&mut self, every: u64, command: &Command) -> Result<(), Failed<Stop>>
        ensures { Led result self.old self.new (served.serve every command.now self.old) }
    {
        self.ask(command)?;
        self.count()?;
        self.recover_in_turn(every)
    }

    // The command is invoked, and every message is delivered.
    fn ask(&mut self, command: &Command) -> Result<(), Failed<Stop>>
        ensures led { Led result self.old self.new
            (served.with_quieting (Step.Invoke 1 command.now) (record self.old { answer = None })) }
        ensures longer { OnOk result (self.new.commands < length self.new.steps) }
    {
        let command = Shared::of(self.alloc, command)?;
        self.answer = None;
        self.make_quieted(Step::Invoke { client: 1, command })
    }

    // The command is counted. After every sixteenth the cluster is tidied.
    fn count(&mut self) -> Result<(), Failed<Stop>>
        requires { self.old.commands < length self.old.steps }
        ensures { Led result self.old self.new
            (if_turn (is_turn 16 (self.old.commands + 1)) served.tidies
            (record self.old { commands = self.old.commands + 1 })) }
    {
        self.commands += 1;
        if is_turn(TIDY_EVERY, self.commands) {
            return self.tidy();
        }
        Ok(())
    }

    // After each of so many commands the partition is recovered.
    fn recover_in_turn(&mut self, every: u64) -> Result<(), Failed<Stop>>
        ensures { Led result self.old self.new
            (if_turn (is_turn every self.old.commands) served.replaces_master self.old) }
    {
        if is_turn(every, self.commands) {
            return self.replace_master();
        }
        Ok(())
    }

    // The newest master sends its backups what they lack, and then tells its witnesses what they may drop.
    fn tidy(&mut self) -> Result<(), Failed<Stop>>
        ensures { Led result self.old self.new (served.tidies self.old) }
    {
        let master = self.newest();
        self.make_quieted(Step::Sync { master })?;
        let master = self.newest();
        self.make_quieted(Step::Collect { master })
    }

    // The newest master is stopped, another one recovers its partition, and the client asks for the configuration.
    fn replace_master(&mut self) -> Result<(), Failed<Stop>>
        ensures { Led result self.old self.new (served.replaces_master self.old) }
    {
        let node = NodeId::master(self.newest());
        self.make(Step::Stop { node })?;
        self.make_quieted(Step::Recover {
            part: 1,
            backup: 1,
            witness: 1,
        })?;
        self.make_quieted(Step::Fetch { client: 1 })
    }

    // The number of the adopted master.
    fn newest(&self) -> u32
        ensures { result ≡ served.newest self.now }
    {
        match self.cluster.config().parts.as_slice() {
            [entry, ..] => entry.master.number,
            [] => 0,
        }
    }

    // Makes a step, and every message is delivered.
    fn make_quieted(&mut self, step: Step) -> Result<(), Failed<Stop>>
        ensures { Led result self.old self.new (served.with_quieting step self.old) }
    {
        self.make(step)?;
        self.quiet()
    }

    // Every message that wasn't delivered comes to its addressee, in rising number, until none is left.
    fn quiet(&mut self) -> Result<(), Failed<Stop>>
        ensures { Led result self.old self.new (served.quiets self.old) }
    {
        'messages: while self.is_busy() {
            self.deliver_next()?;
        }
        Ok(())
    }

    // Whether some message isn't delivered.
    fn is_busy(&self) -> bool
        ensures busy { result ≡ served.is_busy self.now }
        ensures few { length self.now.steps ≤ served.most_steps }
        ensures free { self.now.stopped ≡ None }
    {
        self.delivered < self.cluster.message_count()
    }

    fn deliver_next(&mut self) -> Result<(), Failed<Stop>>
        ensures { Led result self.old self.new (served.delivers self.old) }
    {
        let message = self.delivered + 1;
        self.make(Step::Deliver { message })?;
        self.delivered = message;
        Ok(())
    }

    // Makes a step, unless it would be one too many or all messages weigh too much.
    fn make(&mut self, step: Step) -> Result<(), Failed<Stop>>
        ensures { Led result self.old self.new (served.makes step self.old) }
    {
        if self.steps.len() as u64 == STEP_LIMIT {
            return Err(Failed::Because(Stop::TooManySteps));
        }
        curp_law_steps::only_the_named_node_moves();
        self.steps.reserve(1)?;
        let outcome = self.cluster.step(&step)?;
        if let StepResult::Full { weight } = outcome.result {
            return Err(Failed::Because(Stop::TooLarge { weight }));
        }
        push(&mut self.steps, step);
        if let Some(completed) = outcome.completed {
            self.answer = Some(completed.answer);
        }
        Ok(())
    }
}

// Adds a step, for which there is room.
fn push(steps: &mut Vec<Step>, step: Step)
    requires { vec_len steps.old < vec_capacity steps.old }
    ensures { steps.new.items ≡ steps.old.items ++ step ∷ [] }
{
    match steps.push(step) {
        Ok(()) => {}
        Err(_) => unreachable!(),
    }
}

// Whether the number of commands is a multiple of the other, which isn't 0.
fn is_turn(every: u64, commands: u64) -> bool
    ensures { result ≡ is_turn every commands }
{
    every != 0 && commands % every == 0
}

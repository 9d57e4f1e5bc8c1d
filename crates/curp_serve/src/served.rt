ghost use Rattle.std.specs.Prelude.{◌≡◌, ◌≢◌, ◌≤◌, ◌++◌, ◌↔◌, ◌∷◌, [], List, false, length, None, Err, IfOk};
ghost use Rattle.std.specs.Prelude.{IsErr, IsTrue};
ghost use Rattle.curp_base.specs.Words.{Each, IsPrefix};
ghost use Rattle.curp_cmd.specs.declared.command.Answer.{Answer};
ghost use Rattle.curp_cmd.specs.declared.command.Command.{Command};
ghost use Rattle.curp_law_served.specs.Served.{answer_behind, answered, header_of, in_turn};
ghost use Rattle.curp_model.specs.World.{world};
ghost use Rattle.curp_msg.specs.Script.{IsRun};
ghost use Rattle.curp_msg.specs.Limits.{step_limit};
ghost use Rattle.curp_script.specs.Printed.{NamesNode};
ghost use Rattle.curp_serve.specs.Ended.{limit_of};
ghost use Rattle.curp_serve.specs.Serving.{LedBy, answer_in, begins, limit_in, next};

use crate::stepper::{Stepper, Stop};
use curp_base::{Failed, NoMemory};
use curp_cmd::laws::names_one_to_four_keys;
use curp_cmd::{Answer, Command};
use curp_msg::{Header, Protocol, Step};
use std::alloc::Global;
use std::marker::Model;
use thiserror::Error;

/// Why a command isn't served to its end. The answer is there where the command was completed before that.
#[derive(Clone, Copy, PartialEq, Eq, Debug, Error)]
pub enum ServeError {
    /// The next step would be the 200,001st.
    #[error("the next step would be the 200,001st")]
    TooManySteps { answer: Option<Answer> },
    /// No node gets anything more, since all messages weigh more than 2,000,000: this much.
    #[error("the messages weigh {weight}, which is more than 2,000,000")]
    TooLarge { weight: u64, answer: Option<Answer> },
    /// There was no memory left.
    #[error("out of memory")]
    NoMemory,
}

/// A cluster that serves commands, one after the other.
pub struct Served {
    header: Header,
    every: u64,
    stepper: Stepper,
    // Why it serves no command any more.
    stop: Option<Failed<Stop>>,
}

impl Drop for Served {
    fn drop(self) {
        let Served {
            header: _,
            every: _,
            stepper: _,
            stop: _,
        } = self;
    }
}

impl Model for Served {
    ghost use Rattle.curp_serve.specs.Serving.{IsServing, Serving, serving};

    ghost Value = { Serving };

    ghost view = { λ s. serving s.header s.every s.stepper s.stop };

    ghost invariant = { λ s. IsServing s.header s.every s.stepper s.stop };
}

impl Served {
    /// A cluster of one client, one partition, and so many backups and witnesses. After each of `every` commands its
    /// partition is recovered; it never is where that is 0.
    pub fn begin(alloc: Global, f: u32, every: u64) -> Result<Served, NoMemory>
        requires some { 1 ≤ f }
        requires few { f ≤ 5 }
        ensures ok { IfOk result (λ served. served ≡ begins f every) }
        ensures no_command { IfOk result (LedBy []) }
    {
        let header = Header {
            clients: 1,
            f,
            fast: true,
            parts: 1,
            protocol: Protocol::One,
            sets: 64,
            ways: 4,
        };
        Ok(Served {
            header,
            every,
            stepper: Stepper::begin(alloc, &header)?,
            stop: None,
        })
    }

    /// The header of the script that its steps are.
    pub fn header(&self) -> &Header
        ensures { result.now ≡ header_of self.now.f }
    {
        &self.header
    }

    /// The steps that were made so far.
    pub fn steps(&self) -> &[Step]
        ensures steps { result.now ≡ self.now.state.steps }
        ensures few { length result.now ≤ step_limit }

        // With the header they are a script, which can be printed. Its run leads to the same world, and shows each
        // command completed before the next one begins, with the answer of one thread.
        ensures run { IsRun (header_of self.now.f) result.now }
        ensures named { Each NamesNode result.now }
        ensures world { (commands : List Command) → LedBy commands self.now
            → world (header_of self.now.f) result.now ≡ self.now.state.world }
        ensures history { (commands : List Command) → LedBy commands self.now → self.now.state.stopped ≡ None
            → (world (header_of self.now.f) result.now).history ≡ in_turn (answered commands) }
    {
        curp_law_served::served();
        self.stepper.steps()
    }

    /// Whether a command was refused. Then none can be served any more.
    pub fn is_spent(&self) -> bool
        ensures { result ≡ self.now.is_spent }
    {
        self.stop.is_some()
    }

    /// Serves a command: it makes its steps, up to a limit. Running out of memory may come behind any of them.
    pub fn serve(&mut self, command: Command) -> Result<Answer, ServeError>
        requires { self.old.is_spent ≡ false }
        ensures limit { result ≢ Err ServeError.NoMemory → limit_in result ≡ (next self.old command).stopped }
        ensures answer { result ≢ Err ServeError.NoMemory → answer_in result ≡ (next self.old command).answer }
        ensures state { result ≢ Err ServeError.NoMemory → self.new.state ≡ next self.old command }

        // Of the steps of the command the first ones are made, behind those before them.
        ensures grows { IsPrefix self.old.state.steps self.new.state.steps }
        ensures prefix { IsPrefix self.new.state.steps (next self.old command).steps }
        ensures spent { IsTrue self.new.is_spent ↔ IsErr result }
        ensures f { self.new.f ≡ self.old.f }
        ensures every { self.new.every ≡ self.old.every }

        // Behind commands it has served this one too, with the answer of one thread.
        ensures served { (commands : List Command) → LedBy commands self.old → result ≢ Err ServeError.NoMemory
            → LedBy (commands ++ command ∷ []) self.new }
        ensures one_thread { (commands : List Command) (answer : Answer) → LedBy commands self.old
            → answer_in result ≡ Some answer → answer ≡ answer_behind commands command }

        // The run of its steps shows the commands before it, each completed before the next, and it too where there is
        // an answer.
        ensures keeps { (commands : List Command) → LedBy commands self.old → result ≢ Err ServeError.NoMemory
            → IsPrefix (in_turn (answered commands)) (world (header_of self.new.f) self.new.state.steps).history }
        ensures shows { (commands : List Command) (answer : Answer) → LedBy commands self.old
            → answer_in result ≡ Some answer → (world (header_of self.new.f) self.new.state.steps).history
            ≡ in_turn (answered (commands ++ command ∷ [])) }
    {
        names_one_to_four_keys(&command);
        curp_law_served::served();
        let ended = self.stepper.serve(self.every, &command);
        let answer = self.stepper.answer();
        if let Err(stop) = ended {
            self.stop = Some(stop);
            return Err(refusal(stop, answer));
        }
        match answer {
            Some(answer) => Ok(answer),
            // Each command is completed by its steps.
            None => unreachable!(),
        }
    }
}

// What a stop is to a caller, and what is known of the answer by then.
fn refusal(stop: Failed<Stop>, answer: Option<Answer>) -> ServeError
    ensures limit { limit_in (Err result) ≡ limit_of stop }
    ensures answer { result ≢ ServeError.NoMemory → answer_in (Err result) ≡ answer }
    ensures no_memory { (result ≡ ServeError.NoMemory) ↔ (stop ≡ Failed.NoMemory) }
{
    match stop {
        Failed::NoMemory => ServeError::NoMemory,
        Failed::Because(Stop::TooManySteps) => ServeError::TooManySteps { answer },
        Failed::Because(Stop::TooLarge { weight }) => ServeError::TooLarge { weight, answer },
    }
}

//! Commands that the whole cluster serves, one after the other: each is invoked, and then message after message is
//! delivered until none is left; after every sixteenth follow a round and a collection, and after each of a given
//! number a recovery. Every command is completed by its quieting, with the answer of one thread, whatever recoveries
//! lie between. There is no code here: a law is the contract of a function with nothing in it, and a caller has the law
//! by the call.
//!
//! `specs/Served.antt` says which steps are made, and is all that one reads to believe it: `serve`, and `after`, the
//! state behind commands. The laws of `quiet` carry it. `proofs/Followed.antt` has what served runs keep
//! beside what every script keeps, with `RoundsRise`, `Managers` and `Clients` for one input; `Grounding` and `Renewing`
//! give the laws of quieting what they take, with `Bounds`, `Welcomes` and `Owning`; `Made` says that no step is
//! refused but for weight, `Calm` and `Recovery` what a step leaves of the world, `History` of the history, `Turns` and
//! `Commands` of the parts of a command; `InTurn` and `Answers` have the answers from the order, `Laws` all commands.
#![tactic(auto)]

pub mod quiet;

ghost use Rattle.std.specs.Prelude.{◌≡◌, ℕ, List, [], ◌∷◌, ◌++◌, Some, None};
ghost use Rattle.curp_base.specs.Words.{Each, IsPrefix};
ghost use Rattle.curp_cmd.specs.Store.{NamesKey};
ghost use Rattle.curp_cmd.specs.declared.command.Answer.{Answer};
ghost use Rattle.curp_cmd.specs.declared.command.Command.{Command};
ghost use Rattle.curp_msg.specs.Script.{IsRun};
ghost use Rattle.curp_model.specs.World.{order, world};
ghost use Rattle.curp_law_served.specs.Served.{AreServed, StopsMaster, after, answer_behind, answered, header_of, in_turn, requests, serve};

/// Every command is completed by its quieting, with the answer of one thread, and the steps are a script that shows it,
/// also where a limit came behind the answer.
pub fn served()
    ensures steps { (f every : ℕ) (commands : List Command) → AreServed f commands
        → IsRun (header_of f) (after f every commands).steps
        × (world (header_of f) (after f every commands).steps ≡ (after f every commands).world) }
    ensures stops { (f every : ℕ) (commands : List Command) → AreServed f commands
        → Each StopsMaster (after f every commands).steps }
    ensures history { (f every : ℕ) (commands : List Command) → AreServed f commands
        → (after f every commands).stopped ≡ None
        → (after f every commands).world.history ≡ in_turn (answered commands) }
    ensures order { (f every : ℕ) (commands : List Command) → AreServed f commands
        → (after f every commands).stopped ≡ None → order (after f every commands).world ≡ requests commands }
    ensures pushes { (f every : ℕ) (commands : List Command) (command : Command)
        → (after f every commands).stopped ≡ None
        → after f every (commands ++ command ∷ []) ≡ serve every command (after f every commands) }
    ensures completes { (f every : ℕ) (commands : List Command) (command : Command) → AreServed f commands
        → NamesKey command → (after f every commands).stopped ≡ None
        → (serve every command (after f every commands)).stopped ≡ None
        → (serve every command (after f every commands)).answer ≡ Some (answer_behind commands command) }
    ensures answers { (f every : ℕ) (commands : List Command) (command : Command) → AreServed f commands
        → NamesKey command → (after f every commands).stopped ≡ None
        → (a : Answer) → (serve every command (after f every commands)).answer ≡ Some a
        → a ≡ answer_behind commands command }
    ensures keeps { (f every : ℕ) (commands : List Command) (command : Command) → AreServed f commands
        → NamesKey command → (after f every commands).stopped ≡ None
        → IsPrefix (in_turn (answered commands)) (serve every command (after f every commands)).world.history }
    ensures shows { (f every : ℕ) (commands : List Command) (command : Command) → AreServed f commands
        → NamesKey command → (after f every commands).stopped ≡ None
        → (a : Answer) → (serve every command (after f every commands)).answer ≡ Some a
        → (serve every command (after f every commands)).world.history
        ≡ in_turn (answered (commands ++ command ∷ [])) }
{}

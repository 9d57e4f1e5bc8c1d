//! What one step of any world may change, and why a step isn't made; and, in `trip`, what one round trip of single nodes
//! completes. There is no code here: a law is the contract of a function with nothing in it, and a caller has the law by
//! the call.
//!
//! `proofs/Events`, `Moving` and `Results` are of a step; `Verdicts` is of a witness's answers, `Trips` of a trip, with
//! `AnyOrder`, `Orders`, `Searches`, `Inputs` and `Deliveries` for answers that come in any order; `Numbers` and `Apart`
//! are of the premises that stay, `Opening` of those that an opening meets.
#![tactic(auto)]

pub mod trip;

ghost use Rattle.std.specs.Prelude.{◌≡◌, ◌≢◌, ◌↔◌, ◌+◌, ◌<◌, ◌≤◌, ℕ, length, true, Some};
ghost use Rattle.curp_base.specs.Words.{numbered};
ghost use Rattle.curp_cmd.specs.declared.node.NodeKind.TheVariants.{Client, Master, Backup, Witness};
ghost use Rattle.curp_cmd.specs.declared.node.NodeKind.TheVariants as kind;
ghost use Rattle.curp_law_steps.specs.Named.{IsSpared, StopsNone};
ghost use Rattle.curp_model.specs.Backup.{BackupState};
ghost use Rattle.curp_model.specs.Causes.{IsLight, IsRunning, IsSent, IsThere, SparesManager};
ghost use Rattle.curp_model.specs.Client.{ClientState};
ghost use Rattle.curp_model.specs.Recovery.{MasterStage};
ghost use Rattle.curp_model.specs.Witness.{WitnessState};
ghost use Rattle.curp_model.specs.World.{World, deed_of, is_lost, is_too_much, names_nobody, names_stopped, refusal, result_of, step, stops_manager, weight};
ghost use Rattle.curp_msg.specs.Limits.{weight_limit};
ghost use Rattle.curp_msg.specs.declared.outcome.StepResult.TheVariants.{Done, NoMessage, NoNode, Manager, Gone, Full, Refused};
ghost use Rattle.curp_msg.specs.declared.script.Step.{Step};

/// A step changes the node that it gives an input, and no other that is there, in any world. Fresh nodes may come with the
/// manager's steps. Only a stop stops, and what wasn't done changes nothing.
pub fn only_the_named_node_moves()
    ensures clients { (w : World) (s : Step) (n : ℕ) (x : ClientState) → IsSpared w s Client n
        → numbered w.clients n ≡ Some x → numbered (step w s).world.clients n ≡ Some x }
    ensures masters { (w : World) (s : Step) (n : ℕ) (x : MasterStage) → IsSpared w s Master n
        → numbered w.masters n ≡ Some x → numbered (step w s).world.masters n ≡ Some x }
    ensures backups { (w : World) (s : Step) (n : ℕ) (x : BackupState) → IsSpared w s Backup n
        → numbered w.backups n ≡ Some x → numbered (step w s).world.backups n ≡ Some x }
    ensures witnesses { (w : World) (s : Step) (n : ℕ) (x : WitnessState) → IsSpared w s Witness n
        → numbered w.witnesses n ≡ Some x → numbered (step w s).world.witnesses n ≡ Some x }
    ensures manager { (w : World) (s : Step) → ((n : ℕ) → IsSpared w s kind.Manager n)
        → (step w s).world.manager ≡ w.manager }
    ensures stopped { (w : World) (s : Step) → StopsNone s → (step w s).world.stopped ≡ w.stopped }
    ensures refused { (w : World) (s : Step) → (step w s).outcome.result ≢ Done → (step w s).world ≡ w }
{}

/// Why a step isn't made: its first cause in this order, and each exactly where that cause holds. Where none does, it is made.
pub fn results_have_causes()
    ensures result { (w : World) (s : Step) → (step w s).outcome.result ≡ result_of w s }
    ensures no_message { (w : World) (s : Step) → (result_of w s ≡ NoMessage) ↔ (is_lost w s ≡ true) }
    ensures no_node { (w : World) (s : Step) → (result_of w s ≡ NoNode) ↔ (IsSent w s × (names_nobody w s ≡ true)) }
    ensures manager { (w : World) (s : Step) → (result_of w s ≡ Manager) ↔ (IsThere w s × (stops_manager s ≡ true)) }
    ensures gone { (w : World) (s : Step) → (result_of w s ≡ Gone) ↔ (SparesManager w s × (names_stopped w s ≡ true)) }
    ensures full { (w : World) (s : Step) (much : ℕ) → (result_of w s ≡ Full much)
        ↔ (IsRunning w s × (is_too_much w (deed_of w s) ≡ true) × (much ≡ weight w)) }
    ensures refused { (w : World) (s : Step) (number : ℕ) → (result_of w s ≡ Refused number)
        ↔ (IsLight w s × (refusal w s ≢ 0) × (number ≡ refusal w s)) }
    ensures done { (w : World) (s : Step) → (result_of w s ≡ Done) ↔ (IsLight w s × (refusal w s ≡ 0)) }
{}

/// A world whose messages weigh more than the limit stands still: no step but a stop changes it, and one that isn't refused for
/// another cause is refused with that weight.
pub fn full_changes_nothing()
    ensures world { (w : World) (s : Step) → weight_limit < weight w → StopsNone s → (step w s).world ≡ w }
    ensures result { (w : World) (s : Step) → weight_limit < weight w → StopsNone s
        → (step w s).outcome.result ≢ NoMessage → (step w s).outcome.result ≢ NoNode → (step w s).outcome.result ≢ Gone
        → (step w s).outcome.result ≡ Full (weight w) }
{}

/// A step adds one event at most to what clients saw, in any world: what is invoked doesn't complete in that step.
pub fn a_step_is_one_event()
    ensures { (w : World) (s : Step) → length (step w s).world.history ≤ length w.history + 1 }
{}

//! What the journals of nodes show, merged by their stamps, is a run of the world. There is no code here: a law is the
//! contract of a function with nothing in it, and a caller has the law by the call.
//!
//! - `legal_steps_are_a_run`: where each step does what its turn says by the messages that the turns before it sent
//!   (`Legal`), what was sent weighs no more than the limit, and each journal is one of its node's machine from the
//!   state in which the world makes that node, a fresh node takes a message first, and the manager doesn't stop, then
//!   the world makes each step, and its messages and completions are the journals'. Lists alone are asked of, and no
//!   world is run. `nodes_begin_by_the_header` and `journals_of_a_kind_are_journals` lead to its premises.
//!   `runs_show_their_journals`: the orders that a journal took are those that the script gives, and what completed in
//!   a journal completes in the run.
#![tactic(auto)]

ghost use Rattle.std.specs.Prelude.{◌≡◌, ℕ, ◌<◌, List, Some, length};
ghost use Rattle.curp_base.specs.Words.{At, Each, numbered};
ghost use Rattle.curp_cmd.specs.Node.{backup_node, client_node, manager_node, master_node, witness_node};
ghost use Rattle.curp_cmd.specs.declared.command.RequestId.{RequestId};
ghost use Rattle.curp_journal.specs.Journal.{IsJournal};
ghost use Rattle.curp_journal.specs.declared.item.Item.{Item};
ghost use Rattle.curp_law_weave.specs.NodeStates.{ABackup, AClient, AManager, AMaster, AWitness, machine_of};
ghost use Rattle.curp_law_weave.specs.Openings.{ComesAs, OpensAs, numbered_machine};
ghost use Rattle.curp_law_weave.specs.Run.{IsCompletedBy, Legal, RunOf, StopsEnded};
ghost use Rattle.curp_model.specs.Backup.{BackupState, backup_input, fresh_backup};
ghost use Rattle.curp_model.specs.Client.{ClientState, client_input};
ghost use Rattle.curp_model.specs.Manager.{ManagerState, manager_input};
ghost use Rattle.curp_model.specs.Recovery.{Fresh, MasterStage, master_input};
ghost use Rattle.curp_model.specs.Witness.{WitnessState, fresh_witness, witness_input};
ghost use Rattle.curp_model.specs.World.{opening};
ghost use Rattle.curp_msg.specs.Moved.{Node};
ghost use Rattle.curp_msg.specs.declared.script.Header.{Header};
ghost use Rattle.curp_msg.specs.declared.script.Step.{Step};
ghost use Rattle.curp_journal.specs.Turns.{Journal, Placed};
ghost use Rattle.curp_journal.specs.Work.{IsCompletedIn, invocations, invoked_in, recoveries, recoveries_in};

/// Steps that have the turns of journals in an order that is legal as lists are a run of the journals.
pub fn legal_steps_are_a_run()
    ensures run { (journals : List Journal) (h : Header) (ss : List Step) (placed : List Placed)
        → Legal journals h ss placed → RunOf journals h ss placed }
{}

/// How a node begins: as the world of the header has it before any step, or fresh where it isn't there.
pub fn nodes_begin_by_the_header()
    ensures clients { (h : Header) (n : ℕ) (c : ClientState) → numbered (opening h).clients n ≡ Some c
        → OpensAs h (client_node n) (AClient c) }
    ensures manager { (h : Header) → OpensAs h manager_node (AManager (opening h).manager) }
    ensures masters { (h : Header) (n : ℕ) (m : MasterStage) → numbered (opening h).masters n ≡ Some m
        → OpensAs h (master_node n) (AMaster m) }
    ensures backups { (h : Header) (n : ℕ) (b : BackupState) → numbered (opening h).backups n ≡ Some b
        → OpensAs h (backup_node n) (ABackup b) }
    ensures witnesses { (h : Header) (n : ℕ) (x : WitnessState) → numbered (opening h).witnesses n ≡ Some x
        → OpensAs h (witness_node n) (AWitness x) }
    ensures fresh_masters { (h : Header) (n : ℕ) → length (opening h).masters < n
        → ComesAs h (master_node n) (AMaster Fresh) }
    ensures fresh_backups { (h : Header) (n : ℕ) → length (opening h).backups < n
        → ComesAs h (backup_node n) (ABackup fresh_backup) }
    ensures fresh_witnesses { (h : Header) (n : ℕ) → length (opening h).witnesses < n
        → ComesAs h (witness_node n) (AWitness (fresh_witness h.sets h.ways)) }
{}

/// A journal of a node by the machine of its own kind is one by the machine of all kinds.
pub fn journals_of_a_kind_are_journals()
    ensures clients { (c : Node ClientState) (items : List Item) → IsJournal (numbered_machine client_input) c items
        → IsJournal (machine_of (client_node c.number)) (AClient c.state) items }
    ensures manager { (g : ManagerState) (items : List Item) → IsJournal manager_input g items
        → IsJournal (machine_of manager_node) (AManager g) items }
    ensures masters { (m : Node MasterStage) (items : List Item) → IsJournal (numbered_machine master_input) m items
        → IsJournal (machine_of (master_node m.number)) (AMaster m.state) items }
    ensures backups { (b : Node BackupState) (items : List Item) → IsJournal (numbered_machine backup_input) b items
        → IsJournal (machine_of (backup_node b.number)) (ABackup b.state) items }
    ensures witnesses { (x : Node WitnessState) (items : List Item)
        → IsJournal (numbered_machine witness_input) x items
        → IsJournal (machine_of (witness_node x.number)) (AWitness x.state) items }
{}

/// A run shows what its journals hold: the orders that came, and what completed; and it stops only nodes whose journals have
/// a last stop.
pub fn runs_show_their_journals()
    ensures invocations { (journals : List Journal) (h : Header) (ss : List Step) (placed : List Placed)
        → RunOf journals h ss placed → (k n : ℕ) (j : Journal) → At journals k j → j.id ≡ client_node n
        → invocations n ss ≡ invoked_in j.items }
    ensures recoveries { (journals : List Journal) (h : Header) (ss : List Step) (placed : List Placed)
        → RunOf journals h ss placed → (k : ℕ) (j : Journal) → At journals k j → j.id ≡ manager_node
        → recoveries ss ≡ recoveries_in j.items }
    ensures completed { (journals : List Journal) (h : Header) (ss : List Step) (placed : List Placed)
        → RunOf journals h ss placed → (k : ℕ) (j : Journal) (id : RequestId) → At journals k j
        → IsCompletedIn j.items id → IsCompletedBy h ss id }
    ensures stopped { (journals : List Journal) (h : Header) (ss : List Step) (placed : List Placed)
        → RunOf journals h ss placed → Each (StopsEnded journals) ss }
{}

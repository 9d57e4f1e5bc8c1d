//! What holds after every step of every script: recoveries, replacements, migrations, collections, expiries and reads
//! among its steps, superseded masters that go on, and steps that are refused. There is no code here: a law is the
//! contract of a function with nothing in it, and a caller has the law by the call.
//!
//! Their proofs go from any one pair of a backup and a witness of an adopted list, which is enough to recover from
//! (`specs/Along.antt` has what is found along the chain of adopted lists), by the ways of migrations, each of which goes
//! from one partition to one other, is taken once and given once.
#![tactic(auto)]

ghost use Rattle.std.specs.Prelude.{◌≡◌, ℕ, List, Some, false, true};
ghost use Rattle.curp_base.specs.Words.{At, Each, numbered};
ghost use Rattle.curp_cmd.specs.Store.{is_update};
ghost use Rattle.curp_cmd.specs.declared.command.Answer.{Answer};
ghost use Rattle.curp_cmd.specs.declared.command.Command.{Command};
ghost use Rattle.curp_cmd.specs.declared.command.RequestId.{RequestId};
ghost use Rattle.curp_facts.specs.ByOne.{ByOne};
ghost use Rattle.curp_facts.specs.Facts.{Completable, PairsGood};
ghost use Rattle.curp_facts.specs.Kept.{FactsKept};
ghost use Rattle.curp_facts.specs.Nodes.{ValueWasSent, WasRead};
ghost use Rattle.curp_msg.specs.Script.{IsRun, IsStep};
ghost use Rattle.curp_facts.specs.Silence.{IsSilentIn};
ghost use Rattle.curp_facts.specs.Fits.{GoesHome, IsBetweenNodes};
ghost use Rattle.curp_law_steps.specs.Trip.{BringsApart, WitnessesAreApart};
ghost use Rattle.curp_model.specs.Client.{ClientState};
ghost use Rattle.curp_model.specs.World.{messages, shape_of, step, world};
ghost use Rattle.curp_msg.specs.declared.script.Header.{Header};
ghost use Rattle.curp_msg.specs.declared.script.Protocol.TheVariants.{One};
ghost use Rattle.curp_msg.specs.declared.script.Step.{Step};
ghost use Rattle.curp_order.specs.declared.Event.TheVariants.{Complete, Invoke};

/// From any one backup and any one witness of an adopted list everything can be recovered that completed, or that may
/// still complete: it stands in the backup's log, or the witness holds it and the replay has it with that answer. Stopped
/// nodes count by their last state (CURP).
pub fn pairs_good()
    ensures pairs { (h : Header) (steps : List Step) → IsRun h steps → PairsGood (world h steps) }
{}

/// What each message says stays true, and what each node keeps: lists and names, migrations, what witnesses hold, logs,
/// backups, masters, early replies, collections, first numbers and adoptions. How many backups and witnesses a list has,
/// and how many partitions there are, is as the header says.
pub fn facts_kept()
    ensures facts { (h : Header) (steps : List Step) → IsRun h steps → FactsKept (world h steps) }
    ensures shape { (h : Header) (steps : List Step) → IsRun h steps → (world h steps).manager.shape ≡ shape_of h }
{}

/// The witnesses of each partition are different nodes, in the configuration that a client has, and in each that a message
/// brings: what an update needs for its one round trip, for clients of every script.
pub fn known_witnesses_differ()
    ensures known { (h : Header) (steps : List Step) → IsRun h steps → (n : ℕ) (c : ClientState)
        → numbered (world h steps).clients n ≡ Some c → WitnessesAreApart c.config }
    ensures brought { (h : Header) (steps : List Step) → IsRun h steps
        → Each (λ m. BringsApart m.body) (messages (world h steps)) }
{}

/// In a script of protocol 1 nobody asks for an answer at once, and none is given.
pub fn only_protocol_one()
    ensures one { (h : Header) (steps : List Step) → IsRun h steps → h.protocol ≡ One → ByOne (world h steps) }
{}

/// What a client has completed was completable: an update by a synced reply, or by an early one with the accepts of all
/// witnesses of its list; a read had its value sent, or, in protocol 2 alone, was answered at once by the master of a list of
/// which each witness said Live.
pub fn completed_is_completable()
    ensures update { (h : Header) (steps : List Step) → IsRun h steps
        → (i j : ℕ) (id : RequestId) (command : Command) (a : Answer)
        → At (world h steps).history i (Invoke id command) → is_update command ≡ true
        → At (world h steps).history j (Complete id a) → (part : ℕ) × Completable (world h steps) part id a }
    ensures read { (h : Header) (steps : List Step) → IsRun h steps
        → (i j : ℕ) (id : RequestId) (command : Command) (a : Answer)
        → At (world h steps).history i (Invoke id command) → is_update command ≡ false
        → At (world h steps).history j (Complete id a) → WasRead (world h steps) id a }
    ensures value { (h : Header) (steps : List Step) → IsRun h steps → h.protocol ≡ One
        → (i j : ℕ) (id : RequestId) (command : Command) (a : Answer)
        → At (world h steps).history i (Invoke id command) → is_update command ≡ false
        → At (world h steps).history j (Complete id a) → ValueWasSent (world h steps) id a }
{}

/// Each message goes from one node of the world to another, and what is answered to a client is about a request of that
/// client.
pub fn only_sent_to_nodes()
    ensures between { (h : Header) (steps : List Step) → IsRun h steps
        → Each (IsBetweenNodes (world h steps)) (messages (world h steps)) }
    ensures home { (h : Header) (steps : List Step) → IsRun h steps
        → Each (λ m. GoesHome m.to m.body) (messages (world h steps)) }
{}

/// While it switches to new lists, a master sends no reply, no value, no collection and nothing of a migration, and its log
/// gets nothing but expiries.
pub fn silent_while_switching()
    ensures silent { (h : Header) (steps : List Step) → IsRun h steps → (s : Step) → IsStep s
        → IsSilentIn (world h steps) (step (world h steps) s).world }
{}

//! The order that the world shows is one of the history, after every step of every script: recoveries, replacements,
//! migrations, collections, expiries and reads among its steps, superseded masters that go on, and steps that are
//! refused. There is no code here: a law is the contract of a function with nothing in it, and a caller has the law by
//! the call.
//!
//! The order stands over a small machine of adopted logs, superseded logs, the migration in work, marks and history; its
//! laws are those of `line`. Each step of the world is told as moves of it in `specs/Refined.antt`, and what a world
//! keeps of the order and of reads in `specs/Ordered.antt`.
//!
//! Of the world, `proofs/Masters*` have what a master pushes and captures, `Managers*`, `Adopt` and the files `AdoptDone`,
//! `AdoptHeld`, `AdoptLeft`, `AdoptMigrations` and `AdoptRecovery` migrations and adoptions, `Cut*`, `OpenedCuts` and
//! `Left` marks of adoptions and superseded logs, `Reads*` looks, captures and values, `QuickLater`, `QuickPlaces`,
//! `QuickReads`, `QuickSteps` and `LivesEarly` reads that are answered at once, `*Refine` what else is moves, `Always` and
//! `Runs` the induction, `KeptWorld`, `KeptStores`, `KeptOwners`, `KeptReads`, `KeptQuicks` and `Statements` what the laws
//! say of a world.
//!
//! Of the machine, `proofs/Pushes`, `Ops`, `Takes`, `ToldTakes`, `GivePushes`, `Expiries`, `Invocations` and `Completions`
//! have what its moves keep of the order, `Adopted*`, `Adopting`, `Adoptions`, `Carried` and `Requests` what an adoption
//! does, `Hashes`, `Grounds`, `Owners`, `Owning`, `OwnedValues`, `Spans` and `Migrations` each hash and who owns it,
//! `Looks*`, `Puts`, `Values` and `ReadsKept` reads, `Lates`, `QuickBegins`, `QuickLaws`, `QuickRuns`, `QuickWas`,
//! `Quicks*` and `LateRead` those that are answered at once; `Lines` has the equation at a hash, `Keeps`, `UpdatesKept` and
//! `Orders` all moves, `Openings` the opening, `Histories`, `Growing` and `Stores` what follows for order and history.
#![tactic(auto)]

pub mod line;

ghost use Rattle.std.specs.Prelude.{List};
ghost use Rattle.curp_facts.specs.Kept.{Kept, LateRepliesAgree, QuicksMarked, ValuesMarked};
ghost use Rattle.curp_msg.specs.Script.{IsRun, IsStep};
ghost use Rattle.curp_law_linear.specs.Line.{StandsIn};
ghost use Rattle.curp_law_linear.specs.Grows.{completed_in_order};
ghost use Rattle.curp_model.specs.World.{order, step, world};
ghost use Rattle.curp_msg.specs.declared.script.Header.{Header};
ghost use Rattle.curp_msg.specs.declared.script.Step.{Step};
ghost use Rattle.curp_order.specs.Order.{IsHistory, IsOrder};

/// What clients saw is a history: a request is invoked at most once, and completes at most once, after that.
pub fn history_stands()
    ensures history { (h : Header) (steps : List Step) → IsRun h steps → IsHistory (world h steps).history }
{}

/// The order that the world shows is an order of the history: linearizability.
pub fn order_stands()
    ensures order { (h : Header) (steps : List Step) → IsRun h steps
        → IsOrder (world h steps).history (order (world h steps)) }
{}

/// What a client may still complete with, by messages under way, agrees with the order: each such update stands in it
/// with that answer; of each value that was sent, and of each read that was answered at once, the mark is kept, and one
/// thread gives that answer there.
pub fn late_replies_agree()
    ensures update { (h : Header) (steps : List Step) → IsRun h steps → LateRepliesAgree (world h steps) }
    ensures value { (h : Header) (steps : List Step) → IsRun h steps → ValuesMarked (world h steps) }
    ensures quick { (h : Header) (steps : List Step) → IsRun h steps → QuicksMarked (world h steps) }
{}

/// The completed requests of the order before a step stand, in that order, among those after it.
pub fn order_grows()
    ensures grows { (h : Header) (steps : List Step) → IsRun h steps → (s : Step) → IsStep s
        → StandsIn (completed_in_order (world h steps)) (completed_in_order (step (world h steps) s).world) }
{}

/// All that is kept: good pairs and the facts of logs and nodes; each hash is owned once or on its way; the stores of
/// the partitions together are that of one thread over the order; each value that was sent has its mark, and each
/// capture that waits has its mark or was passed by; late replies agree with the order; each read that was answered at
/// once has its mark, and what it saw is stored; and a witness that an adopted recovery named has called itself live
/// only before.
pub fn kept_stands()
    ensures kept { (h : Header) (steps : List Step) → IsRun h steps → Kept (world h steps) }
{}

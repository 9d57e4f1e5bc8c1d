//! A world that is led to quiet: message after message is delivered, until none is on its way. Then no request pends,
//! in whatever order they came while a master serves, and in rising number while a partition is recovered.
//!
//! The laws are of a world with one fast client of protocol 1 and one partition, of which `specs/Grounds.antt` and the
//! end of `specs/Renews.antt` say what is taken from every script; `served` shows it. Nothing is said of what
//! witnesses hold or of the order of deliveries. `specs/Ways.antt` has, for each thing that somebody waits for, the
//! message that will bring it on: it is on its way, or what it does is done. `specs/Calm.antt` has a world that serves,
//! `specs/Renews.antt` one that is recovered, `specs/Learns.antt` the client's configuration.
//!
//! `proofs/Ways.antt`, `RoundsWait`, `Settles`, `Updates`, `Serving` have what a master leaves on its way, `Keepers` what
//! backups and witnesses answer, `Pending`, `ClientsHear`, `Asked` what becomes of a request, `Recovers` and `Adopts` what
//! a recovery leaves; `Steps`, `Fits`, `Kept`, `Starts`, `Ends` and `Renew*` say it of a world.

ghost use Rattle.std.specs.Prelude.{◌≡◌, ◌≤◌, ◌<◌, ◌-◌, ◌^◌, ℕ, suc, true, [], ◌∷◌, length};
ghost use Rattle.curp_base.specs.Words.{At};
ghost use Rattle.curp_cmd.specs.Hash.{hashes};
ghost use Rattle.curp_cmd.specs.declared.command.Command.{Command};
ghost use Rattle.curp_msg.specs.declared.config.PartConfig.{PartConfig};
ghost use Rattle.curp_msg.specs.declared.message.Message.{Message};
ghost use Rattle.curp_msg.specs.declared.outcome.StepResult.TheVariants.{Done};
ghost use Rattle.curp_msg.specs.declared.script.Protocol.TheVariants.{One};
ghost use Rattle.curp_msg.specs.declared.script.Step.TheVariants as steps;
ghost use Rattle.curp_model.specs.Client.{ClientState};
ghost use Rattle.curp_model.specs.Master.{MasterState};
ghost use Rattle.curp_model.specs.Ranges.{owns_all};
ghost use Rattle.curp_model.specs.World.{World, messages, step};
ghost use Rattle.curp_law_served.specs.Calm.{Calm};
ghost use Rattle.curp_law_served.specs.Grounds.{Grounds, IsCalm};
ghost use Rattle.curp_cmd.specs.declared.node.NodeId.{NodeId};
ghost use Rattle.curp_model.specs.Manager.{recover_order};
ghost use Rattle.curp_msg.specs.declared.body.Recover.{Recover};
ghost use Rattle.curp_law_served.specs.Renews.{CanRecover, IsRenewed, RenewGrounds, Renewing, renewed};
ghost use Rattle.curp_law_served.specs.Learns.{ClientLearns, IsBehindEntry};

/// A calm world stays calm by each delivery, and by each step that begins something; and where every message is
/// delivered, no request pends.
pub fn quiet_worlds_complete()
    ensures delivers { (w : World) (done : ℕ) (x : Message) → At (messages w) done x
        → (step w (steps.Deliver (suc done))).outcome.result ≡ Done
        → (c : PartConfig) (q : ℕ) (m : MasterState) (cl : ClientState) → Calm w done c q m cl → Grounds w done c m cl
        → IsCalm (step w (steps.Deliver (suc done))).world (suc done) c q }
    ensures invokes { (w : World) (done : ℕ) (command : Command) → done ≤ length (messages w)
        → (step w (steps.Invoke 1 command)).outcome.result ≡ Done
        → (c : PartConfig) (q : ℕ) (m : MasterState) (cl : ClientState) → Calm w done c q m cl
        → cl.pending ≡ [] → cl.config.parts ≡ c ∷ []
        → cl.last < 2 ^ 32 - 1 → owns_all c.ranges (hashes command) ≡ true
        → IsCalm (step w (steps.Invoke 1 command)).world done c q }
    ensures syncs { (w : World) (done : ℕ) → done ≤ length (messages w)
        → (c : PartConfig) (q : ℕ) (m : MasterState) (cl : ClientState) → Calm w done c q m cl → Grounds w done c m cl
        → (step w (steps.Sync q)).outcome.result ≡ Done
        → IsCalm (step w (steps.Sync q)).world done c q }
    ensures collects { (w : World) (done : ℕ) → done ≤ length (messages w)
        → (c : PartConfig) (q : ℕ) (m : MasterState) (cl : ClientState) → Calm w done c q m cl → Grounds w done c m cl
        → (step w (steps.Collect q)).outcome.result ≡ Done
        → IsCalm (step w (steps.Collect q)).world done c q }
    ensures fetches { (w : World) (done : ℕ) → done ≤ length (messages w)
        → (c : PartConfig) (q : ℕ) (m : MasterState) (cl : ClientState) → Calm w done c q m cl
        → (step w (steps.Fetch 1)).outcome.result ≡ Done
        → IsCalm (step w (steps.Fetch 1)).world done c q }
    ensures at_end { (w : World) (c : PartConfig) (q : ℕ) (m : MasterState) (cl : ClientState)
        → Calm w (length (messages w)) c q m cl → 1 ≤ length m.backups → cl.pending ≡ [] }
{}

/// A world in which a partition is recovered stays so by each delivery in rising number; and where every message is
/// delivered, the fresh master is adopted, serves, and waits for nothing.
pub fn recoveries_finish()
    ensures begins { (w : World) (c : PartConfig) (from other : NodeId) → CanRecover w c from other
        → (cl : ClientState) → w.clients ≡ cl ∷ [] → (step w (steps.Recover 1 1 1)).outcome.result ≡ Done
        → Renewing (step w (steps.Recover 1 1 1)).world (length (messages w)) c w.manager.next.master
        (recover_order w.manager c from other) cl }
    ensures delivers { (w : World) (done : ℕ) (x : Message) → At (messages w) done x
        → (step w (steps.Deliver (suc done))).outcome.result ≡ Done
        → (c : PartConfig) (q : ℕ) (o : Recover) (cl : ClientState) → Renewing w done c q o cl → RenewGrounds w done q o
        → Renewing (step w (steps.Deliver (suc done))).world (suc done) c q o cl }
    ensures at_end { (w : World) (c : PartConfig) (q : ℕ) (o : Recover) (cl : ClientState)
        → Renewing w (length (messages w)) c q o cl → IsRenewed w c q o }
    ensures calm { (w : World) (c : PartConfig) (q : ℕ) (o : Recover) (re : IsRenewed w c q o) (cl : ClientState)
        → w.clients ≡ cl ∷ [] → cl.fast ≡ true → cl.protocol ≡ One → cl.pending ≡ []
        → Calm w (length (messages w)) (renewed c q o) q re.m cl }
{}

/// A client that has asked for the configuration has the present entry once every message is delivered.
pub fn configurations_come()
    ensures delivers { (w : World) (done : ℕ) (x : Message) → At (messages w) done x
        → (step w (steps.Deliver (suc done))).outcome.result ≡ Done
        → (c : PartConfig) (q : ℕ) (m : MasterState) (cl : ClientState) → Calm w done c q m cl → Grounds w done c m cl
        → IsBehindEntry w c cl
        → ClientLearns w done c → ClientLearns (step w (steps.Deliver (suc done))).world (suc done) c }
    ensures at_end { (w : World) (c : PartConfig) (cl : ClientState) → w.clients ≡ cl ∷ []
        → ClientLearns w (length (messages w)) c → cl.config.parts ≡ c ∷ [] }
{}

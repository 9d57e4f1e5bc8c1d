//! Laws of single nodes, of logs and of replays. Each is the contract of a function that does nothing, and a caller has it
//! by calling that function.
ghost use Rattle.std.specs.Prelude.{◌≡◌, ◌≢◌, ◌<◌, ◌≤◌, ◌↔◌, ℕ, true, List, ◌∷◌, ◌++◌, Some};
ghost use Rattle.std.specs.List.{IsDistinct};
ghost use Rattle.std.specs.List.Sorted.{IsPermutation};
ghost use Rattle.curp_base.specs.Words.{At, IsPrefix};
ghost use Rattle.curp_cmd.specs.declared.command.Answer.{Answer};
ghost use Rattle.curp_cmd.specs.declared.command.Request.{Request};
ghost use Rattle.curp_cmd.specs.declared.command.RequestId.{RequestId};
ghost use Rattle.curp_cmd.specs.declared.entry.Entry.{Entry};
ghost use Rattle.curp_cmd.specs.declared.migration.Package.{Package};
ghost use Rattle.curp_cmd.specs.declared.node.NodeId.{NodeId};
ghost use Rattle.curp_msg.specs.declared.body.Append.{Append as Appending};
ghost use Rattle.curp_msg.specs.declared.body.Body.{Body};
ghost use Rattle.curp_msg.specs.declared.body.Body.TheVariants.{Append, Freeze};
ghost use Rattle.curp_model.specs.declared.Check.TheVariants.{Known};
ghost use Rattle.curp_model.specs.declared.Mode.TheVariants.{Frozen};
ghost use Rattle.curp_model.specs.Backup.{BackupState, on_backup};
ghost use Rattle.curp_model.specs.Laws.{IsTaken, IsStillKnown, clash, IsAlike};
ghost use Rattle.curp_model.specs.Log.{IsDone, IsLog, meaning, answer_after, package_eq};
ghost use Rattle.curp_model.specs.Recovery.{replay, replays};
ghost use Rattle.curp_model.specs.Table.{check};
ghost use Rattle.curp_model.specs.Witness.{WitnessState, on_witness};

use curp_cmd::laws::apart_commute;

/// A frozen witness stands: no message changes it. And what a witness holds when it is frozen, it holds for good.
pub fn frozen_witness_stands()
    ensures stands { (n : ℕ) (w : WitnessState) (from : NodeId) (message : Body) → w.mode ≡ Frozen
        → (on_witness n w from message).state ≡ w }
    ensures freezes { (n : ℕ) (w : WitnessState) (from : NodeId) (epoch : ℕ)
        → (on_witness n w from (Freeze epoch)).state.mode ≡ Frozen }
    ensures keeps { (n : ℕ) (w : WitnessState) (from : NodeId) (epoch : ℕ)
        → (on_witness n w from (Freeze epoch)).state.held ≡ w.held }
{}

/// A backup only grows: whatever comes, its log begins with what it was, its fence doesn't fall, and it stays installed at
/// its epoch. An append below its fence changes nothing, and only an append that it takes changes its log.
pub fn backup_only_grows()
    ensures log { (n : ℕ) (b : BackupState) (from : NodeId) (message : Body)
        → IsPrefix b.log (on_backup n b from message).state.log }
    ensures fence { (n : ℕ) (b : BackupState) (from : NodeId) (message : Body)
        → b.fence ≤ (on_backup n b from message).state.fence }
    ensures installed { (n : ℕ) (b : BackupState) (from : NodeId) (message : Body) (epoch : ℕ)
        → b.installed ≡ Some epoch
        → (on_backup n b from message).state.installed ≡ Some epoch }
    ensures fenced { (n : ℕ) (b : BackupState) (from : NodeId) (append : Appending) → append.epoch < b.fence
        → (on_backup n b from (Append append)).state ≡ b }
    ensures taken { (n : ℕ) (b : BackupState) (from : NodeId) (message : Body)
        → (on_backup n b from message).state.log ≢ b.log → IsTaken b message }
{}

/// As a log grows, what is known stays known, with its answer and its place, until its client acknowledges it or is gone.
/// It is never new again.
pub fn known_stays_known()
    ensures { (lo hi : ℕ) (before after : List Entry) (id : RequestId) (a : Answer) (index : ℕ)
        → IsLog lo hi (before ++ after)
        → check (meaning lo hi before).table id ≡ Known a index
        → IsStillKnown a index (check (meaning lo hi (before ++ after)).table id) }
{}

/// The order of a replay's requests tells nothing, where no two have one id or conflict: whether one is replayed doesn't
/// depend on the others, and each that is replayed is answered once, as it would be behind the log alone. So two neighbours
/// may be exchanged, and all may be rearranged, and the answers and the store are the same, also where the replay skips some.
pub fn replay_in_any_order()
    ensures alone { (lo hi : ℕ) (log : List Entry) (rs : List Request) (k : ℕ) (r : Request) (a : Answer)
        → IsDistinct clash rs → At rs k r
        → replays (meaning lo hi log) r ≡ true
        → IsDone lo hi (replay lo hi log rs) r.id a ↔ (a ≡ answer_after lo hi log r.command) }
    ensures exchanged { (lo hi : ℕ) (log : List Entry) (rs ss : List Request) (x y : Request)
        → IsDistinct clash (rs ++ x ∷ y ∷ ss)
        → IsAlike lo hi (replay lo hi log (rs ++ x ∷ y ∷ ss)) (replay lo hi log (rs ++ y ∷ x ∷ ss)) }
    ensures rearranged { (lo hi : ℕ) (log : List Entry) (rs ss : List Request)
        → IsDistinct clash rs → IsPermutation rs ss
        → IsAlike lo hi (replay lo hi log rs) (replay lo hi log ss) }
{
    apart_commute();
}

/// The test of packages, by which a list is a log, tells whether two are one.
pub fn same_packages()
    ensures { (a b : Package) → (package_eq a b ≡ true) ↔ (a ≡ b) }
{}

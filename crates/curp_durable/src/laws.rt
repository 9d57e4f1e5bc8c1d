//! Laws of journals. Each is the contract of a function that does nothing: a caller has it by calling that function.
ghost use Rattle.std.specs.Prelude.{◌≡◌, ℕ, Bool, List};
ghost use Rattle.curp_base.specs.declared.failed.Failed.{Failed};
ghost use Rattle.curp_disk.specs.Calls.{seen_of};
ghost use Rattle.curp_disk.specs.InMemory.{StopParts, crashed};
ghost use Rattle.curp_journal.specs.declared.arrived.Arrived.{Arrived};
ghost use Rattle.curp_durable.specs.Journal.{HoldsJournal, HoldsUpTo, IsDamaged, IsSettled};
ghost use Rattle.curp_durable.specs.Opening.{Exists, IsOnlyCause, LedTo, OpensNot};
ghost use Rattle.curp_durable.specs.Standing.{Standing};
ghost use Rattle.curp_durable.specs.Stopping.{IsStopped, StopLeaves, kept_commit, kept_inputs, stop_seen};
ghost use Rattle.curp_durable.specs.declared.error.OpenError.{OpenError};

use curp_msg::Core;

/// Bytes are one journal of a title at most: of one list of inputs.
pub fn bytes_are_one_journal()
    ensures { (content title : List ℕ) (inputs others : List Arrived) → HoldsJournal content title inputs
        → HoldsJournal content title others → inputs ≡ others }
{}

/// A journal isn't damaged, and has its title.
pub fn a_journal_is_whole()
    ensures { (content title : List ℕ) (inputs : List Arrived) → HoldsJournal content title inputs
        → Exists content title }
{}

/// What is damaged is so at one place.
pub fn damage_has_one_place()
    ensures { (content title : List ℕ) (place other : ℕ) → IsDamaged content title place
        → IsDamaged content title other → place ≡ other }
{}

/// Where one cause why there is no journal holds, no other does.
pub fn a_cause_excludes_others()
    ensures { (content title : List ℕ) (error : Failed OpenError) → OpensNot content title error
        → IsOnlyCause content title error }
{}

/// On a disk that was armed at one of the four calls that keep a batch, and so stopped there, a crash leaves a journal:
/// with all of the batch exactly where that was the last of them, and the unsynced writes are kept.
pub fn a_stopped_batch_is_kept_or_lost<N: Core>()
    ensures { (old new : StopParts) (stand : Standing N) (commit k : ℕ) (title : List ℕ) (opening : N)
        (inputs batch : List Arrived) (unsynced : Bool)
        → IsSettled N.machine stop_seen StopLeaves old stand commit title opening inputs
        → IsStopped old new commit k batch
        → HoldsUpTo (seen_of (crashed unsynced new.played)) title (kept_inputs inputs batch k unsynced)
        (kept_commit commit batch k unsynced) }
{}

/// On such a disk a crash leaves what led the node to where it stood before the batch: its journal can be opened from a
/// checkpoint that was taken then.
pub fn a_stopped_batch_leaves_what_was<N: Core>()
    ensures { (old new : StopParts) (stand : Standing N) (commit k : ℕ) (title : List ℕ) (opening : N)
        (inputs batch : List Arrived) (unsynced : Bool)
        → IsSettled N.machine stop_seen StopLeaves old stand commit title opening inputs
        → IsStopped old new commit k batch
        → LedTo N.machine (seen_of (crashed unsynced new.played)) title opening
        (record { stand = stand; commit = commit }) }
{}

//! Laws of what a log means. Each is the contract of a function that does nothing, and a caller has it by calling that
//! function.
ghost use Rattle.std.specs.Prelude.{◌≡◌, ◌≢◌, ◌&&◌, ℕ, List, [], ◌∷◌, ◌++◌, length};
ghost use Rattle.curp_base.specs.Words.{Each};
ghost use Rattle.curp_cmd.specs.declared.command.Request.{Request};
ghost use Rattle.curp_cmd.specs.declared.command.RequestId.{RequestId};
ghost use Rattle.curp_cmd.specs.declared.entry.Entry.{Entry};
ghost use Rattle.curp_cmd.specs.declared.entry.Entry.TheVariants.{Op};
ghost use Rattle.curp_model.specs.declared.Check.TheVariants.{New};
ghost use Rattle.curp_model.specs.Log.{after_entry, fits_at, is_log, meaning, IsOp};
ghost use Rattle.curp_model.specs.Table.{check};

/// What an entry more means behind a log, and that it is a log where the entry fits.
pub fn entry_more()
    ensures meaning { (lo hi : ℕ) (log : List Entry) (entry : Entry)
        → meaning lo hi (log ++ entry ∷ []) ≡ after_entry (meaning lo hi log) (length log) entry }
    ensures fits { (lo hi : ℕ) (log : List Entry) (entry : Entry)
        → is_log lo hi (log ++ entry ∷ []) ≡ (is_log lo hi log && fits_at (meaning lo hi log) entry) }
    ensures ops { (log : List Entry) (entry : Entry) → Each IsOp log → IsOp entry → Each IsOp (log ++ entry ∷ []) }
{}

/// What isn't new is never new again, whatever comes behind. An Op that has come isn't new.
pub fn seen_stays_seen()
    ensures stays { (lo hi : ℕ) (log more : List Entry) (id : RequestId)
        → check (meaning lo hi log).table id ≢ New → check (meaning lo hi (log ++ more)).table id ≢ New }
    ensures comes { (lo hi : ℕ) (log : List Entry) (request : Request) (acknowledged : ℕ)
        → check (meaning lo hi (log ++ Op request acknowledged ∷ [])).table request.id ≢ New }
{}

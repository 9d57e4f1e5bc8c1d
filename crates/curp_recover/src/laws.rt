//! What is proved of every recovery. A law is the contract of a function with nothing in it, and a caller has it by the
//! call.
ghost use Rattle.std.specs.Prelude.{◌≡◌, ℕ, true, false, List, [], ◌∷◌, ◌++◌};
ghost use Rattle.curp_base.specs.Words.{Each};
ghost use Rattle.curp_cmd.specs.Node.{manager_node};
ghost use Rattle.curp_cmd.specs.declared.command.Request.{Request};
ghost use Rattle.curp_cmd.specs.declared.entry.Entry.{Entry};
ghost use Rattle.curp_model.specs.Log.{is_log};
ghost use Rattle.curp_model.specs.Recovery.{Fresh, Recovering, RecoveryState, Replayed, Storing, appends_whole, fence_of};
ghost use Rattle.curp_model.specs.Recovery.{freeze_of, master_input, on_master, recovered_message};
ghost use Rattle.curp_msg.specs.declared.body.Body.TheVariants as body;
ghost use Rattle.curp_msg.specs.declared.body.Recover.{Recover};
ghost use Rattle.curp_msg.specs.Input.{Input};
ghost use Rattle.curp_recover.specs.Reports.{IsLastStored, IsReport, IsWhole, StoredAnswer, after_stored, all_stored};
ghost use Rattle.curp_recover.specs.Reports.{answered, log_answer, ordered, replayed_log, stored_answer};

/// A recovery whose named backup and witness answer, and whose fresh backups all store, reports to the manager in the
/// step in which the last of them says so, and not before. It asks both at its order; with the second answer, in either
/// order, the replayed log goes to each fresh backup. Whatever else comes while it stores, as a sync, a client's request
/// or what a backup has of a part, it reports at the last backup's word for the whole log, and at nothing else.
pub fn recovery_reports()
    ensures asks { (n : ℕ) (o : Recover)
        → (on_master n Fresh manager_node (body.Recover o)).messages ≡ fence_of n o ++ freeze_of n o }
    ensures stores { (n : ℕ) (o : Recover) (epoch : ℕ) (entries : List Entry) (requests : List Request)
        → is_log o.lo o.hi entries ≡ true
        → (on_master n (on_master n (ordered n o) o.backup (log_answer epoch entries)).state o.witness
        (body.FrozenAnswer requests)).messages ≡ appends_whole n o (replayed_log o entries requests) o.backups }
    ensures either { (n : ℕ) (o : Recover) (epoch : ℕ) (entries : List Entry) (requests : List Request)
        → is_log o.lo o.hi entries ≡ true
        → on_master n (on_master n (ordered n o) o.witness (body.FrozenAnswer requests)).state o.backup
        (log_answer epoch entries)
        ≡ on_master n (on_master n (ordered n o) o.backup (log_answer epoch entries)).state o.witness
        (body.FrozenAnswer requests) }
    ensures waits { (n : ℕ) (o : Recover) (epoch : ℕ) (entries : List Entry) (requests : List Request)
        (answers : List StoredAnswer) (next : StoredAnswer)
        → is_log o.lo o.hi entries ≡ true → Each (IsWhole o entries requests) (answers ++ next ∷ [])
        → all_stored o (answers ++ next ∷ []) ≡ false
        → (on_master n (after_stored n (answered n o epoch entries requests) answers) next.backup
        (stored_answer next)).messages ≡ [] }
    ensures reports { (n : ℕ) (o : Recover) (epoch : ℕ) (entries : List Entry) (requests : List Request)
        (answers : List StoredAnswer) (last : StoredAnswer)
        → is_log o.lo o.hi entries ≡ true → Each (IsWhole o entries requests) (answers ++ last ∷ [])
        → all_stored o answers ≡ false → all_stored o (answers ++ last ∷ []) ≡ true
        → (on_master n (after_stored n (answered n o epoch entries requests) answers) last.backup
        (stored_answer last)).messages ≡ recovered_message n o }
    ensures at_last { (n : ℕ) (s : RecoveryState) (r : Replayed) (given : Input) → s.phase ≡ Storing r
        → IsLastStored s.order r given
        → (master_input n (Recovering s) given).messages ≡ recovered_message n s.order }
    ensures at_nothing_else { (n : ℕ) (s : RecoveryState) (r : Replayed) (given : Input) → s.phase ≡ Storing r
        → (IsLastStored s.order r given → ⊥)
        → Each (λ m. IsReport m → ⊥) (master_input n (Recovering s) given).messages }
{}

//! Laws of what is kept of a log. Each is the contract of a function that does nothing, and a caller has it by calling
//! that function.
ghost use Rattle.std.specs.Prelude.{◌≡◌, ℕ, ◌<◌, ◌≤◌, nat_le, List, [], ◌++◌, length, drop, filter};
ghost use Rattle.std.specs.List.{list_any};
ghost use Rattle.curp_base.specs.Words.{Each};
ghost use Rattle.curp_cmd.specs.declared.command.Command.{Command};
ghost use Rattle.curp_cmd.specs.declared.entry.Entry.{Entry};
ghost use Rattle.curp_model.specs.Log.{entry_touches, is_touched};
ghost use Rattle.curp_cmd.specs.Hash.{hashes};
ghost use Rattle.curp_tail.specs.Tail.{is_dirty, tail_from, tail_of, touched_of, touches};

/// What is kept of a log tells of the entries that aren't synced what they themselves tell.
pub fn tail_tells_of_log()
    ensures entry { (entry : Entry) (hash : ℕ) → touches (touched_of entry) hash ≡ entry_touches entry hash }
    ensures hash { (log : List Entry) (synced hash : ℕ)
        → is_dirty (tail_of log synced) hash ≡ list_any (λ entry. entry_touches entry hash) (drop synced log) }
    ensures command { (log : List Entry) (synced : ℕ) (command : Command)
        → list_any (is_dirty (tail_of log synced)) (hashes command) ≡ is_touched (drop synced log) command }
{}

/// A tail follows its log. Where all is synced it is empty. Its entries stand below the log's length, so entries that
/// come behind the log can be added, and then it is the longer log's tail. Without those below a length it is the tail
/// of the log that is synced so far.
pub fn tail_follows_log()
    ensures empty { (log : List Entry) → tail_of log (length log) ≡ [] }
    ensures below { (log : List Entry) (synced : ℕ) → Each (λ entry. entry.index < length log) (tail_of log synced) }
    ensures added { (log entries : List Entry) (synced : ℕ) → synced ≤ length log
        → tail_of log synced ++ tail_from (length log) entries ≡ tail_of (log ++ entries) synced }
    ensures forgotten { (log : List Entry) (synced next : ℕ) → synced ≤ next
        → filter (λ entry. nat_le next entry.index) (tail_of log synced) ≡ tail_of log next }
{}

//! The order of the requests over a small machine: adopted logs, superseded logs, the migration in work, marks and history,
//! and what its moves keep.
//!
//! The machine has no node and no message: it is in `specs/Line.antt`, and its fifteen moves in `specs/Moves.antt`. What
//! they keep is, among the rest, that the order that the marks show is one of the history. A read that is answered at once
//! has a quick mark: at the end of the marks where its master is adopted, and before the mark of the adoption that
//! superseded the master where it isn't.

ghost use Rattle.std.specs.Prelude.{◌≡◌, ◌⊎◌, List, [], ◌∷◌, ℕ, ◌+◌};
ghost use Rattle.curp_cmd.specs.declared.command.Answer.{Answer};
ghost use Rattle.curp_cmd.specs.declared.command.Command.{Command};
ghost use Rattle.curp_cmd.specs.declared.command.RequestId.{RequestId};
ghost use Rattle.curp_law_linear.specs.Given.{LogsOk};
ghost use Rattle.curp_law_linear.specs.LateRead.{begin, late_moves, reading, writing};
ghost use Rattle.curp_law_linear.specs.Laws.{AdoptedReads, CutsByNumber, KeepsLow, LateEarly, LateGives, LateReads, MarksCome, MarksGo, NextAtEnd, QuickBegins, QuickLasts, ReadsFit};
ghost use Rattle.curp_law_linear.specs.Line.{CutEarly, LineState, LineOk, LookGives, StandsIn, WasInvoked, completed_order};
ghost use Rattle.curp_model.specs.Marks.{adoptions, shown};
ghost use Rattle.curp_law_linear.specs.Moves.{Adopt, Fits, IsDropped, LineMove, adopting, after, AllFit, all_after};
ghost use Rattle.curp_msg.specs.declared.machine.Capture.{Capture};
ghost use Rattle.curp_order.specs.Order.{IsOrder};

/// Each move keeps the facts.
pub fn each_move_keeps()
    ensures { (s : LineState) (m : LineMove) → Fits s m → LogsOk s.parts → LineOk s → LineOk (after s m) }
{}

/// And so does a list of moves.
pub fn all_moves_keep()
    ensures { (s : LineState) (ms : List LineMove) → AllFit LogsOk s ms → LineOk s → LineOk (all_after s ms) }
{}

/// What the order shows is an order of the history, and completed requests stay in it in their order.
pub fn order_stands()
    ensures order { (s : LineState) → LineOk s → IsOrder s.history (shown s.marks) }
    ensures grows { (s : LineState) (m : LineMove) → Fits s m → LogsOk s.parts → LineOk s
        → StandsIn (completed_order s) (completed_order (after s m)) }
{}

/// Each mark after a move was there before it, or came with it; and one that no adoption drops is there afterwards. With it go
/// what it gives, what stands uncompleted before it, and what is flagged behind it.
pub fn marks_move()
    ensures back { MarksCome }
    ensures forth { MarksGo }
{}

/// A look gives at its mark what it gave, unless an adoption drops it.
pub fn looks_last()
    ensures { (s : LineState) (m : LineMove) → Fits s m → LogsOk s.parts → LineOk s
        → (by : Capture) (part long : ℕ) (id : RequestId) (a : Answer)
        → LookGives s.marks by part long id a
        → LookGives (after s m).marks by part long id a ⊎ IsDropped m part long }
{}

/// A quick mark gives for good what the log gave, at an adopted master and at a superseded one.
pub fn quick_marks_give()
    ensures begins { QuickBegins }
    ensures late { LateGives }
    ensures lasts { QuickLasts }
    ensures low { KeepsLow }
{}

/// A request that was invoked before an adoption, is early at a quick mark that comes before that adoption's mark.
pub fn early_reads()
    ensures begins { (s : LineState) (o : Adopt) (id : RequestId) (command : Command)
        → CutEarly (adopting s o) o.part (adoptions o.part s.marks + 1) id command }
    ensures lasts { (s : LineState) (m : LineMove) → Fits s m → LogsOk s.parts → LineOk s
        → (part number : ℕ) (id : RequestId) (command : Command) → WasInvoked s.history id command
        → CutEarly s part number id command → CutEarly (after s m) part number id command }
    ensures late { LateEarly }
{}

/// A read that was answered at once may complete by its mark, whatever moves came between: at an adopted master, and at a
/// superseded one, where it was invoked before the adoption that superseded it.
pub fn quick_reads_complete()
    ensures adopted { AdoptedReads }
    ensures late { LateReads }
    ensures fits { ReadsFit }
{}

/// A late mark comes before the mark of an adoption by its number.
pub fn adoptions_have_marks()
    ensures there { CutsByNumber }
    ensures next { NextAtEnd }
{}

/// A late read can be, by moves: it completes behind an update that completed at the adopted master, and stands before it.
pub fn late_read_can_be()
    ensures fit { (key value : List ℕ) → AllFit LogsOk (begin key) (late_moves key value) }
    ensures order { (key value : List ℕ) → shown (all_after (begin key) (late_moves key value)).marks
        ≡ (reading, Command.Get key) ∷ (writing, Command.Put key value) ∷ [] }
{}

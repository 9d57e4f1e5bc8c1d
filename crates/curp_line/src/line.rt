ghost use Rattle.std.specs.Prelude.{◌≡◌, ◌+◌, ◌<◌, ◌≤◌, ◌^◌, [], ◌∷◌, ◌++◌, false, length, max, filter, not, IfOk, OnOk};
ghost use Rattle.curp_model.specs.Marks.{adopted, adoptions, cut_mark, executed, flagged, has_completed, is_cut};
ghost use Rattle.curp_model.specs.Marks.{is_dropped, looked, quick, replayed_marks, shown, with_quick};

use crate::cuts::Cuts;
use crate::mark::{KeptMark, MarkPlace};
use crate::slot::in_order;
use crate::slots::MarkSlots;
use crate::term::Term;
use curp_base::{NoMemory, Shared};
use curp_cmd::{KeptCommand, Request, RequestId, Standby};
use curp_msg::Completed;
use std::alloc::Global;
use std::marker::Model;

/// The marks of which the order that the world shows is made, in that order: an update's at its index in a log, a read's
/// at a capture or where it was answered at once, and an adoption's. Contracts see them, how many slots or adoptions are
/// held, for how many more there is room, and for how many in the list or map that has the most of it.
///
/// The marks of requests and those of adoptions are kept apart, in the order in which they came. A mark of a request
/// tells how many of the adoptions it stands behind, so that one which comes late, before an adoption, moves no other
/// (this project's own choice). A mark that an adoption drops leaves its place behind, so the memory taken is that of all
/// marks that ever came.
pub struct Line {
    alloc: Global,
    slots: MarkSlots,
    cuts: Cuts,
}

impl Drop for Line {
    fn drop(self) {
        let Line {
            alloc: _,
            slots: _,
            cuts: _,
        } = self;
    }
}

impl Model for Line {
    ghost use Rattle.std.specs.Prelude.{length, max, min};
    ghost use Rattle.curp_base.specs.Words.{Each};
    ghost use Rattle.curp_line.specs.Content.{Marking};
    ghost use Rattle.curp_line.specs.Slots.{StandsWithin, marks_from};

    ghost Value = { Marking };

    ghost view = { λ l. record {
      marks = marks_from 0 l.cuts.cuts l.slots.slots;
      held = max (length l.slots.slots) (length l.cuts.cuts);
      spare = min l.slots.spare l.cuts.spare;
      most = max l.slots.most l.cuts.most;
    } };

    ghost invariant = { λ l. Each (StandsWithin (length l.cuts.cuts)) l.slots.slots };
}

impl Line {
    /// No marks. It takes no memory.
    pub fn new(alloc: Global) -> Line
        ensures marks { result.marks ≡ [] }
        ensures no_room { result.most ≡ 0 }
    {
        Line {
            alloc,
            slots: MarkSlots::new(alloc),
            cuts: Cuts::new(alloc),
        }
    }

    /// Makes room for so many more marks, or for as many as are held where that is more. There is no room for more than
    /// 9 * 2^28 requests in all. What has come is moved only when its room doubles, so it costs no more than the marks that
    /// come, taken all together.
    pub fn reserve(&mut self, marks: u64) -> Result<(), NoMemory>
        ensures marks { self.new.marks ≡ self.old.marks }
        ensures room { OnOk result (marks ≤ self.new.spare) }
        ensures kept { self.old.spare ≤ self.new.spare }
        ensures no_more { self.new.most ≤ max self.old.most (max marks self.old.held) }
    {
        self.slots.reserve(marks as usize)?;
        self.cuts.reserve(marks as usize)
    }

    /// Adds the mark of an update that the master pushed, at its index in the log. It takes no memory, since there is
    /// room, and looks at no other mark.
    pub fn executed(&mut self, term: Term, index: u64, id: RequestId, command: KeptCommand)
        requires { 1 ≤ self.old.spare }
        ensures marks { self.new.marks
            ≡ self.old.marks ++ executed term.master term.part term.epoch index id command ∷ [] }
        ensures spare { self.old.spare ≤ self.new.spare + 1 }
    {
        let place = MarkPlace::Executed { index };
        self.push(KeptMark::new(term, place, id, command));
    }

    /// Adds the mark of a read whose value the master captured, when its log had that length. It takes no memory, since
    /// there is room, and looks at no other mark.
    pub fn looked(
        &mut self,
        term: Term,
        capture: u64,
        length: u64,
        id: RequestId,
        command: KeptCommand,
    )
        requires { 1 ≤ self.old.spare }
        ensures marks { self.new.marks
            ≡ self.old.marks ++ looked term.master term.part term.epoch capture length id command ∷ [] }
        ensures spare { self.old.spare ≤ self.new.spare + 1 }
    {
        let place = MarkPlace::Looked { capture, length };
        self.push(KeptMark::new(term, place, id, command));
    }

    /// Adds the mark of a read that the master answered at once: before the partition's first adoption behind that of the
    /// master, and to the end where there is none. It takes no memory, since there is room, and looks at no other mark.
    pub fn quick(&mut self, term: Term, capture: u64, id: RequestId, command: KeptCommand)
        requires { 1 ≤ self.old.spare }
        ensures marks { self.new.marks
            ≡ with_quick (quick term.master term.part term.epoch capture id command) self.old.marks }
        ensures spare { self.old.spare ≤ self.new.spare + 1 }
    {
        let cuts_before = self.cuts.place_behind(term.part, term.epoch);
        let place = MarkPlace::Quick { capture };
        let mark = KeptMark::new(term, place, id, command);
        self.slots.push(mark, cuts_before);
    }

    /// Flags the mark by which a request has completed: an update's marks, or the mark of the capture whose value
    /// completed a read. It takes no memory, and looks at the marks of that request alone.
    pub fn completed(&mut self, completed: &Completed)
        ensures marks { self.new.marks ≡ flagged completed.now self.old.marks }
        ensures spare { self.new.spare ≡ self.old.spare }
    {
        self.slots.flag(completed);
    }

    /// A master is adopted for the partition, of that epoch, with the log that was recovered, whose length is the cut,
    /// and the replayed requests behind it. The partition's marks that aren't completed and didn't reach that log go, the
    /// adoption gets a mark behind what is left, and each replayed request that isn't completed one at its index in the
    /// new log. It takes no memory, since there is room, and looks at the marks of that partition and of those requests
    /// alone.
    pub fn adopted(
        &mut self,
        standby: &mut Standby,
        term: Term,
        cut: u64,
        replayed: &[Shared<Request>],
    )
        requires room { 1 + length replayed.now ≤ self.old.spare }
        requires ready { length replayed.now ≤ standby.old }
        requires fits { cut + length replayed.now < 2 ^ 64 }
        ensures marks { self.new.marks
            ≡ adopted term.master term.part term.epoch cut replayed.now self.old.marks }
        ensures spare { self.old.spare ≤ self.new.spare + 1 + length replayed.now }
    {
        self.drop_past(term.part, cut);
        self.cut(term, cut);
        self.replay(standby, term, cut, replayed);
    }

    /// The requests in the order that the world shows: all updates, and each completed read where its value was captured
    /// or where it was answered at once. It looks at all marks that ever came, and sorts what it shows.
    pub fn order(&self) -> Result<Vec<(RequestId, KeptCommand)>, NoMemory>
        ensures { IfOk result (λ order. order.items ≡ shown self.now.marks) }
    {
        let shown = self.slots.shown(self.alloc)?;
        in_order(self.alloc, shown)
    }

    fn push(&mut self, mark: KeptMark)
        requires room { 1 ≤ self.old.spare }
        requires of_request { is_cut mark.place ≡ false }
        ensures marks { self.new.marks ≡ self.old.marks ++ mark ∷ [] }
        ensures spare { self.old.spare ≤ self.new.spare + 1 }
    {
        let cuts_before = self.cuts.len();
        self.slots.push(mark, cuts_before);
    }

    fn cut(&mut self, term: Term, length: u64)
        requires { 1 ≤ self.old.spare }
        ensures marks { self.new.marks
            ≡ self.old.marks ++ cut_mark term.master term.part term.epoch (adoptions term.part self.old.marks + 1) length ∷ [] }
        ensures spare { self.old.spare ≤ self.new.spare + 1 }
    {
        self.cuts.add(term, length);
    }

    fn drop_past(&mut self, part: u32, cut: u64)
        ensures marks { self.new.marks ≡ filter (λ m. not (is_dropped part cut m)) self.old.marks }
        ensures spare { self.new.spare ≡ self.old.spare }
    {
        self.slots.drop_past(part, cut);
    }

    fn replay(&mut self, standby: &mut Standby, term: Term, cut: u64, replayed: &[Shared<Request>])
        requires room { length replayed.now ≤ self.old.spare }
        requires ready { length replayed.now ≤ standby.old }
        requires fits { cut + length replayed.now < 2 ^ 64 }
        ensures marks { self.new.marks
            ≡ replayed_marks term.master term.part term.epoch cut replayed.now self.old.marks }
        ensures spare { self.old.spare ≤ self.new.spare + length replayed.now }
    {
        for (at, request) in replayed.iter().enumerate() {
            if !self.has_completed(&request.id) {
                let index = cut + at as u64;
                self.executed(term, index, request.id, standby.keep(request));
            }
        }
    }

    fn has_completed(&self, id: &RequestId) -> bool
        ensures { result ≡ has_completed self.now.marks id.now }
    {
        self.slots.has_completed(id)
    }
}

ghost use Rattle.std.specs.Prelude.{◌≡◌, true, false};
ghost use Rattle.curp_model.specs.Marks.{is_dropped, is_flagged, is_shown};
ghost use Rattle.curp_line.specs.Standing.{place_of};

use crate::term::Term;
use curp_cmd::{KeptCommand, RequestId};
use curp_msg::Completed;
use std::marker::Model;

/// Where a mark stands.
#[derive(Clone, Copy)]
pub enum MarkPlace {
    /// An update, at its index in a log.
    Executed { index: u64 },
    /// A read, at the capture of that number, made when the log had that length.
    Looked { capture: u64, length: u64 },
    /// A read that was answered at once, at the capture of that number.
    Quick { capture: u64 },
}

/// A mark that is kept.
#[derive(Drop)]
pub struct KeptMark {
    term: Term,
    place: MarkPlace,
    id: RequestId,
    command: KeptCommand,
    completed: bool,
}

impl Model for KeptMark {
    ghost use Rattle.curp_model.specs.Marks.{Mark};
    ghost use Rattle.curp_line.specs.Standing.{place_of};

    ghost Value = { Mark };

    ghost view = { λ m. record {
      master = m.term.master;
      part = m.term.part;
      epoch = m.term.epoch;
      place = place_of m.place;
      id = m.id;
      command = m.command;
      completed = m.completed;
    } };
}

impl KeptMark {
    /// A mark whose request hasn't completed.
    pub fn new(term: Term, place: MarkPlace, id: RequestId, command: KeptCommand) -> KeptMark
        ensures { result ≡ record {
          master = term.master;
          part = term.part;
          epoch = term.epoch;
          place = place_of place;
          id = id;
          command = command;
          completed = false;
        } }
    {
        KeptMark {
            term,
            place,
            id,
            command,
            completed: false,
        }
    }

    pub fn id(&self) -> RequestId
        ensures { result ≡ self.now.id }
    {
        self.id
    }

    pub fn part(&self) -> u32
        ensures { result ≡ self.now.part }
    {
        self.term.part
    }

    pub fn command(&self) -> &KeptCommand
        ensures { result.now ≡ self.now.command }
    {
        &self.command
    }

    /// Whether its request has completed by it.
    pub fn has_completed(&self) -> bool
        ensures { result ≡ self.now.completed }
    {
        self.completed
    }

    /// Its request has completed by it.
    pub fn complete(&mut self)
        ensures { self.new ≡ record self.old { completed = true } }
    {
        self.completed = true;
    }

    /// Whether that completion flags it.
    pub fn is_flagged(&self, completed: &Completed) -> bool
        ensures { result ≡ is_flagged completed.now completed.now.by self.now }
    {
        if self.id != completed.id {
            return false;
        }
        match (completed.by, self.place) {
            (None, MarkPlace::Executed { .. }) => true,
            (Some(by), MarkPlace::Looked { capture, .. } | MarkPlace::Quick { capture }) => {
                self.term.master == by.master && self.term.epoch == by.epoch && capture == by.number
            }
            _ => false,
        }
    }

    /// Whether it goes where that partition adopts a log that is recovered up to the cut.
    pub fn is_dropped(&self, part: u32, cut: u64) -> bool
        ensures { result ≡ is_dropped part cut self.now }
    {
        let is_past = match self.place {
            MarkPlace::Executed { index } => cut <= index,
            MarkPlace::Looked { length, .. } => cut < length,
            MarkPlace::Quick { .. } => false,
        };
        self.term.part == part && !self.completed && is_past
    }

    /// Whether the order shows it.
    pub fn is_shown(&self) -> bool
        ensures { result ≡ is_shown self.now }
    {
        self.completed || matches!(self.place, MarkPlace::Executed { .. })
    }
}

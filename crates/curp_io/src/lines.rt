ghost use Rattle.std.specs.Prelude.{◌≡◌, ◌≢◌, ◌≤◌, ◌+◌, ◌++◌, List, ℕ, [], drop, length, take, true, false, None, Some, IfOk};
ghost use Rattle.curp_io.specs.Streams.{Rose, SameCount, one_more};
ghost use Rattle.curp_io.specs.Text.{GivesLine, IsNextLine, line_of, nothing_read, number_after, repeated};

use crate::source::Source;
use crate::window::{Found, Window};
use curp_base::NoMemory;
use std::alloc::Global;
use std::marker::Model;

/// What a call of `next_line` found.
#[derive(Clone, Copy, PartialEq, Eq)]
pub enum NextLine {
    /// A line, which `text` gives.
    Line,
    /// No byte was left.
    End,
    /// The source failed.
    ReadFault,
    /// Line number `at`, from 1, has more than 65,536 bytes.
    TooLong { at: u64 },
}

/// Takes the bytes of a source apart into lines.
///
/// A line is the bytes up to a line feed, without it. The last line needs no line feed, and none follows a line feed
/// at the end. Bytes that were read ahead are kept here, so one source is to be read by one of these.
pub struct Lines {
    window: Window,
    number: u64,
    failed: Option<NextLine>,
}

impl Drop for Lines {
    fn drop(self) {
        let Lines {
            window: _,
            number: _,
            failed: _,
        } = self;
    }
}

impl Model for Lines {
    ghost use Rattle.curp_io.specs.Text.{Progress};

    ghost Value = { Progress };

    ghost view = { λ lines. record {
      ahead = lines.window.ahead;
      line = lines.window.line;
      number = lines.number;
      failed = lines.failed;
    } };
}

impl Lines {
    /// Takes a buffer of 65,537 bytes.
    pub fn new(alloc: Global) -> Result<Lines, NoMemory>
        ensures { IfOk result (λ lines. lines ≡ nothing_read) }
    {
        Ok(Lines {
            window: Window::new(alloc)?,
            number: 0,
            failed: None,
        })
    }

    /// The line that the last call of `next_line` gave. It is empty where that gave none.
    pub fn text(&self) -> &[u8]
        ensures { result.now ≡ self.now.line }
    {
        self.window.line()
    }

    /// Gives the next line of the bytes read ahead and those that the source has left. It takes no memory. A read
    /// fault and a line that is too long are answered by every later call again, which then reads nothing.
    pub fn next_line<S: Source>(&mut self, source: &mut S) -> NextLine
        ensures bytes { S.tells source.old ≡ true → self.old.failed ≡ None → IsNextLine self.old.number
            (self.old.ahead ++ S.left source.old) result self.new.line (self.new.ahead ++ S.left source.new) }
        ensures number { self.old.failed ≡ None → self.new.number ≡ number_after self.old.number result }
        ensures failed { self.old.failed ≡ None → self.new.failed ≡ repeated result }
        ensures repeats { (answer : NextLine) → self.old.failed ≡ Some answer
            → (result ≡ answer) × (self.new ≡ self.old) × (source.new ≡ source.old) }
        ensures no_text { self.old.failed ≡ None → result ≢ NextLine.Line → self.new.line ≡ [] }
        // A fault leaves less than a line read ahead.
        ensures no_feed { self.old.failed ≡ None → result ≡ NextLine.ReadFault
            → line_of self.new.ahead ≡ self.new.ahead }
        ensures tells { S.tells source.old ≡ true → S.tells source.new ≡ true }
        ensures cause { self.old.failed ≡ None → result ≡ NextLine.ReadFault
            → Rose (S.faults source.old) (S.faults source.new) }
        ensures told { result ≢ NextLine.ReadFault → SameCount (S.faults source.old) (S.faults source.new) }
        ensures never_falls { S.faults source.old ≤ S.faults source.new }
    {
        if let Some(answer) = self.failed {
            return answer;
        }
        self.window.forget_line();
        match self.window.find_line(source) {
            Found::Line(len) => {
                self.give(len);
                NextLine::Line
            }
            Found::End => NextLine::End,
            Found::ReadFault => self.fail(NextLine::ReadFault),
            Found::TooLong => self.fail(NextLine::TooLong {
                at: self.number.saturating_add(1),
            }),
        }
    }

    /// Gives the next line where its line feed is read ahead too. It has no source to ask: `next_line` gives what isn't
    /// ready.
    pub fn ready_line(&mut self) -> bool
        ensures line { (left : List ℕ) → result ≡ true
            → GivesLine (self.old.ahead ++ left) self.new.line (self.new.ahead ++ left) }
        ensures number { result ≡ true → self.new.number ≡ one_more self.old.number }
        ensures failed { self.new.failed ≡ self.old.failed }
        ensures going_on { result ≡ true → self.old.failed ≡ None }
        ensures not_ready { result ≡ false → self.old.failed ≡ None → self.new ≡ record self.old { line = [] } }
        ensures no_feed { result ≡ false → self.old.failed ≡ None → line_of self.old.ahead ≡ self.old.ahead }
        ensures repeats { (answer : NextLine) → self.old.failed ≡ Some answer
            → (result ≡ false) × (self.new ≡ self.old) }
    {
        if self.failed.is_some() {
            return false;
        }
        match self.window.ready_line() {
            Some(len) => {
                self.give(len);
                true
            }
            None => {
                self.window.forget_line();
                false
            }
        }
    }

    /// Gives the first bytes ahead as the next line, without the byte behind them.
    fn give(&mut self, len: usize)
        requires { len ≤ length self.old.ahead }
        ensures after { self.new ≡ record self.old {
          ahead = drop (len + 1) self.old.ahead;
          line = take len self.old.ahead;
          number = one_more self.old.number;
        } }
    {
        self.window.give_line(len);
        self.number = self.number.saturating_add(1);
    }

    /// Answers, now and from now on.
    fn fail(&mut self, answer: NextLine) -> NextLine
        ensures answer { result ≡ answer }
        ensures after { self.new ≡ record self.old { failed = Some answer } }
    {
        self.failed = Some(answer);
        answer
    }
}

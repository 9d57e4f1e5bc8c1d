ghost use Rattle.std.specs.Prelude.{◌≡◌, ◌≢◌, ◌≤◌, ◌<◌, ◌+◌, ◌-◌, ◌++◌, ◌==◌, ℕ, true, IfOk, IfSome, MatchOption};
ghost use Rattle.std.specs.Prelude.{List, length, take, drop, [], None, vec_len};
ghost use Rattle.std.specs.List.{between, position};
ghost use Rattle.curp_io.specs.Streams.{FitsBuffer, Rose, SameCount, Takes};
ghost use Rattle.curp_io.specs.Text.{line_of};
ghost use Rattle.curp_io.specs.Buffer.{Adds, Finds, FindsLine, IsFeedPlace, IsWithin};

use crate::source::{Source, Taken};
use curp_base::NoMemory;
use std::alloc::Global;
use std::marker::Model;

/// Room for a line of the greatest length and its line feed.
const ROOM: usize = 65_537;

/// The bytes read ahead, and the last line, in one buffer.
#[derive(Drop)]
pub(crate) struct Window {
    buffer: Vec<u8>,
    line_start: usize,
    line_end: usize,
    start: usize,
    end: usize,
}

/// What the bytes ahead and those that a source has left begin with.
#[derive(Clone, Copy)]
pub(crate) enum Found {
    /// A line of so many bytes, which are read ahead.
    Line(usize),
    /// No byte.
    End,
    /// Not known, since the source failed.
    ReadFault,
    /// A line of more than 65,536 bytes.
    TooLong,
}

impl Model for Window {
    ghost use Rattle.std.specs.Prelude.{◌≡◌, ◌≤◌, vec_len};
    ghost use Rattle.std.specs.List.{between};
    ghost use Rattle.curp_io.specs.ReadAhead.{ReadAhead};

    ghost Value = { ReadAhead };

    ghost view = { λ w. record {
      ahead = between w.start w.end w.buffer.items;
      line = between w.line_start w.line_end w.buffer.items;
    } };

    ghost invariant = { λ w. (vec_len w.buffer ≡ 65537) × (w.start ≤ w.end) × (w.end ≤ 65537)
        × (w.line_start ≤ w.line_end) × (w.line_end ≤ 65537) };
}

impl Window {
    pub(crate) fn new(alloc: Global) -> Result<Window, NoMemory>
        ensures ahead { IfOk result (λ window. window.ahead ≡ []) }
        ensures line { IfOk result (λ window. window.line ≡ []) }
    {
        Ok(Window {
            buffer: vec![in alloc; 0; ROOM]?,
            line_start: 0,
            line_end: 0,
            start: 0,
            end: 0,
        })
    }

    pub(crate) fn line(&self) -> &[u8]
        ensures { result.now ≡ self.now.line }
    {
        &self.buffer[self.line_start..self.line_end]
    }

    fn len(&self) -> usize
        ensures len { result ≡ length self.now.ahead }
        ensures room { result ≤ 65537 }
    {
        self.end - self.start
    }

    /// Gives the first bytes ahead as the line, and passes over the byte behind them, if there is one.
    pub(crate) fn give_line(&mut self, len: usize)
        requires { len ≤ length self.old.ahead }
        ensures line { self.new.line ≡ take len self.old.ahead }
        ensures ahead { self.new.ahead ≡ drop (len + 1) self.old.ahead }
    {
        self.line_start = self.start;
        self.line_end = self.start + len;
        self.start = self.end.min(self.line_end + 1);
    }

    pub(crate) fn forget_line(&mut self)
        ensures line { self.new.line ≡ [] }
        ensures ahead { self.new.ahead ≡ self.old.ahead }
    {
        self.line_start = 0;
        self.line_end = 0;
    }

    /// The place of the first line feed ahead, where none stands before `from`.
    fn line_feed(&self, from: usize) -> Option<usize>
        requires within { from ≤ length self.now.ahead }
        requires none_before { line_of (take from self.now.ahead) ≡ take from self.now.ahead }
        ensures place { MatchOption result (line_of self.now.ahead ≡ self.now.ahead) (IsFeedPlace self.now.ahead) }
        ensures room { length self.now.ahead ≤ 65537 }
    {
        let at = find_line_feed(&self.buffer[self.start + from..self.end])?;
        Some(from + at)
    }

    /// The length of the first line, where its line feed is ahead.
    pub(crate) fn ready_line(&self) -> Option<usize>
        ensures within { IfSome result (λ len. (len ≤ length self.now.ahead) × (len ≤ 65536)) }
        ensures bytes { (left : List ℕ)
            → IfSome result (FindsLine (self.now.ahead ++ left) self.now.ahead left) }
        ensures no_feed { result ≡ None → line_of self.now.ahead ≡ self.now.ahead }
    {
        self.line_feed(0)
    }

    /// Reads more bytes behind those ahead. The last line is lost.
    fn fill<S: Source>(&mut self, source: &mut S) -> Taken
        requires { length self.old.ahead < 65537 }
        ensures adds { Adds self.old.ahead self.new.ahead result }
        ensures line { self.new.line ≡ [] }
        ensures bytes { S.tells source.old ≡ true
            → self.new.ahead ++ S.left source.new ≡ self.old.ahead ++ S.left source.old }
        ensures end { S.tells source.old ≡ true → result ≡ Taken.Bytes 0 → S.left source.new ≡ [] }
        ensures tells { S.tells source.old ≡ true → S.tells source.new ≡ true }
        ensures cause { result ≡ Taken.Failed → Rose (S.faults source.old) (S.faults source.new) }
        ensures told { result ≢ Taken.Failed → SameCount (S.faults source.old) (S.faults source.new) }
        ensures never_falls { S.faults source.old ≤ S.faults source.new }
    {
        let len = self.end - self.start;
        move_to_prefix(&mut self.buffer, self.start, self.end);
        self.line_start = 0;
        self.line_end = 0;
        self.start = 0;
        self.end = len;
        let taken = take_behind(source, &mut self.buffer, len);
        if let Taken::Bytes(count) = taken {
            self.end += count;
        }
        taken
    }

    /// Finds the first line, and reads as much as that needs.
    pub(crate) fn find_line<S: Source>(&mut self, source: &mut S) -> Found
        ensures within { IsWithin result self.new.ahead }
        ensures bytes { S.tells source.old ≡ true
            → Finds (self.old.ahead ++ S.left source.old) result self.new.ahead (S.left source.new) }
        ensures line { self.old.line ≡ [] → self.new.line ≡ [] }
        ensures no_feed { result ≡ Found.ReadFault → line_of self.new.ahead ≡ self.new.ahead }
        ensures tells { S.tells source.old ≡ true → S.tells source.new ≡ true }
        ensures cause { result ≡ Found.ReadFault → Rose (S.faults source.old) (S.faults source.new) }
        ensures told { result ≢ Found.ReadFault → SameCount (S.faults source.old) (S.faults source.new) }
        ensures never_falls { S.faults source.old ≤ S.faults source.new }
    {
        let mut searched = 0;
        'fill: loop {
            if let Some(len) = self.line_feed(searched) {
                return Found::Line(len);
            }
            searched = self.len();
            if searched == ROOM {
                return Found::TooLong;
            }
            match self.fill(source) {
                Taken::Failed => return Found::ReadFault,
                Taken::Bytes(0) if searched == 0 => return Found::End,
                Taken::Bytes(0) => return Found::Line(searched),
                Taken::Bytes(_) => {}
            }
        }
    }
}

fn find_line_feed(bytes: &[u8]) -> Option<usize>
    ensures { result ≡ position (λ byte. byte == 10) bytes.now }
{
    bytes.iter().position(|byte| *byte == b'\n')
}

/// Moves a part of the buffer to its prefix, where it isn't there already.
fn move_to_prefix(buffer: &mut Vec<u8>, start: usize, end: usize)
    requires start_le_end { start ≤ end }
    requires end_in_bounds { end ≤ vec_len buffer.old }
    ensures prefix { between 0 (end - start) buffer.new.items ≡ between start end buffer.old.items }
    ensures len { vec_len buffer.new ≡ vec_len buffer.old }
{
    if start > 0 {
        buffer.copy_within(start..end, 0);
    }
}

/// Takes bytes of the source into the buffer from a place on.
fn take_behind<S: Source>(source: &mut S, buffer: &mut Vec<u8>, from: usize) -> Taken
    requires { from ≤ vec_len buffer.old }
    ensures prefix { take from buffer.new.items ≡ take from buffer.old.items }
    ensures len { vec_len buffer.new ≡ vec_len buffer.old }
    ensures fits { FitsBuffer result (drop from buffer.new.items) }
    ensures bytes { S.tells source.old ≡ true
        → Takes (S.left source.old) (S.left source.new) result (drop from buffer.new.items) }
    ensures tells { S.tells source.old ≡ true → S.tells source.new ≡ true }
    ensures cause { result ≡ Taken.Failed → Rose (S.faults source.old) (S.faults source.new) }
    ensures told { result ≢ Taken.Failed → SameCount (S.faults source.old) (S.faults source.new) }
    ensures never_falls { S.faults source.old ≤ S.faults source.new }
{
    source.take(&mut buffer[from..])
}

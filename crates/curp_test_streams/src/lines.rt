// Lines from sources that fail, or that give little at a time.
use crate::rows::must_hold;
use curp_io::{Lines, MemorySource, NextLine, Source, SureSource};
use std::alloc::Global;
use std::process::Abort;

// ---- what is called, of which the tests know nothing

fn next<S: Source>(lines: &mut Lines, source: &mut S) -> NextLine {
    lines.next_line(source)
}

pub(crate) fn fresh(rt: &impl Abort, alloc: Global) -> Lines {
    Lines::new(alloc).expect(rt, "no memory")
}

// ---- what a source gives

/// Whether the next lines are these, each with a bar behind it.
fn are_next<S: Source>(lines: &mut Lines, source: &mut S, texts: &str) -> bool {
    for text in texts.split_terminator('|') {
        if next(lines, source) != NextLine::Line || lines.text() != text.as_bytes() {
            return false;
        }
    }
    true
}

/// Whether a source has these lines, and from then on gives this answer.
pub(crate) fn gives<S: Source>(
    lines: &mut Lines,
    source: &mut S,
    texts: &str,
    last: NextLine,
) -> bool {
    let mut gives = are_next(lines, source, texts);
    for _ in 0..5 {
        gives = next(lines, source) == last && gives;
    }
    gives
}

fn sure_gives(rt: &impl Abort, alloc: Global, text: &str, texts: &str, last: NextLine) -> bool {
    let mut source = SureSource::new(alloc, text.as_bytes()).expect(rt, "no memory");
    let mut lines = fresh(rt, alloc);
    let gives = gives(&mut lines, &mut source, texts, last);
    drop(source);
    drop(lines);
    gives
}

/// The same of a source that gives pieces of this size, and fails at these calls.
fn pieces_give(
    rt: &impl Abort,
    alloc: Global,
    (text, size): (&str, usize),
    failing: &[u64],
    texts: &str,
    last: NextLine,
) -> bool {
    assert!(rt; 0 < size);
    let source = MemorySource::in_pieces(alloc, text.as_bytes(), failing, size);
    let mut source = source.expect(rt, "no memory");
    let mut lines = fresh(rt, alloc);
    let gives = gives(&mut lines, &mut source, texts, last);
    drop(source);
    drop(lines);
    gives
}

static LINES: [(&str, &str); 5] = [
    ("", ""),
    ("one", "one|"),
    ("one\n", "one|"),
    ("\n\ntwo\r\nthree", "||two\r|three|"),
    ("\n", "|"),
];

#[test]
fn pieces_of_any_size_give_the_same_lines(rt: HostRuntime) {
    let (alloc, end) = (rt.alloc(), NextLine::End);
    for (text, texts) in &LINES {
        let at_once = sure_gives(&rt, alloc, text, texts, end);
        must_hold(&rt, texts, at_once);
        let bytewise = pieces_give(&rt, alloc, (text, 1), &[], texts, end);
        must_hold(&rt, texts, bytewise);
        let in_threes = pieces_give(&rt, alloc, (text, 3), &[], texts, end);
        must_hold(&rt, texts, in_threes);
    }
}

/// Sources, and their lines, where `X` stands for the longest line, and how they end.
static LONGEST: [(&str, &str, NextLine); 3] = [
    ("X", "X|", NextLine::End),
    ("X\nnext", "X|next|", NextLine::End),
    ("first\nXx", "first|", NextLine::TooLong { at: 2 }),
];

#[test]
fn the_longest_line_is_read(rt: HostRuntime) {
    let alloc = rt.alloc();
    let longest = "x".repeat(alloc, 65_536).expect(&rt, "no memory");
    for (text, texts, last) in &LONGEST {
        let text = text.replace(alloc, "X", &longest).expect(&rt, "no memory");
        let texts = texts.replace(alloc, "X", &longest).expect(&rt, "no memory");
        assert!(rt; sure_gives(&rt, alloc, &text, &texts, *last));
    }
}

#[test]
fn a_read_fault_repeats(rt: HostRuntime) {
    let alloc = rt.alloc();
    let fault = NextLine::ReadFault;
    assert!(rt; pieces_give(&rt, alloc, ("one\n", 9), &[1], "", fault));
    assert!(rt; pieces_give(&rt, alloc, ("one\ntwo\n", 3), &[3], "one|", fault));
}

// Whether the next line is ready, and this text.
fn is_ready(lines: &mut Lines, text: &str) -> bool {
    lines.ready_line() && lines.text() == text.as_bytes()
}

/// A line is ready once its line feed was read ahead; the last one, without a line feed, never is.
#[test]
fn lines_that_came_together_are_ready(rt: HostRuntime) {
    let alloc = rt.alloc();
    let mut source = SureSource::new(alloc, b"one\ntwo\n\nfour").expect(&rt, "no memory");
    let mut lines = fresh(&rt, alloc);
    assert!(rt; !lines.ready_line());
    assert!(rt; are_next(&mut lines, &mut source, "one|"));
    assert!(rt; is_ready(&mut lines, "two") && is_ready(&mut lines, ""));
    assert!(rt; !lines.ready_line());
    assert!(rt; are_next(&mut lines, &mut source, "four|"));
    drop(source);
    drop(lines);
}

//! The spans of `Ranges`: pairs of a first and a last hash, in ascending order, of which no two touch.
ghost use Rattle.std.specs.Prelude.{◌≡◌, ℕ, ◌+◌, ◌≤◌, ◌&&◌, ◌||◌, not, IsTrue, ◌↔◌};
ghost use Rattle.std.specs.Prelude.{MatchBool};
ghost use Rattle.curp_range.specs.Spans.{is_in, is_owned, SpansAscend, Covers, Lacks, Meets};
ghost use Rattle.curp_range.specs.Places.{IsSpanPlace, IsSpanOf};

use curp_base::Reserved;

/// How many spans end before the hash.
fn ended_before(spans: &[(u64, u64)], hash: u64) -> usize
    requires { SpansAscend spans.now }
    ensures { IsSpanPlace spans.now hash result }
{
    spans.partition_point(|span| span.1 < hash)
}

/// Whether each hash of the range is owned.
pub(crate) fn covers(spans: &[(u64, u64)], lo: u64, hi: u64) -> bool
    requires ascend { SpansAscend spans.now }
    requires ordered { lo ≤ hi }
    ensures { MatchBool result (Covers spans.now lo hi) (Lacks spans.now lo hi) }
{
    match spans.get(ended_before(spans, lo)) {
        Some(&(first, last)) => first <= lo && hi <= last,
        None => false,
    }
}

/// Whether some hash of the range is owned.
pub(crate) fn meets(spans: &[(u64, u64)], lo: u64, hi: u64) -> bool
    requires ascend { SpansAscend spans.now }
    requires ordered { lo ≤ hi }
    ensures { IsTrue result ↔ Meets spans.now lo hi }
{
    match spans.get(ended_before(spans, lo)) {
        Some(&(first, _)) => first <= hi,
        None => false,
    }
}

/// The place of the span that has the whole range.
fn span_of(spans: &[(u64, u64)], lo: u64, hi: u64) -> usize
    requires ascend { SpansAscend spans.now }
    requires ordered { lo ≤ hi }
    requires owned { Covers spans.now lo hi }
    ensures { IsSpanOf spans.now lo hi result }
{
    ended_before(spans, lo)
}

/// Cuts the range out of the span that has it.
pub(crate) fn cut(spans: &mut Reserved<(u64, u64)>, lo: u64, hi: u64)
    requires ascend { SpansAscend spans.old.items }
    requires ordered { lo ≤ hi }
    requires owned { Covers spans.old.items lo hi }
    requires room { 1 ≤ spans.old.spare }
    ensures ascend { SpansAscend spans.new.items }
    ensures owned { (h : ℕ) → is_owned spans.new.items h ≡ (is_owned spans.old.items h && not (is_in lo hi h)) }
    ensures spare { spans.old.spare ≤ spans.new.spare + 1 }
{
    let at = span_of(spans, lo, hi);
    let (first, last) = spans[at];
    match (first < lo, hi < last) {
        (false, false) => {
            spans.remove(at);
        }
        (true, false) => spans.set(at, (first, lo - 1)),
        (false, true) => spans.set(at, (hi + 1, last)),
        (true, true) => {
            spans.set(at, (first, lo - 1));
            spans.insert(at + 1, (hi + 1, last));
        }
    }
}

/// Adds the range, as one span with those that it meets or touches.
pub(crate) fn join(spans: &mut Reserved<(u64, u64)>, lo: u64, hi: u64)
    requires ascend { SpansAscend spans.old.items }
    requires ordered { lo ≤ hi }
    requires room { 1 ≤ spans.old.spare }
    ensures ascend { SpansAscend spans.new.items }
    ensures owned { (h : ℕ) → is_owned spans.new.items h ≡ (is_owned spans.old.items h || is_in lo hi h) }
    ensures spare { spans.old.spare ≤ spans.new.spare + 1 }
{
    let at = ended_before(spans, lo.saturating_sub(1));
    let (mut first, mut last) = (lo, hi);
    // At the last hash of all the sum stands still, and then each span from there on is met.
    'met: while at < spans.len() && spans[at].0 <= last.saturating_add(1) {
        let met = spans.remove(at);
        first = first.min(met.0);
        last = last.max(met.1);
    }
    spans.insert(at, (first, last));
}

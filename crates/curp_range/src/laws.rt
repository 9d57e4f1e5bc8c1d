//! Laws of the spans. Each is the contract of a function that does nothing, and a caller has it by calling that
//! function.
ghost use Rattle.std.specs.Prelude.{◌≡◌, ℕ, ◌<◌, ◌≤◌, ◌^◌, ◌&&◌, ◌||◌, not, IsTrue, ◌↔◌, List};
ghost use Rattle.curp_range.specs.Spans.{Span, SpansAscend, AreSpansOf, Covers, Meets};
ghost use Rattle.curp_range.specs.Spans.{is_in, is_owned, is_covered, is_met, without, with_range};

/// The spans of a set of hashes are determined by the set: spans that own the same hashes are the same.
pub fn same_spans()
    ensures { (xs ys : List Span) → SpansAscend xs → SpansAscend ys
        → ((h : ℕ) → is_owned xs h ≡ is_owned ys h) → xs ≡ ys }
{}

/// Each hash of a range is owned exactly where one span has them all, so that this can be computed.
pub fn one_span_covers()
    ensures { (spans : List Span) (lo hi : ℕ) → SpansAscend spans → lo ≤ hi
        → IsTrue (is_covered spans lo hi) ↔ Covers spans lo hi }
{}

/// Some hash of a range is owned exactly where some span reaches into it, so that this can be computed.
pub fn one_span_meets()
    ensures { (spans : List Span) (lo hi : ℕ) → SpansAscend spans → lo ≤ hi
        → IsTrue (is_met spans lo hi) ↔ Meets spans lo hi }
{}

/// The spans without a range are those of the hashes that were owned and don't lie in it.
pub fn without_owns_the_rest()
    ensures { (spans : List Span) (lo hi : ℕ) → SpansAscend spans → lo ≤ hi
        → AreSpansOf (λ h. is_owned spans h && not (is_in lo hi h)) (without spans lo hi) }
{}

/// The spans with a range are those of the hashes that were owned or lie in it.
pub fn with_range_owns_both()
    ensures { (spans : List Span) (lo hi : ℕ) → SpansAscend spans → lo ≤ hi → hi < 2 ^ 64
        → AreSpansOf (λ h. is_owned spans h || is_in lo hi h) (with_range spans lo hi) }
{}

ghost use Rattle.std.specs.Prelude.{◌≡◌, ◌==◌, ◌<◌, is_some, option_and_then, length, slice_index, IsTrue, false, true};
ghost use Rattle.serde_json.specs.Find.{as_u64};
ghost use Rattle.serde_json.specs.Read.{number_of, number_from, float_of};

use fast_float::Numeral;

// The number that the text of a JSON number is, if it is a whole one from 0 to 2^64 - 1, written without point or
// exponent.
pub(crate) fn whole_number(text: &str) -> Option<u64>
    ensures { result ≡ option_and_then as_u64 (number_of text.now) }
{
    let digits = text.as_bytes();
    if has_minus(digits) {
        return None;
    }
    positive_whole(&Numeral::scan(digits))
}

fn positive_whole(numeral: &Numeral<'_>) -> Option<u64>
    ensures { result ≡ option_and_then as_u64 (number_from false numeral.now) }
{
    numeral.to_u64()
}

// Whether the text of a JSON number is no number too large for a float.
pub(crate) fn is_number_readable(text: &str) -> bool
    ensures { result ≡ is_some (number_of text.now) }
{
    let digits = text.as_bytes();
    if has_minus(digits) {
        is_negative_readable(&Numeral::scan(&digits[1..]))
    } else {
        is_positive_readable(&Numeral::scan(digits))
    }
}

fn has_minus(digits: &[u8]) -> bool
    ensures value { result ≡ (slice_index digits.now 0 == 45) }
    ensures len { IsTrue result → 0 < length digits.now }
{
    !digits.is_empty() && digits[0] == b'-'
}

fn is_positive_readable(numeral: &Numeral<'_>) -> bool
    ensures { result ≡ is_some (number_from false numeral.now) }
{
    numeral.to_u64().is_some() || is_finite(false, numeral)
}

fn is_negative_readable(numeral: &Numeral<'_>) -> bool
    ensures { result ≡ is_some (number_from true numeral.now) }
{
    numeral.to_i64(true).is_some_and(|n| n < 0) || is_finite(true, numeral)
}

fn is_finite(is_negative: bool, numeral: &Numeral<'_>) -> bool
    ensures { result ≡ is_some (float_of is_negative numeral.now) }
{
    numeral.to_float::<f64>(is_negative).is_finite()
}

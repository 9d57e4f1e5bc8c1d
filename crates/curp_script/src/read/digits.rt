ghost use Rattle.std.specs.Prelude.{◌≡◌, ◌≤◌, ◌<◌, ◌^◌, ◌&&◌, nat_lt, if◌then◌else◌, length, take};
ghost use Rattle.std.specs.Prelude.{Some, None, IfSome, option_map, option_and_then};
ghost use Rattle.std.specs.Str.{all_ascii_digits};
ghost use Rattle.std.specs.Str.Parse.{digits_value};
ghost use Rattle.curp_script.specs.Digits.{whole_of, digit_of, byte_of, bytes_of, at_most};

// The value of a lower-case hexadecimal digit.
fn digit_of(digit: u8) -> Option<u8>
    ensures value { result ≡ digit_of digit }
    ensures range { IfSome result (λ value. value < 16) }
{
    match digit {
        b'0'..=b'9' => Some(digit - b'0'),
        b'a'..=b'f' => Some(digit - b'a' + 10),
        _ => None,
    }
}

fn byte_of(high: u8, low: u8) -> Option<u8>
    ensures { result ≡ byte_of high low }
{
    let high = digit_of(high)?;
    let low = digit_of(low)?;
    Some(16 * high + low)
}

// The bytes that a text of digits is go to the buffer's prefix. The answer is how many they are.
pub(crate) fn decode(text: &str, buffer: &mut [u8]) -> Option<usize>
    ensures bytes { option_map (λ len. take len buffer.new) result
        ≡ option_and_then (at_most (length buffer.old)) (bytes_of text.now) }
    ensures within { IfSome result (λ len. len ≤ length buffer.old) }
    ensures size { length buffer.new ≡ length buffer.old }
{
    let mut len = 0;
    let mut digits = text.as_bytes();
    'pairs: while let [high, low, rest @ ..] = digits {
        if len == buffer.len() {
            return None;
        }
        buffer[len] = byte_of(*high, *low)?;
        len += 1;
        digits = rest;
    }
    digits.is_empty().then_some(len)
}

// The number below 2^64 that decimal digits write, with no zero before it.
pub(crate) fn whole_of(digits: &[u8]) -> Option<u64>
    ensures { result ≡ whole_of digits.now }
{
    match digits {
        [b'0'] => Some(0),
        [b'1'..=b'9', ..] => value_of(digits),
        _ => None,
    }
}

fn value_of(digits: &[u8]) -> Option<u64>
    ensures { result ≡ (if all_ascii_digits digits.now && nat_lt (digits_value 10 digits.now) (2 ^ 64)
        then Some (digits_value 10 digits.now) else None) }
{
    let mut number: u128 = 0;
    for digit in digits {
        if !digit.is_ascii_digit() {
            return None;
        }
        number = 10 * number + (*digit - b'0') as u128;
        if number > u64::MAX as u128 {
            return None;
        }
    }
    Some(number as u64)
}

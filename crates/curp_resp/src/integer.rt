ghost use Rattle.std.specs.Prelude.{◌≡◌, ◌≤◌, ◌<◌, ◌^◌};
ghost use Rattle.curp_resp.specs.Integer.{is_integer, is_positive, spell_up_to};

/// How many bytes an integer has at most.
const MOST_BYTES: usize = 20;

/// How great a negative integer is at most.
const MOST_NEGATIVE: u64 = 1 << 63;

/// Whether the bytes are an integer of 64 bits in decimal digits, without a plus sign or zeros before it.
pub(crate) fn is_integer(bytes: &[u8]) -> bool
    ensures { result ≡ is_integer bytes.now }
{
    if bytes.len() > MOST_BYTES {
        return false;
    }
    match bytes {
        [b'0'] => true,
        [b'-', digits @ ..] => is_positive(MOST_NEGATIVE, digits),
        digits => is_positive(MOST_NEGATIVE - 1, digits),
    }
}

/// Whether digits without zeros before them spell a number up to this one.
fn is_positive(most: u64, digits: &[u8]) -> bool
    ensures { result ≡ is_positive most digits.now }
{
    match digits {
        [b'1'..=b'9', ..] => spell_up_to(most, digits),
        _ => false,
    }
}

/// Whether bytes are digits that spell a number up to this one.
fn spell_up_to(most: u64, digits: &[u8]) -> bool
    ensures { result ≡ spell_up_to most 0 digits.now }
{
    let mut value: u64 = 0;
    'digits: for at in 0..digits.len() {
        let byte = digits[at];
        if !byte.is_ascii_digit() {
            return false;
        }
        let more = 10 * u128::from(value) + u128::from(byte - b'0');
        if more > u128::from(most) {
            return false;
        }
        value = more as u64;
    }
    true
}

//! Bytes behind their length.
ghost use Rattle.std.specs.Prelude.{◌≡◌, ◌+◌, ◌<◌, ◌≤◌, ◌-◌, ◌^◌, ◌++◌, length, drop, IfNone, IfSome, OnSome};
ghost use Rattle.std.specs.Int.{w32, to_be_bytes};
ghost use Rattle.curp_parcels.specs.Parcels.{behind_length, parcel_limit};
ghost use Rattle.curp_parcels.specs.Reading.{FindsFirst};

/// How many bytes a parcel has behind its length at most: as many as the longest arrival that a journal takes.
const PARCEL_LIMIT: usize = 4_294_967_287;

/// What a look at the length at the start of bytes tells.
#[derive(Clone, Copy, Debug, PartialEq, Eq)]
pub(crate) enum First {
    /// So many bytes stand behind it.
    Whole(usize),
    /// No parcel has that length.
    TooLong,
    /// More bytes are to come.
    Part,
}

/// What stands at the start of bytes.
pub(crate) fn first_in(bytes: &[u8]) -> First
    ensures { FindsFirst bytes.now result }
{
    match bytes {
        [a, b, c, d, rest @ ..] => {
            let count = u32::from_be_bytes([*a, *b, *c, *d]);
            behind_count(count, rest)
        }
        _ => First::Part,
    }
}

/// The same, where the length is this one.
fn behind_count(count: u32, rest: &[u8]) -> First
    ensures { FindsFirst (to_be_bytes w32 count ++ rest.now) result }
{
    let count = count as usize;
    if count > PARCEL_LIMIT {
        First::TooLong
    } else if count <= rest.len() {
        First::Whole(count)
    } else {
        First::Part
    }
}

/// The parcel of bytes, before which there is room for their length. There is none where they are too many.
#[tactic(auto, using(crate::proofs::Lengths::parcel_there))]
pub(crate) fn parcel_of(bytes: Vec<u8>) -> Option<Vec<u8>>
    requires { 4 ≤ length bytes.items }
    ensures parcel { IfSome result (λ parcel. parcel.items ≡ behind_length (drop 4 bytes.items)) }
    ensures short { OnSome result (length bytes.items ≤ 4 + parcel_limit) }
    ensures long { IfNone result (4 + parcel_limit < length bytes.items) }
{
    if bytes.len() - 4 > PARCEL_LIMIT {
        None
    } else {
        Some(with_length(bytes))
    }
}

/// Puts into the first four bytes how many follow them.
fn with_length(mut parcel: Vec<u8>) -> Vec<u8>
    requires least { 4 ≤ length parcel.items }
    requires most { length parcel.items < 2 ^ 32 }
    ensures { result.items ≡ to_be_bytes w32 (length parcel.items - 4) ++ drop 4 parcel.items }
{
    set_length(&mut parcel);
    parcel
}

fn set_length(parcel: &mut [u8])
    requires least { 4 ≤ length parcel.old }
    requires most { length parcel.old < 2 ^ 32 }
    ensures { parcel.new ≡ to_be_bytes w32 (length parcel.old - 4) ++ drop 4 parcel.old }
{
    let count = (parcel.len() - 4) as u32;
    parcel[..4].copy_from_slice(&count.to_be_bytes());
}

ghost use Rattle.std.specs.Prelude.{◌≡◌};
ghost use Rattle.curp_script.specs.Headers.{bad_field, is_within};

use crate::{FieldName, Header};

/// The first name of a header, in byte order, whose value is out of its range.
pub fn bad_field(header: &Header) -> Option<FieldName>
    ensures { result ≡ bad_field header.now }
{
    if !is_within(1, 64, header.clients) {
        Some(FieldName::Clients)
    } else if !is_within(1, 5, header.f) {
        Some(FieldName::F)
    } else if !is_within(1, 16, header.parts) {
        Some(FieldName::Parts)
    } else if !is_within(1, 1024, header.sets) {
        Some(FieldName::Sets)
    } else if !is_within(1, 16, header.ways) {
        Some(FieldName::Ways)
    } else {
        None
    }
}

fn is_within(low: u32, high: u32, number: u32) -> bool
    ensures { result ≡ is_within low high number }
{
    low <= number && number <= high
}

ghost use Rattle.std.specs.Prelude.{◌≡◌, ◌≤◌, IfOk};
ghost use Rattle.serde_json.specs.Find.{as_bool, as_array};
ghost use Rattle.curp_script.specs.Digits.{hash_of};
ghost use Rattle.curp_script.specs.Grammar.{field_as, index_at, no_other, number_at, text_as};
ghost use Rattle.curp_script.specs.Kinds.{kind_of};
ghost use Rattle.curp_script.specs.Nodes.{keeper_of, node_of};
ghost use Rattle.curp_script.specs.Values.{value_data, values_data};

use super::object::{flag_in, has_only, number_in, text_in, value_at};
use super::words::{hash_of, keeper_of, node_of};
use crate::kind::Kind;
use crate::{FieldName, LineError};
use curp_cmd::{Keeper, NodeId};
use json::Value as Json;

// The whole number under a name, from low to high.
pub(crate) fn number_at(
    object: &Json<'_>,
    name: FieldName,
    low: u64,
    high: u64,
) -> Result<u64, LineError>
    ensures value { result ≡ number_at name low high (value_data object.now) }
    ensures within { IfOk result (λ number. (low ≤ number) × (number ≤ high)) }
{
    match value_at(object, name).and_then(number_in) {
        Some(number) if low <= number && number <= high => Ok(number),
        _ => Err(LineError::BadField { name }),
    }
}

// The number of a node, a place or a request.
pub(crate) fn index_at(object: &Json<'_>, name: FieldName) -> Result<u32, LineError>
    ensures { result ≡ index_at name (value_data object.now) }
{
    let number = number_at(object, name, 0, u32::MAX as u64)?;
    Ok(number as u32)
}

pub(crate) fn flag_at(object: &Json<'_>, name: FieldName) -> Result<bool, LineError>
    ensures { result ≡ field_as as_bool name (value_data object.now) }
{
    let flag = value_at(object, name).and_then(flag_in);
    flag.ok_or(LineError::BadField { name })
}

pub(crate) fn kind_at(object: &Json<'_>) -> Result<Kind, LineError>
    ensures { result ≡ text_as kind_of FieldName.Do (value_data object.now) }
{
    let name = FieldName::Do;
    let text = value_at(object, name).and_then(text_in);
    text.and_then(Kind::from_text)
        .ok_or(LineError::BadField { name })
}

pub(crate) fn keeper_at(object: &Json<'_>) -> Result<Keeper, LineError>
    ensures { result ≡ text_as keeper_of FieldName.Kind (value_data object.now) }
{
    let name = FieldName::Kind;
    let text = value_at(object, name).and_then(text_in);
    text.and_then(keeper_of).ok_or(LineError::BadField { name })
}

pub(crate) fn node_at(object: &Json<'_>) -> Result<NodeId, LineError>
    ensures { result ≡ text_as node_of FieldName.Node (value_data object.now) }
{
    let name = FieldName::Node;
    let text = value_at(object, name).and_then(text_in);
    text.and_then(node_of).ok_or(LineError::BadField { name })
}

pub(crate) fn hash_at(object: &Json<'_>, name: FieldName) -> Result<u64, LineError>
    ensures { result ≡ text_as hash_of name (value_data object.now) }
{
    let text = value_at(object, name).and_then(text_in);
    text.and_then(hash_of).ok_or(LineError::BadField { name })
}

// An object has no name but these.
pub(crate) fn no_other(object: &Json<'_>, names: &[FieldName]) -> Result<(), LineError>
    ensures { result ≡ no_other names.now (value_data object.now) }
{
    if has_only(object, names) {
        return Ok(());
    }
    Err(LineError::BadField {
        name: FieldName::Other,
    })
}

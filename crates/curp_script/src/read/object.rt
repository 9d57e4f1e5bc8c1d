// A line as a JSON object, and what stands in it. Texts and numbers stay in the line; contracts see the data that
// serde_json reads.
ghost use Rattle.std.specs.Prelude.{◌≡◌, ◌≢◌, ◌&&◌, Some, None, IfOk, IfErr};
ghost use Rattle.std.specs.Prelude.{is_some, option_map, option_and_then, unwrap_or};
ghost use Rattle.std.specs.List.{list_all};
ghost use Rattle.json.specs.Json.{value, if_last};
ghost use Rattle.json.specs.Lex.{tokens};
ghost use Rattle.json.specs.Value.{value_view, items_view, members_view};
ghost use Rattle.serde_json.specs.Data.{no_members};
ghost use Rattle.serde_json.specs.Find.{get, as_null, as_bool, as_number, as_u64, as_str, as_array, as_object};
ghost use Rattle.serde_json.specs.Read.{max_depth};
ghost use Rattle.curp_base.specs.Failing.{IfBecause};
ghost use Rattle.curp_script.specs.Grammar.{object_in, listed, has_only, is_one_of};
ghost use Rattle.curp_script.specs.Values.{value_data, values_data, is_readable, are_items_readable, are_members_readable};
ghost use Rattle.curp_script.specs.Text.{field_text};

use super::number::{is_number_readable, whole_number};
use crate::{FieldName, LineError};
use curp_base::Failed;
use json::{Error, Reader, Scratch, Value as Json};
use std::alloc::Global;

// How deep serde_json lets arrays and objects nest.
const MAX_DEPTH: usize = 127;

const NO_OBJECT: Failed<LineError> = Failed::Because(LineError::BadJson);

pub(crate) fn parse_object<'a>(
    alloc: Global,
    scratch: &'a mut Scratch,
    line: &'a [u8],
) -> Result<Json<'a>, Failed<LineError>>
    ensures ok { IfOk result (λ object. object_in line.now ≡ Some (value_data object)) }
    ensures err { IfErr result (IfBecause (λ reason.
        (reason ≡ LineError.BadJson) × (object_in line.now ≡ None))) }
{
    let Ok(text) = std::str::from_utf8(line) else {
        return Err(NO_OBJECT);
    };
    let value = match parse_text(alloc, scratch, text) {
        Ok(value) => value,
        Err(Error::OutOfMemory) => return Err(Failed::NoMemory),
        Err(_) => return Err(NO_OBJECT),
    };
    if is_readable_object(&value) {
        Ok(value)
    } else {
        Err(NO_OBJECT)
    }
}

fn parse_text<'a>(alloc: Global, scratch: &'a mut Scratch, text: &'a str) -> Result<Json<'a>, Error>
    ensures ok { IfOk result (λ v. option_and_then (λ p. if_last p.0 p.1) (value max_depth (tokens text.now))
        ≡ Some (value_view v)) }
    ensures err { IfErr result (λ e. e ≢ Error.OutOfMemory
        → option_and_then (λ p. if_last p.0 p.1) (value max_depth (tokens text.now)) ≡ None) }
{
    let mut reader = Reader::new(text, scratch)?;
    let value = Json::read(alloc, &mut reader, MAX_DEPTH)?;
    if reader.next().is_some() {
        return Err(Error::Invalid);
    }
    Ok(value)
}

fn is_readable_object(value: &Json<'_>) -> bool
    ensures { result ≡ (is_some (as_object (value_data value.now)) && is_readable (value_view value.now)) }
{
    matches!(value, Json::Object(_)) && is_readable(value)
}

// Whether no number in it is too large for a float, as serde_json wants.
#[cycle(readable)]
fn is_readable(value: &Json<'_>) -> bool
    ensures { result ≡ is_readable (value_view value.now) }
{
    match value {
        Json::Number(text) => is_number_readable(text),
        Json::Array(items) => are_items_readable(items),
        Json::Object(members) => are_members_readable(members),
        _ => true,
    }
}

#[cycle(readable)]
fn are_items_readable(items: &[Json<'_>]) -> bool
    ensures { result ≡ are_items_readable (items_view items.now) }
{
    for item in items {
        if !is_readable(item) {
            return false;
        }
    }
    true
}

#[cycle(readable)]
fn are_members_readable(members: &[(&str, Json<'_>)]) -> bool
    ensures { result ≡ are_members_readable (members_view members.now) }
{
    for (_, value) in members {
        if !is_readable(value) {
            return false;
        }
    }
    true
}

// The value under a name: the last, where the name stands there twice.
pub(crate) fn value_at<'v, 'a>(object: &'v Json<'a>, name: FieldName) -> Option<&'v Json<'a>>
    ensures { option_map (λ v. value_data v.now) result ≡ get (field_text name) (value_data object.now) }
{
    object.get(name.as_str())
}

pub(crate) fn is_null(value: &Json<'_>) -> bool
    ensures { result ≡ is_some (as_null (value_data value.now)) }
{
    value.is_null()
}

pub(crate) fn flag_in(value: &Json<'_>) -> Option<bool>
    ensures { result ≡ as_bool (value_data value.now) }
{
    value.as_bool()
}

pub(crate) fn number_in(value: &Json<'_>) -> Option<u64>
    ensures { result ≡ option_and_then as_u64 (as_number (value_data value.now)) }
{
    whole_number(value.as_number()?)
}

pub(crate) fn text_in<'a>(value: &Json<'a>) -> Option<&'a str>
    ensures { option_map (λ s. s.now) result ≡ as_str (value_data value.now) }
{
    value.as_str()
}

pub(crate) fn items_in<'v, 'a>(value: &'v Json<'a>) -> Option<&'v [Json<'a>]>
    ensures { option_map (λ items. values_data items.now) result ≡ option_map listed (as_array (value_data value.now)) }
{
    match value {
        Json::Array(items) => Some(items.as_slice()),
        _ => None,
    }
}

// Whether each name of an object is one of these.
pub(crate) fn has_only(object: &Json<'_>, names: &[FieldName]) -> bool
    ensures { result ≡ has_only names.now (unwrap_or (as_object (value_data object.now)) no_members) }
{
    let Json::Object(members) = object else {
        return true;
    };
    have_only(members, names)
}

fn have_only(members: &[(&str, Json<'_>)], names: &[FieldName]) -> bool
    ensures { result ≡ list_all (λ m. is_one_of names.now m.0.now) members.now }
{
    members.iter().all(|(name, _)| is_one_of(names, name))
}

fn is_one_of(names: &[FieldName], name: &str) -> bool
    ensures { result ≡ is_one_of names.now name.now }
{
    names.iter().any(|n| n.as_str() == name)
}

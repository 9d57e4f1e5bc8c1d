ghost use Rattle.std.specs.Prelude.{◌≡◌, ◌≤◌, ◌+◌, length, map, vec_len, IfOk, Ok, OnOk};
ghost use Rattle.serde_json.specs.Data.{object, string};
ghost use Rattle.serde_json.specs.View.{view};
ghost use Rattle.serde_json.specs.Written.{compact_text};
ghost use Rattle.curp_script.specs.Grammar.{header_in, header_of, step_in};
ghost use Rattle.curp_msg.specs.Script.{IsHeader};
ghost use Rattle.curp_script.specs.Kinds.{names_of};
ghost use Rattle.curp_script.specs.Nodes.{keeper_text};
ghost use Rattle.curp_script.specs.Printed.{count, protocol_number, header_data, step_data, kind_line, with_values};
ghost use Rattle.curp_script.specs.Printed.{NamesNode, ReadsBack};

use crate::command::command_json;
use crate::shown::{hash_text, node_text};
use curp_base::NoMemory;
use curp_cmd::{Command, Keeper, NodeId};
use curp_msg::{Header, Protocol, Step};
use curp_script::{FieldName, Kind, header_names};
use serde_json::{Map, Value as Json};
use std::alloc::Global;

/// The line of a header, without a line feed.
pub fn print_header(alloc: Global, header: &Header) -> Result<Vec<u8>, NoMemory>
    requires in_range { IsHeader header.now }
    ensures text { IfOk result (λ line. line.items ≡ compact_text (header_data header.now)) }
    ensures reads_back { IfOk result (λ line. header_in line.items ≡ Ok header.now) }
{
    header_json(alloc, header)?.to_vec(alloc)
}

/// The line of a step, without a line feed.
pub fn print_line(alloc: Global, step: &Step) -> Result<Vec<u8>, NoMemory>
    requires names_node { NamesNode step.now }
    ensures text { IfOk result (λ line. line.items ≡ compact_text (step_data step.now)) }
    ensures reads_back { IfOk result (λ line. step_in line.items ≡ Ok step.now) }
{
    step_json(alloc, step)?.to_vec(alloc)
}

fn header_json(alloc: Global, header: &Header) -> Result<Json, NoMemory>
    requires { IsHeader header.now }
    ensures data { IfOk result (λ json. view json ≡ header_data header.now) }
    ensures reads { header_of (header_data header.now) ≡ Ok header.now }
{
    let values = vec![in alloc;
        Json::from(header.clients),
        Json::from(header.f),
        Json::from(header.fast),
        Json::from(header.parts),
        Json::from(protocol_number(header.protocol)),
        Json::from(header.sets),
        Json::from(header.ways),
    ]?;
    object(alloc, header_names(), values)
}

fn protocol_number(protocol: Protocol) -> u32
    ensures { result ≡ protocol_number protocol }
{
    match protocol {
        Protocol::One => 1,
        Protocol::Two => 2,
    }
}

fn step_json(alloc: Global, step: &Step) -> Result<Json, NoMemory>
    requires { NamesNode step.now }
    ensures data { IfOk result (λ json. view json ≡ step_data step.now) }
    ensures reads { OnOk result (ReadsBack step.now) }
{
    match step {
        Step::Invoke { client, command } => invoke_json(alloc, *client, command),
        Step::Deliver { message } => numbers(alloc, Kind::Deliver, &[*message]),
        Step::Retry { client, seq } => {
            numbers(alloc, Kind::Retry, &[*client as u64, *seq as u64])
        }
        Step::Fetch { client } => numbers(alloc, Kind::Fetch, &[*client as u64]),
        Step::Sync { master } => numbers(alloc, Kind::Sync, &[*master as u64]),
        Step::Collect { master } => numbers(alloc, Kind::Collect, &[*master as u64]),
        Step::Recover {
            part,
            backup,
            witness,
        } => {
            let values = [*backup as u64, *part as u64, *witness as u64];
            numbers(alloc, Kind::Recover, &values)
        }
        Step::Replace {
            keeper,
            part,
            place,
        } => replace_json(alloc, *keeper, *part, *place),
        Step::Migrate { lo, hi, to } => migrate_json(alloc, *lo, *hi, *to),
        Step::Nudge => numbers(alloc, Kind::Nudge, &[]),
        Step::Expire { client } => numbers(alloc, Kind::Expire, &[*client as u64]),
        Step::Stop { node } => stop_json(alloc, *node),
    }
}

fn invoke_json(alloc: Global, client: u32, command: &Command) -> Result<Json, NoMemory>
    ensures data { IfOk result (λ json. view json ≡ step_data (Step.Invoke client command.now)) }
    ensures reads { OnOk result (ReadsBack (Step.Invoke client command.now)) }
{
    let command = command_json(alloc, command)?;
    let values = vec![in alloc; Json::from(client), command]?;
    kind_line(alloc, Kind::Invoke, values)
}

fn replace_json(alloc: Global, keeper: Keeper, part: u32, place: u32) -> Result<Json, NoMemory>
    ensures { IfOk result (λ json. view json ≡ step_data (Step.Replace keeper part place)) }
{
    let kind = text(alloc, keeper_text(keeper))?;
    let values = vec![in alloc; kind, Json::from(part), Json::from(place)]?;
    kind_line(alloc, Kind::Replace, values)
}

fn migrate_json(alloc: Global, lo: u64, hi: u64, to: u32) -> Result<Json, NoMemory>
    ensures data { IfOk result (λ json. view json ≡ step_data (Step.Migrate lo hi to)) }
    ensures reads { OnOk result (ReadsBack (Step.Migrate lo hi to)) }
{
    let (hi, lo) = (hash_text(alloc, hi)?, hash_text(alloc, lo)?);
    let values = vec![in alloc; Json::String(hi), Json::String(lo), Json::from(to)]?;
    kind_line(alloc, Kind::Migrate, values)
}

fn stop_json(alloc: Global, node: NodeId) -> Result<Json, NoMemory>
    requires { NamesNode (Step.Stop node) }
    ensures data { IfOk result (λ json. view json ≡ step_data (Step.Stop node)) }
    ensures reads { OnOk result (ReadsBack (Step.Stop node)) }
{
    let name = node_text(alloc, node.kind, node.number)?;
    kind_line(alloc, Kind::Stop, vec![in alloc; Json::String(name)]?)
}

// A line of a kind with these numbers.
fn numbers(alloc: Global, kind: Kind, numbers: &[u64]) -> Result<Json, NoMemory>
    requires { length numbers.now + 1 ≤ length (names_of kind) }
    ensures { IfOk result (λ json. view json ≡ kind_line kind (map count numbers.now)) }
{
    let mut values = Vec::new(alloc);
    for number in numbers {
        values.push(Json::from(*number))?;
    }
    kind_line(alloc, kind, values)
}

// A line of a kind: its text under do, and these values under the other names.
fn kind_line(alloc: Global, kind: Kind, values: Vec<Json>) -> Result<Json, NoMemory>
    requires { vec_len values + 1 ≤ length (names_of kind) }
    ensures { IfOk result (λ json. view json ≡ kind_line kind (map view values.items)) }
{
    let mut values = values;
    values.insert(0, text(alloc, kind.as_str())?)?;
    object(alloc, kind.names(), values)
}

// An object with these values under these names.
pub(crate) fn object(
    alloc: Global,
    names: &[FieldName],
    values: Vec<Json>,
) -> Result<Json, NoMemory>
    requires { vec_len values ≤ length names.now }
    ensures { IfOk result (λ json. view json ≡ object (with_values names.now (map view values.items))) }
{
    let mut values = values;
    let mut members = Map::new(alloc);
    'values: while let Some(value) = values.pop() {
        let name = names[values.len()];
        let key = String::from_str(alloc, name.as_str())?;
        drop(members.insert(key, value)?);
    }
    Ok(Json::Object(members))
}

pub(crate) fn text(alloc: Global, text: &str) -> Result<Json, NoMemory>
    ensures { IfOk result (λ json. view json ≡ string text.now) }
{
    Ok(Json::String(String::from_str(alloc, text)?))
}

fn keeper_text(keeper: Keeper) -> &'static str
    ensures { result.now ≡ keeper_text keeper }
{
    match keeper {
        Keeper::Backup => "backup",
        Keeper::Witness => "witness",
    }
}

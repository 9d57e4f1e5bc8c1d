//! Which bodies have an encoding.
ghost use Rattle.std.specs.Prelude.{◌≡◌, true};
ghost use Rattle.std.specs.List.{list_all};
ghost use Rattle.curp_items.specs.Items.{is_node};
ghost use Rattle.curp_fields.specs.Fields.{body_parts};
ghost use Rattle.curp_fields.specs.Encoded.{are_encoded_entries, are_encoded_nodes, has_count, has_fields};
ghost use Rattle.curp_fields.specs.Encoded.{is_encoded_collection, is_encoded_config, is_encoded_entry};
ghost use Rattle.curp_fields.specs.Encoded.{is_encoded_package, is_encoded_part, is_encoded_recover, is_encoded_reply};
ghost use Rattle.curp_fields.specs.Encoding.{HasFields};

use curp_cmd::{Entry, NodeId, Package};
use curp_items::is_node;
use curp_msg::{Body, Config, FenceReply, GcAnswer, PartConfig, Recover};

/// The greatest number of elements of a list: its count has 32 bits.
const COUNT_LIMIT: usize = 4_294_967_295;

/// Whether the fields of a body have an encoding: each list has at most 4,294,967,295 elements, and each node in them is one
/// that there may be. It reads the body once, and copies nothing.
pub fn has_fields(body: &Body) -> bool
    ensures test { result ≡ has_fields body.now }
    ensures encoded { result ≡ true → HasFields body.now }
    ensures fits { (body_parts body.now).Fits → result ≡ true }
{
    is_encoded_body(body)
}

fn is_encoded_body(body: &Body) -> bool
    ensures { result ≡ has_fields body.now }
{
    match body {
        Body::Configuration { config } => is_encoded_config(config),
        Body::Append(append) => are_encoded_entries(append.entries.as_slice()),
        Body::Gc(gc) => has_count(gc.ids.as_slice().len()),
        Body::Collected(collected) => is_encoded_collection(&collected.answer),
        Body::Recover(recover) => is_encoded_recover(recover.get()),
        Body::FenceAnswer(answer) => is_encoded_reply(&answer.answer),
        Body::FrozenAnswer { requests } => has_count(requests.as_slice().len()),
        Body::Prepare(prepare) => {
            are_encoded_nodes(prepare.backups.as_slice())
                && are_encoded_nodes(prepare.witnesses.as_slice())
        }
        Body::Taken(parcel) | Body::GiveIn(parcel) => is_encoded_package(&parcel.get().package),
        _ => true,
    }
}

fn has_count(length: usize) -> bool
    ensures { result ≡ has_count length }
{
    length <= COUNT_LIMIT
}

fn are_nodes(nodes: &[NodeId]) -> bool
    ensures { result ≡ list_all is_node nodes.now }
{
    nodes.iter().all(|node| is_node(node))
}

fn are_encoded_nodes(nodes: &[NodeId]) -> bool
    ensures { result ≡ are_encoded_nodes nodes.now }
{
    has_count(nodes.len()) && are_nodes(nodes)
}

fn is_encoded_package(moved: &Package) -> bool
    ensures { result ≡ is_encoded_package moved.now }
{
    let table = &moved.table;
    has_count(moved.pairs.as_slice().len())
        && has_count(table.records.as_slice().len())
        && has_count(table.firsts.as_slice().len())
        && has_count(table.gone.as_slice().len())
}

fn is_encoded_entry(entry: &Entry) -> bool
    ensures { result ≡ is_encoded_entry entry.now }
{
    match entry {
        Entry::Take { package, .. } | Entry::Give { package, .. } => is_encoded_package(package),
        Entry::Op { .. } | Entry::Expire { .. } => true,
    }
}

fn all_encoded(entries: &[Entry]) -> bool
    ensures { result ≡ list_all is_encoded_entry entries.now }
{
    entries.iter().all(is_encoded_entry)
}

fn are_encoded_entries(entries: &[Entry]) -> bool
    ensures { result ≡ are_encoded_entries entries.now }
{
    has_count(entries.len()) && all_encoded(entries)
}

fn is_encoded_part(part: &PartConfig) -> bool
    ensures { result ≡ is_encoded_part part.now }
{
    is_node(&part.master)
        && are_encoded_nodes(part.backups.as_slice())
        && are_encoded_nodes(part.witnesses.as_slice())
        && has_count(part.ranges.as_slice().len())
}

fn are_encoded_parts(parts: &[PartConfig]) -> bool
    ensures { result ≡ list_all is_encoded_part parts.now }
{
    parts.iter().all(is_encoded_part)
}

fn is_encoded_config(config: &Config) -> bool
    ensures { result ≡ is_encoded_config config.now }
{
    has_count(config.parts.len()) && are_encoded_parts(config.parts.as_slice())
}

fn is_encoded_recover(recover: &Recover) -> bool
    ensures { result ≡ is_encoded_recover recover.now }
{
    is_node(&recover.backup)
        && is_node(&recover.witness)
        && are_encoded_nodes(recover.backups.as_slice())
        && are_encoded_nodes(recover.witnesses.as_slice())
}

fn is_encoded_collection(answer: &GcAnswer) -> bool
    ensures { result ≡ is_encoded_collection answer.now }
{
    match answer {
        GcAnswer::Suspects(requests) => has_count(requests.as_slice().len()),
        GcAnswer::Stranger { .. } => true,
    }
}

fn is_encoded_reply(answer: &FenceReply) -> bool
    ensures { result ≡ is_encoded_reply answer.now }
{
    match answer {
        FenceReply::Log(entries) => are_encoded_entries(entries.as_slice()),
        FenceReply::Fenced { .. } => true,
    }
}

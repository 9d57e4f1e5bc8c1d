//! Which messages are light: such a message has a frame for sure. Others may have one too.
ghost use Rattle.std.specs.Prelude.{◌≡◌};
ghost use Rattle.std.specs.List.{list_all};
ghost use Rattle.curp_items.specs.Items.{is_node};
ghost use Rattle.curp_wire.specs.Light.{are_light_nodes, is_light, is_light_body, is_light_client};
ghost use Rattle.curp_wire.specs.Light.{is_light_collection, is_light_config, is_light_entry, is_light_id};
ghost use Rattle.curp_wire.specs.Light.{is_light_package, is_light_part, is_light_reason, is_light_recover};
ghost use Rattle.curp_wire.specs.Light.{is_light_reply, is_light_request};

use crate::limits::{CLIENT_LIMIT, LIGHT_LIMIT, NODE_LIMIT, PART_LIMIT};
use curp_base::Shared;
use curp_cmd::{Answer, Entry, NodeId, Package, Request, RequestId};
use curp_items::is_node;
use curp_msg::{Body, Config, FenceReply, GcAnswer, Message, PartConfig, Reason, Recover, weight};

/// Whether `encode_light` takes the message: it weighs at most 20,000, the client numbers in its ids and packages are at most
/// 64, it has at most 16 partitions and at most 5 nodes in a list, and the manager alone has the number 0. It reads the
/// whole message once. (This project's own rule, so that no frame is too long.)
pub fn is_light(message: &Message) -> bool
    ensures { result ≡ is_light message.now }
{
    weight(message) <= LIGHT_LIMIT
        && is_node(&message.from)
        && is_node(&message.to)
        && is_light_body(&message.body)
}

fn is_light_body(body: &Body) -> bool
    ensures { result ≡ is_light_body body.now }
{
    match body {
        Body::Update(ask) | Body::Sync(ask) | Body::Read(ask) | Body::Glance(ask) => {
            is_light_request(&ask.request)
        }
        Body::Record(record) => is_light_request(&record.request),
        Body::Configuration { config } => is_light_config(config),
        Body::Reply(reply) => is_light_id(&reply.get().id),
        Body::Worth(worth) => is_light_id(&worth.get().id),
        Body::Refuse(refuse) => is_light_id(&refuse.id),
        Body::Accepted(accepted) => is_light_id(&accepted.id),
        Body::Rejected(rejected) => {
            is_light_id(&rejected.id) && is_light_reason(&rejected.reason)
        }
        Body::Append(append) => are_light_entries(append.entries.as_slice()),
        Body::Gc(gc) => are_light_ids(gc.ids.as_slice()),
        Body::Collected(collected) => is_light_collection(&collected.answer),
        Body::Recover(recover) => is_light_recover(recover.get()),
        Body::FenceAnswer(answer) => is_light_reply(&answer.answer),
        Body::FrozenAnswer { requests } => are_light_requests(requests.as_slice()),
        Body::Prepare(prepare) => {
            are_light_nodes(prepare.backups.as_slice())
                && are_light_nodes(prepare.witnesses.as_slice())
        }
        Body::Taken(parcel) | Body::GiveIn(parcel) => is_light_package(&parcel.get().package),
        Body::Probe(probe) => is_light_id(&probe.id),
        Body::Probed(probed) => is_light_id(&probed.id),
        Body::Quick(quick) => is_light_id(&quick.get().id),
        _ => true,
    }
}

fn is_light_client(client: u32) -> bool
    ensures { result ≡ is_light_client client }
{
    client <= CLIENT_LIMIT
}

fn is_light_id(id: &RequestId) -> bool
    ensures { result ≡ is_light_id id.now }
{
    is_light_client(id.client)
}

fn are_light_ids(ids: &[RequestId]) -> bool
    ensures { result ≡ list_all is_light_id ids.now }
{
    ids.iter().all(is_light_id)
}

fn is_light_request(request: &Request) -> bool
    ensures { result ≡ is_light_request request.now }
{
    is_light_id(&request.id)
}

fn are_light_requests(requests: &[Shared<Request>]) -> bool
    ensures { result ≡ list_all is_light_request requests.now }
{
    requests.iter().all(|request| is_light_request(request))
}

fn is_light_package(moved: &Package) -> bool
    ensures { result ≡ is_light_package moved.now }
{
    let table = &moved.table;
    are_light_records(table.records.as_slice())
        && are_light_firsts(table.firsts.as_slice())
        && are_light_clients(table.gone.as_slice())
}

fn are_light_records(records: &[(RequestId, Answer)]) -> bool
    ensures { result ≡ list_all (λ pair. is_light_id pair.0) records.now }
{
    records.iter().all(|pair| is_light_id(&pair.0))
}

fn are_light_firsts(firsts: &[(u32, u32)]) -> bool
    ensures { result ≡ list_all (λ pair. is_light_client pair.0) firsts.now }
{
    firsts.iter().all(|pair| is_light_client(pair.0))
}

fn are_light_clients(clients: &[u32]) -> bool
    ensures { result ≡ list_all is_light_client clients.now }
{
    clients.iter().all(|client| is_light_client(*client))
}

fn is_light_entry(entry: &Entry) -> bool
    ensures { result ≡ is_light_entry entry.now }
{
    match entry {
        Entry::Op { request, .. } => is_light_request(request),
        Entry::Take { package, .. } | Entry::Give { package, .. } => is_light_package(package),
        Entry::Expire { .. } => true,
    }
}

fn are_light_entries(entries: &[Entry]) -> bool
    ensures { result ≡ list_all is_light_entry entries.now }
{
    entries.iter().all(is_light_entry)
}

fn are_nodes(nodes: &[NodeId]) -> bool
    ensures { result ≡ list_all is_node nodes.now }
{
    nodes.iter().all(|node| is_node(node))
}

fn are_light_nodes(nodes: &[NodeId]) -> bool
    ensures { result ≡ are_light_nodes nodes.now }
{
    nodes.len() <= NODE_LIMIT && are_nodes(nodes)
}

fn is_light_part(part: &PartConfig) -> bool
    ensures { result ≡ is_light_part part.now }
{
    is_node(&part.master)
        && are_light_nodes(part.backups.as_slice())
        && are_light_nodes(part.witnesses.as_slice())
}

fn are_light_parts(parts: &[PartConfig]) -> bool
    ensures { result ≡ list_all is_light_part parts.now }
{
    parts.iter().all(is_light_part)
}

fn is_light_config(config: &Config) -> bool
    ensures { result ≡ is_light_config config.now }
{
    config.parts.len() <= PART_LIMIT && are_light_parts(config.parts.as_slice())
}

fn is_light_recover(recover: &Recover) -> bool
    ensures { result ≡ is_light_recover recover.now }
{
    is_node(&recover.backup)
        && is_node(&recover.witness)
        && are_light_nodes(recover.backups.as_slice())
        && are_light_nodes(recover.witnesses.as_slice())
}

fn is_light_reason(reason: &Reason) -> bool
    ensures { result ≡ is_light_reason reason.now }
{
    match reason {
        Reason::Conflict { held } => is_light_id(held),
        _ => true,
    }
}

fn is_light_collection(answer: &GcAnswer) -> bool
    ensures { result ≡ is_light_collection answer.now }
{
    match answer {
        GcAnswer::Suspects(requests) => are_light_requests(requests.as_slice()),
        GcAnswer::Stranger { .. } => true,
    }
}

fn is_light_reply(answer: &FenceReply) -> bool
    ensures { result ≡ is_light_reply answer.now }
{
    match answer {
        FenceReply::Log(entries) => are_light_entries(entries.as_slice()),
        FenceReply::Fenced { .. } => true,
    }
}

//! The bodies of messages: a tag, and fields by the tag.
ghost use Rattle.std.specs.Prelude.{◌≡◌, ◌↔◌, IsTrue, OnOk};
ghost use Rattle.curp_items.specs.Calls.{ReadsIfMemory, WritesItem};
ghost use Rattle.curp_items.specs.Format.{by_tag};
ghost use Rattle.curp_fields.specs.Fields.{body_parts, body_variants, last_variants, later_variants};
ghost use Rattle.curp_fields.specs.Encoding.{HasFields};

use curp_base::{Failed, NoMemory};
use curp_fields::{Part, read_parts, write_parts};
use curp_items::{Fault, Item, Reader, Writer};
use curp_msg::Body;
use std::alloc::Global;

/// The tag of a body.
pub(crate) fn tag_of(body: &Body) -> u8
    ensures { result ≡ (body_parts body.now).tag }
{
    match body {
        Body::Update(_) => 1,
        Body::Sync(_) => 2,
        Body::Read(_) => 3,
        Body::Record(_) => 4,
        Body::Fetch => 5,
        Body::Configuration { .. } => 6,
        Body::Reply(_) => 7,
        Body::Worth(_) => 8,
        Body::Refuse(_) => 9,
        Body::Accepted(_) => 10,
        Body::Rejected(_) => 11,
        Body::Append(_) => 12,
        Body::Appended(_) => 13,
        Body::Gc(_) => 14,
        Body::Collected(_) => 15,
        Body::Install { .. } => 16,
        Body::Start(_) => 17,
        Body::Recover(_) => 18,
        Body::Fence { .. } => 19,
        Body::FenceAnswer(_) => 20,
        Body::Freeze { .. } => 21,
        Body::FrozenAnswer { .. } => 22,
        Body::Recovered(_) => 23,
        Body::Adopted(_) => 24,
        Body::Prepare(_) => 25,
        Body::Prepared { .. } => 26,
        Body::TakeOut(_) => 27,
        Body::Taken(_) => 28,
        Body::GiveIn(_) => 29,
        Body::Given { .. } => 30,
        Body::ExpireClient { .. } => 31,
        Body::Probe(_) => 32,
        Body::Probed(_) => 33,
        Body::Glance(_) => 34,
        Body::Quick(_) => 35,
    }
}

/// Writes a body's fields.
#[tactic(auto, unfolding(curp_fields::specs::Fields::requests))]
pub(crate) fn write_fields(body: &Body, out: &mut Writer) -> Result<(), NoMemory>
    requires { HasFields body.now }
    ensures writes { WritesItem out.old out.new result (body_parts body.now).text }
    ensures fits { OnOk result (body_parts body.now).Fits }
{
    match body {
        Body::Fetch => Ok(()),
        Body::Update(ask) | Body::Sync(ask) | Body::Read(ask) | Body::Glance(ask) => ask.write(out),
        Body::Record(record) => record.write(out),
        Body::Configuration { config } => config.write(out),
        Body::Reply(reply) => reply.write(out),
        Body::Worth(worth) => worth.write(out),
        Body::Refuse(refuse) => refuse.write(out),
        Body::Accepted(accepted) => accepted.write(out),
        Body::Rejected(rejected) => rejected.write(out),
        Body::Append(append) => append.write(out),
        Body::Appended(appended) => appended.write(out),
        Body::Gc(gc) => gc.write(out),
        Body::Collected(collected) => collected.write(out),
        Body::Install { epoch: number }
        | Body::Fence { epoch: number }
        | Body::Freeze { epoch: number }
        | Body::Prepared { version: number }
        | Body::Given { migration: number }
        | Body::ExpireClient { client: number } => number.write(out),
        Body::Start(start) => start.write(out),
        Body::Recover(recover) => recover.write(out),
        Body::FenceAnswer(answer) => answer.write(out),
        Body::FrozenAnswer { requests } => write_parts(requests.as_slice(), out),
        Body::Recovered(recovered) => recovered.write(out),
        Body::Adopted(adopted) => adopted.write(out),
        Body::Prepare(prepare) => prepare.write(out),
        Body::TakeOut(take) => take.write(out),
        Body::Taken(parcel) | Body::GiveIn(parcel) => parcel.write(out),
        Body::Probe(probe) => probe.write(out),
        Body::Probed(probed) => probed.write(out),
        Body::Quick(quick) => quick.write(out),
    }
}

/// Reads the fields of the tag.
#[tactic(auto, unfolding(curp_fields::specs::Fields::requests))]
pub(crate) fn read_fields(
    tag: u8,
    alloc: Global,
    reader: &mut Reader,
) -> Result<Body, Failed<Fault>>
    ensures { ReadsIfMemory result reader.new (by_tag body_variants tag reader.old.place reader.old) }
{
    match tag {
        1 => Ok(Body::Update(Part::read(alloc, reader)?)),
        2 => Ok(Body::Sync(Part::read(alloc, reader)?)),
        3 => Ok(Body::Read(Part::read(alloc, reader)?)),
        4 => Ok(Body::Record(Part::read(alloc, reader)?)),
        5 => Ok(Body::Fetch),
        6 => Ok(Body::Configuration {
            config: Part::read(alloc, reader)?,
        }),
        7 => Ok(Body::Reply(Part::read(alloc, reader)?)),
        8 => Ok(Body::Worth(Part::read(alloc, reader)?)),
        9 => Ok(Body::Refuse(Part::read(alloc, reader)?)),
        10 => Ok(Body::Accepted(Part::read(alloc, reader)?)),
        11 => Ok(Body::Rejected(Part::read(alloc, reader)?)),
        _ => read_later_fields(tag, alloc, reader),
    }
}

/// The same where the tag is none of a client's.
#[tactic(auto, unfolding(curp_fields::specs::Fields::requests))]
fn read_later_fields(tag: u8, alloc: Global, reader: &mut Reader) -> Result<Body, Failed<Fault>>
    ensures { ReadsIfMemory result reader.new (by_tag later_variants tag reader.old.place reader.old) }
{
    match tag {
        12 => Ok(Body::Append(Part::read(alloc, reader)?)),
        13 => Ok(Body::Appended(Part::read(alloc, reader)?)),
        14 => Ok(Body::Gc(Part::read(alloc, reader)?)),
        15 => Ok(Body::Collected(Part::read(alloc, reader)?)),
        16 => Ok(Body::Install {
            epoch: Item::read(reader)?,
        }),
        17 => Ok(Body::Start(Part::read(alloc, reader)?)),
        18 => Ok(Body::Recover(Part::read(alloc, reader)?)),
        19 => Ok(Body::Fence {
            epoch: Item::read(reader)?,
        }),
        20 => Ok(Body::FenceAnswer(Part::read(alloc, reader)?)),
        21 => Ok(Body::Freeze {
            epoch: Item::read(reader)?,
        }),
        22 => Ok(Body::FrozenAnswer {
            requests: read_parts(alloc, reader)?,
        }),
        _ => read_last_fields(tag, alloc, reader),
    }
}

/// The same where the tag is none of those before.
#[tactic(auto, unfolding(curp_fields::specs::Fields::requests))]
fn read_last_fields(tag: u8, alloc: Global, reader: &mut Reader) -> Result<Body, Failed<Fault>>
    ensures { ReadsIfMemory result reader.new (by_tag last_variants tag reader.old.place reader.old) }
{
    match tag {
        23 => Ok(Body::Recovered(Part::read(alloc, reader)?)),
        24 => Ok(Body::Adopted(Part::read(alloc, reader)?)),
        25 => Ok(Body::Prepare(Part::read(alloc, reader)?)),
        26 => Ok(Body::Prepared {
            version: Item::read(reader)?,
        }),
        27 => Ok(Body::TakeOut(Part::read(alloc, reader)?)),
        28 => Ok(Body::Taken(Part::read(alloc, reader)?)),
        29 => Ok(Body::GiveIn(Part::read(alloc, reader)?)),
        30 => Ok(Body::Given {
            migration: Item::read(reader)?,
        }),
        31 => Ok(Body::ExpireClient {
            client: Item::read(reader)?,
        }),
        32 => Ok(Body::Probe(Part::read(alloc, reader)?)),
        33 => Ok(Body::Probed(Part::read(alloc, reader)?)),
        34 => Ok(Body::Glance(Part::read(alloc, reader)?)),
        35 => Ok(Body::Quick(Part::read(alloc, reader)?)),
        _ => Err(Failed::Because(Fault {
            place: reader.place(),
        })),
    }
}

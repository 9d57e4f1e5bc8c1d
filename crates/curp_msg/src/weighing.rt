ghost use Rattle.std.specs.Prelude.{◌≡◌, ◌-◌, ◌^◌, min, map};
ghost use Rattle.std.specs.List.{sum};
ghost use Rattle.curp_msg.specs.Weight.{weight_of, carried, entries_weight, entry_weight};
ghost use Rattle.curp_msg.specs.Weight.{package_weight, part_weight, collection_weight, fence_weight};

use crate::{Body, FenceReply, GcAnswer, Message, PartConfig};
use curp_cmd::{Entry, Package, pairs_put};

/// How much a message weighs: 1, and 1 more for each entry, each pair of a multi-put in an entry, each pair and record
/// of a package, each id of a collection, each request that a witness tells, each partition and each range of a
/// configuration. It stands still at 2^64 - 1. (This project's own measure.)
#[tactic(auto, unfolding(crate::specs::Weight::weight_of))]
pub fn weight(message: &Message) -> u64
    ensures { result ≡ weight_of message.now }
{
    carried(&message.body).saturating_add(1)
}

fn carried(body: &Body) -> u64
    ensures { result ≡ min (carried body.now) (2 ^ 64 - 1) }
{
    match body {
        Body::Configuration { config } => parts_weight(config.parts.as_slice()),
        Body::Append(append) => entries_weight(append.entries.as_slice()),
        Body::Gc(gc) => gc.ids.len() as u64,
        Body::Collected(collected) => collection_weight(&collected.answer),
        Body::FenceAnswer(answer) => fence_weight(&answer.answer),
        Body::FrozenAnswer { requests } => requests.len() as u64,
        Body::Taken(parcel) | Body::GiveIn(parcel) => package_weight(&parcel.get().package),
        _ => 0,
    }
}

fn collection_weight(answer: &GcAnswer) -> u64
    ensures { result ≡ min (collection_weight answer.now) (2 ^ 64 - 1) }
{
    match answer {
        GcAnswer::Suspects(requests) => requests.len() as u64,
        GcAnswer::Stranger { .. } => 0,
    }
}

fn fence_weight(answer: &FenceReply) -> u64
    ensures { result ≡ min (fence_weight answer.now) (2 ^ 64 - 1) }
{
    match answer {
        FenceReply::Log(entries) => entries_weight(entries.as_slice()),
        FenceReply::Fenced { .. } => 0,
    }
}

fn package_weight(moved: &Package) -> u64
    ensures { result ≡ min (package_weight moved.now) (2 ^ 64 - 1) }
{
    (moved.pairs.len() as u64).saturating_add(moved.table.records.len() as u64)
}

fn entry_weight(entry: &Entry) -> u64
    ensures { result ≡ min (entry_weight entry.now) (2 ^ 64 - 1) }
{
    let more = match entry {
        Entry::Op { request, .. } => pairs_put(&request.command),
        Entry::Take { package, .. } | Entry::Give { package, .. } => package_weight(package),
        Entry::Expire { .. } => 0,
    };
    more.saturating_add(1)
}

fn entries_weight(entries: &[Entry]) -> u64
    ensures { result ≡ min (entries_weight entries.now) (2 ^ 64 - 1) }
{
    let mut total: u64 = 0;
    for entry in entries {
        total = total.saturating_add(entry_weight(entry));
    }
    total
}

fn parts_weight(parts: &[PartConfig]) -> u64
    ensures { result ≡ min (sum (map part_weight parts.now)) (2 ^ 64 - 1) }
{
    let mut total: u64 = 0;
    for part in parts {
        let ranges = part.ranges.len() as u64;
        total = total.saturating_add(ranges.saturating_add(1));
    }
    total
}

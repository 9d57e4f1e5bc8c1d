// The configuration once a range has moved.
ghost use Rattle.std.specs.Prelude.{◌≡◌, ◌≤◌, [], length, map, OnErr, OnOk};
ghost use Rattle.curp_base.specs.Words.{Each};
ghost use Rattle.curp_changes.specs.Moving.{HasRoomFor, RoomyEntry};
ghost use Rattle.curp_model.specs.Manager.{moved_part};
ghost use Rattle.curp_range.specs.Spans.{without};

use crate::migration::Migration;
use curp_base::{Items, NoMemory, Reserved};
use curp_msg::PartConfig;
use curp_range::{Ranges, Spans};
use std::alloc::Global;
use std::marker::Model;
use std::mem;

/// Has the range of a migration belong to its target. No span is copied; it takes memory for two more in the entries of source
/// and target, and while it works for a list of the partitions.
pub fn move_range(
    alloc: Global,
    parts: &mut Items<PartConfig>,
    migration: &Migration,
) -> Result<(), NoMemory>
    ensures ok { OnOk result (parts.new ≡ map (moved_part migration.now) parts.old) }
    ensures err { OnErr result (parts.new ≡ parts.old) }
{
    let roomy = Reserved::with_room(alloc, parts.len() as u64)?;
    let entries = Reserved::with_room(alloc, parts.len() as u64)?;
    let before = mem::replace(parts, Items::new(Vec::new(alloc)));
    let (roomy, room) = with_room(alloc, before.into_vec(), roomy, migration);
    let after = match room {
        Ok(()) => moved(roomy, entries, migration),
        Err(_) => as_before(roomy, entries),
    };
    *parts = Items::new(after);
    room
}

/// An entry, and its ranges as a set of hashes that can be changed, once they were taken out of it.
#[derive(Drop)]
struct Roomy {
    entry: PartConfig,
    ranges: Option<Ranges>,
}

impl Model for Roomy {
    ghost use Rattle.curp_changes.specs.Moving.{RoomyEntry, room_in, with_own};

    ghost Value = { RoomyEntry };

    ghost view = { λ r. record { entry = with_own r.entry r.ranges; spare = room_in r.ranges } };
}

impl Roomy {
    // The entry, and whether there was memory for the room that a migration takes in it.
    fn new(
        alloc: Global,
        mut entry: PartConfig,
        migration: &Migration,
    ) -> (Roomy, Result<(), NoMemory>)
        ensures entry { result.0.entry ≡ entry }
        ensures room { OnOk result.1 (HasRoomFor migration.now result.0) }
    {
        if entry.part != migration.source && entry.part != migration.target {
            return (Roomy::untouched(entry), Ok(()));
        }
        let other = match Ranges::new(alloc, migration.lo, migration.hi) {
            Ok(other) => Spans::new(other),
            Err(why) => return (Roomy::untouched(entry), Err(why)),
        };
        let mut ranges = Ranges::from_spans(mem::replace(&mut entry.ranges, other));
        let room = ranges.reserve(2);
        let roomy = Roomy {
            entry,
            ranges: Some(ranges),
        };
        (roomy, room)
    }

    fn untouched(entry: PartConfig) -> Roomy
        ensures { result ≡ record { entry = entry; spare = 0 } }
    {
        Roomy {
            entry,
            ranges: None,
        }
    }

    fn into_entry(self) -> PartConfig
        ensures { result ≡ self.entry }
    {
        let Roomy { mut entry, ranges } = self;
        if let Some(ranges) = ranges {
            entry.ranges = Spans::new(ranges);
        }
        entry
    }

    fn moved(self, migration: &Migration) -> PartConfig
        requires { HasRoomFor migration.now self }
        ensures { result ≡ moved_part migration.now self.entry }
    {
        let Roomy { mut entry, ranges } = self;
        let Some(mut ranges) = ranges else {
            return entry;
        };
        if entry.part == migration.source {
            leave(&mut ranges, migration.lo, migration.hi);
        } else if entry.part == migration.target {
            ranges.unite(migration.lo, migration.hi);
        }
        entry.ranges = Spans::new(ranges);
        entry
    }
}

// Owns the hashes of a range no longer, whatever of it was owned.
#[tactic(auto, using(crate::proofs::SpansMoved::leaving))]
fn leave(ranges: &mut Ranges, lo: u64, hi: u64)
    requires ordered { lo ≤ hi }
    requires room { 2 ≤ ranges.old.spare }
    ensures { ranges.new.spans ≡ without ranges.old.spans lo hi }
{
    // What isn't there can't be taken out, so it is put in before.
    let _before = ranges.spans();
    ranges.unite(lo, hi);
    ranges.take_out(lo, hi).unwrap();
    let _after = ranges.spans();
}

// The entries, and whether there was memory for the room that a migration takes.
fn with_room(
    alloc: Global,
    entries: Vec<PartConfig>,
    mut list: Reserved<Roomy>,
    migration: &Migration,
) -> (Vec<Roomy>, Result<(), NoMemory>)
    requires empty { list.items ≡ [] }
    requires spare { length entries.items ≤ list.spare }
    ensures entries { map (λ (e : RoomyEntry). e.entry) result.0.items ≡ entries.items }
    ensures room { OnOk result.1 (Each (HasRoomFor migration.now) result.0.items) }
{
    let mut room = Ok(());
    for entry in entries {
        let (roomy, had) = Roomy::new(alloc, entry, migration);
        room = room.and(had);
        list.push(roomy);
    }
    (list.into_vec(), room)
}

fn moved(
    roomy: Vec<Roomy>,
    mut list: Reserved<PartConfig>,
    migration: &Migration,
) -> Vec<PartConfig>
    requires empty { list.items ≡ [] }
    requires spare { length roomy.items ≤ list.spare }
    requires room { Each (HasRoomFor migration.now) roomy.items }
    ensures { result.items ≡ map (moved_part migration.now) (map (λ (e : RoomyEntry). e.entry) roomy.items) }
{
    for entry in roomy {
        list.push(entry.moved(migration));
    }
    list.into_vec()
}

fn as_before(roomy: Vec<Roomy>, mut list: Reserved<PartConfig>) -> Vec<PartConfig>
    requires empty { list.items ≡ [] }
    requires spare { length roomy.items ≤ list.spare }
    ensures { result.items ≡ map (λ (e : RoomyEntry). e.entry) roomy.items }
{
    for entry in roomy {
        list.push(entry.into_entry());
    }
    list.into_vec()
}

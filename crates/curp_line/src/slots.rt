ghost use Rattle.std.specs.Prelude.{◌≡◌, ◌+◌, ◌≤◌, [], length, map, max, IfOk, OnOk};
ghost use Rattle.std.specs.List.{filter, list_any};
ghost use Rattle.curp_line.specs.Slots.{completes, dropped_slot, flagged_slot, is_shown_slot, shown_of, with_slot};

use crate::key::RequestKey;
use crate::mark::KeptMark;
use crate::reserved_map::ReservedMap;
use crate::slot::{MarkSlot, ShownMark, drop_marks, flag_marks, has_completed, shown};
use curp_base::{NoMemory, make_room};
use curp_cmd::RequestId;
use curp_msg::Completed;
use std::alloc::Global;
use std::marker::Model;

/// The slots of the marks of requests, in the order in which these came. Contracts see them, for how many more there is room,
/// and for how many in the list or map that has the most of it.
///
/// The slots of one request, and those of one partition, are found from the last one back to the first (this project's
/// own choice).
#[derive(Drop)]
pub struct MarkSlots {
    list: Vec<MarkSlot>,
    // The last slot of each request, and of each partition.
    requests: ReservedMap<RequestKey, usize>,
    parts: ReservedMap<u32, usize>,
}

impl Model for MarkSlots {
    ghost use Rattle.std.specs.Prelude.{◌==◌, ◌-◌, max, min, vec_len, vec_capacity};
    ghost use Rattle.std.specs.Map.{lookup};
    ghost use Rattle.curp_cmd.specs.RequestId.{same_id};
    ghost use Rattle.curp_line.specs.Content.{Slotted};
    ghost use Rattle.curp_line.specs.Slots.{IsLinked};

    ghost Value = { Slotted };

    ghost view = { λ s. record {
      slots = s.list.items;
      spare = min (vec_capacity s.list - vec_len s.list) (min s.requests.spare s.parts.spare);
      most = max (vec_capacity s.list - vec_len s.list) (max s.requests.spare s.parts.spare);
    } };

    ghost invariant = { λ s. IsLinked
        (λ id. lookup (λ key. same_id id key.0) s.requests.items)
        (λ part. lookup (λ key. part == key) s.parts.items)
        s.list.items };
}

impl MarkSlots {
    /// No slots. It takes no memory.
    pub fn new(alloc: Global) -> MarkSlots
        ensures slots { result.slots ≡ [] }
        ensures no_room { result.most ≡ 0 }
    {
        MarkSlots {
            list: Vec::new(alloc),
            requests: ReservedMap::new(alloc),
            parts: ReservedMap::new(alloc),
        }
    }

    /// Makes room for so many more slots, or for as many as there are where that is more.
    pub fn reserve(&mut self, slots: usize) -> Result<(), NoMemory>
        ensures slots { self.new.slots ≡ self.old.slots }
        ensures room { OnOk result (slots ≤ self.new.spare) }
        ensures kept { self.old.spare ≤ self.new.spare }
        ensures no_more { self.new.most ≤ max self.old.most (max slots (length self.old.slots)) }
    {
        make_room(&mut self.list, slots)?;
        self.requests.reserve(slots)?;
        self.parts.reserve(slots)
    }

    /// Adds a slot with a mark that stands behind so many adoptions. It takes no memory, since there is room, and looks
    /// at no other slot.
    pub fn push(&mut self, mark: KeptMark, cuts_before: usize)
        requires { 1 ≤ self.old.spare }
        ensures slots { self.new.slots ≡ with_slot mark cuts_before self.old.slots }
        ensures spare { self.old.spare ≤ self.new.spare + 1 }
    {
        let at = self.list.len();
        let earlier_of_request = self.requests.put(RequestKey(mark.id()), at);
        let earlier_of_part = self.parts.put(mark.part(), at);
        self.list.push_reserved(MarkSlot {
            mark,
            cuts_before,
            dropped: false,
            earlier_of_request,
            earlier_of_part,
        });
    }

    /// Flags the marks that the completion means. It looks at the slots of that request alone.
    pub fn flag(&mut self, completed: &Completed)
        ensures slots { self.new.slots ≡ map (flagged_slot completed.now) self.old.slots }
        ensures spare { self.new.spare ≡ self.old.spare }
    {
        let latest = self.requests.value_of(&RequestKey(completed.id));
        flag_marks(&mut self.list, latest, completed);
    }

    /// Drops the partition's marks that go where it adopts a log that is recovered up to the cut. It looks at the slots
    /// of that partition alone.
    pub fn drop_past(&mut self, part: u32, cut: u64)
        ensures slots { self.new.slots ≡ map (dropped_slot part cut) self.old.slots }
        ensures spare { self.new.spare ≡ self.old.spare }
    {
        let latest = self.parts.value_of(&part);
        drop_marks(&mut self.list, latest, part, cut);
    }

    /// Whether the request has completed by one of its marks. It looks at the slots of that request alone.
    pub fn has_completed(&self, id: &RequestId) -> bool
        ensures { result ≡ list_any (completes id.now) self.now.slots }
    {
        let latest = self.requests.value_of(&RequestKey(*id));
        has_completed(&self.list, latest, id)
    }

    /// What the marks that the order shows are of, in the order in which they came.
    pub fn shown(&self, alloc: Global) -> Result<Vec<ShownMark>, NoMemory>
        ensures { IfOk result (λ shown. shown.items ≡ map shown_of (filter is_shown_slot self.now.slots)) }
    {
        shown(alloc, &self.list)
    }
}

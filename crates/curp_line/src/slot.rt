ghost use Rattle.std.specs.Prelude.{◌≡◌, ◌≤◌, ℕ, filter, map, IfOk};
ghost use Rattle.std.specs.List.{list_any};
ghost use Rattle.curp_base.specs.Words.{Each};
ghost use Rattle.curp_line.specs.Slots.{PartsLinked, RequestsLinked, asked, completes, dropped_slot, flagged_slot, in_runs};
ghost use Rattle.curp_line.specs.Slots.{is_completed, is_of_part, is_of_request, is_shown_slot, last_place, shown_of};

use crate::mark::KeptMark;
use curp_base::NoMemory;
use curp_cmd::{KeptCommand, RequestId};
use curp_msg::Completed;
use std::alloc::Global;

/// A place in the order in which the marks came. It stays when its mark is dropped, so that the places of the others
/// stay what they are.
#[derive(Drop)]
pub struct MarkSlot {
    pub mark: KeptMark,
    /// How many of the adoptions the mark stands behind.
    pub cuts_before: usize,
    pub dropped: bool,
    pub earlier_of_request: Option<usize>,
    pub earlier_of_part: Option<usize>,
}

impl MarkSlot {
    /// Flags the mark, if the completion means it.
    pub fn flag(&mut self, completed: &Completed)
        ensures { self.new ≡ flagged_slot completed.now self.old }
    {
        if self.mark.is_flagged(completed) {
            self.mark.complete();
        }
    }

    /// Drops the mark, if it goes where that partition adopts a log that is recovered up to the cut.
    pub fn drop_past(&mut self, part: u32, cut: u64)
        ensures { self.new ≡ dropped_slot part cut self.old }
    {
        if self.mark.is_dropped(part, cut) {
            self.dropped = true;
        }
    }

    /// Whether it has a mark by which a request has completed.
    pub fn is_completed(&self) -> bool
        ensures { result ≡ is_completed self.now }
    {
        !self.dropped && self.mark.has_completed()
    }

    /// Whether the order shows its mark.
    pub fn is_shown(&self) -> bool
        ensures { result ≡ is_shown_slot self.now }
    {
        !self.dropped && self.mark.is_shown()
    }

    /// What its mark is of, and where it stands.
    pub fn shown(&self, alloc: Global) -> Result<ShownMark, NoMemory>
        ensures { IfOk result (λ shown. shown ≡ shown_of self.now) }
    {
        Ok(ShownMark {
            cuts_before: self.cuts_before,
            id: self.mark.id(),
            command: self.mark.command().share(alloc)?,
        })
    }
}

/// What a mark that the order shows is of, and how many of the adoptions it stands behind.
#[derive(Drop)]
pub struct ShownMark {
    pub cuts_before: usize,
    pub id: RequestId,
    pub command: KeptCommand,
}

/// What the marks that the order shows are of, in the order in which they came.
pub fn shown(alloc: Global, slots: &[MarkSlot]) -> Result<Vec<ShownMark>, NoMemory>
    ensures { IfOk result (λ shown. shown.items ≡ map shown_of (filter is_shown_slot slots.now)) }
{
    let mut shown = Vec::new(alloc);
    for slot in slots {
        if slot.is_shown() {
            shown.push(slot.shown(alloc)?)?;
        }
    }
    Ok(shown)
}

/// What the marks are of, in the order in which they stand: those behind fewer adoptions first, and those between the
/// same two as they came.
pub fn in_order(
    alloc: Global,
    mut shown: Vec<ShownMark>,
) -> Result<Vec<(RequestId, KeptCommand)>, NoMemory>
    ensures { IfOk result (λ order. (cuts : ℕ) → Each (λ s. s.cuts_before ≤ cuts) shown.items
        → order.items ≡ map asked (in_runs (λ s. s.cuts_before) 0 cuts shown.items)) }
{
    shown.sort_by_key(|mark| mark.cuts_before)?;
    let mut order = Vec::new(alloc);
    for mark in &shown {
        order.push((mark.id, mark.command.share(alloc)?))?;
    }
    Ok(order)
}

/// Flags the marks that the completion means. It looks at the slots of that request alone, whose last one is given.
pub fn flag_marks(slots: &mut [MarkSlot], latest: Option<usize>, completed: &Completed)
    requires linked { RequestsLinked slots.old }
    requires latest { latest ≡ last_place (is_of_request completed.now.id) slots.old }
    ensures { slots.new ≡ map (flagged_slot completed.now) slots.old }
{
    let mut next = latest;
    while let Some(at) = next {
        let slot = &mut slots[at];
        next = slot.earlier_of_request;
        slot.flag(completed);
    }
}

/// Drops the partition's marks that go at its adoption. It looks at the slots of that partition alone, whose last one
/// is given.
pub fn drop_marks(slots: &mut [MarkSlot], latest: Option<usize>, part: u32, cut: u64)
    requires linked { PartsLinked slots.old }
    requires latest { latest ≡ last_place (is_of_part part) slots.old }
    ensures { slots.new ≡ map (dropped_slot part cut) slots.old }
{
    let mut next = latest;
    while let Some(at) = next {
        let slot = &mut slots[at];
        next = slot.earlier_of_part;
        slot.drop_past(part, cut);
    }
}

/// Whether the request has completed by one of its marks. It looks at the slots of that request alone, whose last one
/// is given.
pub fn has_completed(slots: &[MarkSlot], latest: Option<usize>, id: &RequestId) -> bool
    requires linked { RequestsLinked slots.now }
    requires latest { latest ≡ last_place (is_of_request id.now) slots.now }
    ensures { result ≡ list_any (completes id.now) slots.now }
{
    let mut next = latest;
    while let Some(at) = next {
        let slot = &slots[at];
        if slot.is_completed() {
            return true;
        }
        next = slot.earlier_of_request;
    }
    false
}

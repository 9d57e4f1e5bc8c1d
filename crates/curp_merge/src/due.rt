ghost use Rattle.std.specs.Prelude.{◌≡◌, length, IfNone, IfSome};
ghost use Rattle.curp_journal.specs.Journal.{last_stamp};
ghost use Rattle.curp_merge.specs.Weaving.{IsDue, NoneLeft, is_less, next_stamp};

use crate::Strand;
use crate::track::Track;
use curp_journal::Item;

/// The place of the strand whose next turn has the least stamp, the first of those. None where all turns were taken.
pub(crate) fn due(strands: &[Strand<'_>], tracks: &[Track]) -> Option<usize>
    requires { length tracks.now ≡ length strands.now }
    ensures none { IfNone result (NoneLeft strands.now tracks.now) }
    ensures some { IfSome result (IsDue strands.now tracks.now) }
{
    let mut best: Option<(usize, u64)> = None;
    for at in 0..strands.len() {
        let track = &tracks[at];
        let strand = &strands[at];
        if let Some(stamp) = next_stamp(strand, track.len()) {
            if is_less(&best, stamp) {
                best = Some((at, stamp));
            }
        }
    }
    match best {
        Some((at, _stamp)) => Some(at),
        None => None,
    }
}

fn is_less(best: &Option<(usize, u64)>, stamp: u64) -> bool
    ensures { result ≡ is_less best.now stamp }
{
    match best {
        Some((_, least)) => stamp < *least,
        None => true,
    }
}

/// The stamp of the next turn of a strand of which so many were taken.
fn next_stamp(strand: &Strand<'_>, taken: usize) -> Option<u64>
    ensures { result ≡ next_stamp strand.now taken }
{
    let items = strand.items();
    if taken < items.len() {
        let item = &items[taken];
        return Some(item.stamp);
    }
    if strand.ended() && taken == items.len() {
        return Some(last_stamp(items));
    }
    None
}

/// The stamp of a last stop behind these items.
fn last_stamp(items: &[Item]) -> u64
    ensures { result ≡ last_stamp 0 items.now }
{
    match items.last() {
        Some(item) => item.stamp,
        None => 0,
    }
}

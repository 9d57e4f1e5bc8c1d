// Crashes between the calls of the disk, a disk that was refused, and inputs that are.
use crate::build::{TITLE, add, begun_disk, fence, must_hold, opened, opened_as, order_tells};
use curp_base::Failed;
use curp_disk::StopDisk;
use curp_durable::{Answered, Durable, DurableError, OpenError, SIZE_LIMIT};
use curp_journal::Arrived;
use curp_msg::Local;
use curp_nodes::BackupNode;
use std::alloc::Global;
use std::process::Abort;

fn backup(alloc: Global) -> BackupNode {
    BackupNode::new(alloc, 1, 1)
}

fn reopened(rt: &impl Abort, alloc: Global, disk: StopDisk) -> Durable<BackupNode, StopDisk> {
    opened(rt, alloc, disk, backup(alloc))
}

/// A disk with the journal of a backup that took three messages.
fn disk_of_three(rt: &impl Abort, alloc: Global) -> StopDisk {
    let mut durable = reopened(rt, alloc, begun_disk(rt, alloc));
    must_hold(rt, "three", keeps(rt, alloc, &mut durable, 3));
    durable.into_disk()
}

/// So many fences, of the epochs from 1 on.
fn fences(rt: &impl Abort, alloc: Global, count: u32) -> Vec<Arrived> {
    let mut inputs = Vec::new(alloc);
    for epoch in 1..=count {
        add(rt, &mut inputs, Arrived::Message(fence(epoch, 1)));
    }
    inputs
}

/// How many of so many messages are kept, or why none is.
fn kept(
    rt: &impl Abort,
    alloc: Global,
    durable: &mut Durable<BackupNode, StopDisk>,
    count: u32,
) -> Result<usize, Failed<DurableError>> {
    let answers = durable.on_all(fences(rt, alloc, count))?;
    let count = answers.len();
    drop(answers);
    Ok(count)
}

fn keeps(
    rt: &impl Abort,
    alloc: Global,
    durable: &mut Durable<BackupNode, StopDisk>,
    count: u32,
) -> bool {
    match kept(rt, alloc, durable, count) {
        Ok(found) => found == count as usize,
        Err(_) => false,
    }
}

fn fails(
    rt: &impl Abort,
    alloc: Global,
    durable: &mut Durable<BackupNode, StopDisk>,
    count: u32,
    why: DurableError,
) -> bool {
    match kept(rt, alloc, durable, count) {
        Ok(_) => false,
        Err(error) => error == Failed::Because(why),
    }
}

/// The disk once it stopped at that call while five messages more were kept.
fn stopped(rt: &impl Abort, alloc: Global, call: u64) -> StopDisk {
    let mut disk = disk_of_three(rt, alloc);
    // The sync of the opening is a call too.
    disk.arm(call.wrapping_add(1));
    let mut durable = reopened(rt, alloc, disk);
    let is_told = fails(rt, alloc, &mut durable, 5, DurableError::DiskFault);
    must_hold(rt, "the disk stops", is_told);
    must_hold(rt, "the journal is spent", durable.spent());
    let is_spent = fails(rt, alloc, &mut durable, 1, DurableError::Spent);
    must_hold(rt, "nothing more is taken", is_spent);
    durable.into_disk()
}

/// A batch is kept where the last call was made and what was written since the last sync is kept.
fn try_crash(rt: &impl Abort, alloc: Global, call: u64, kept: bool) {
    let mut disk = stopped(rt, alloc, call);
    disk.crash(kept);
    let mut durable = reopened(rt, alloc, disk);
    let wanted = if call == 4 && kept { 8 } else { 3 };
    let tells = order_tells(rt, alloc, &mut durable, Local::Nudge, (wanted, 0));
    drop(durable);
    must_hold(rt, "what is kept", tells);
}

#[test]
fn a_batch_is_kept_once_its_commit_is(rt: HostRuntime) {
    for call in 1..=4 {
        try_crash(&rt, rt.alloc(), call, false);
        try_crash(&rt, rt.alloc(), call, true);
    }
}

/// Two messages, and between them one that has the highest stamp.
fn mixed(rt: &impl Abort, alloc: Global) -> Vec<Arrived> {
    let mut inputs = Vec::new(alloc);
    for (epoch, stamp) in [(1, 1), (2, u64::MAX), (3, 7)] {
        add(rt, &mut inputs, Arrived::Message(fence(epoch, stamp)));
    }
    inputs
}

/// The disk once three messages more came, of which one is refused.
fn disk_of_mixed(rt: &impl Abort, alloc: Global) -> StopDisk {
    let mut durable = reopened(rt, alloc, disk_of_three(rt, alloc));
    try_mixed(rt, alloc, &mut durable);
    durable.into_disk()
}

fn are_mixed(answers: &[Answered]) -> bool {
    matches!(
        answers,
        [
            Answered::Made { step: 4, .. },
            Answered::Refused { number: 255, .. },
            Answered::Made { step: 5, .. },
        ]
    )
}

fn try_mixed(rt: &impl Abort, alloc: Global, durable: &mut Durable<BackupNode, StopDisk>) {
    let answers = durable.on_all(mixed(rt, alloc)).expect(rt, "no answer");
    let are = are_mixed(&answers);
    drop(answers);
    must_hold(rt, "the numbers", are);
}

#[test]
fn what_is_refused_is_not_kept(rt: HostRuntime) {
    let alloc = rt.alloc();
    let mut disk = disk_of_mixed(&rt, alloc);
    disk.crash(false);
    let mut durable = reopened(&rt, alloc, disk);
    let tells = order_tells(&rt, alloc, &mut durable, Local::Nudge, (5, 0));
    drop(durable);
    must_hold(&rt, "five were kept", tells);
}

/// Why a disk isn't opened as of that title.
fn error_by(rt: &impl Abort, alloc: Global, title: &[u8]) -> Option<Failed<OpenError>> {
    let disk = disk_of_three(rt, alloc);
    match opened_as(alloc, disk, title, backup(alloc), SIZE_LIMIT) {
        Ok(durable) => {
            drop(durable);
            None
        }
        Err(why) => Some(why),
    }
}

#[test]
fn another_title_is_not_opened(rt: HostRuntime) {
    let alloc = rt.alloc();
    let own = error_by(&rt, alloc, b"node");
    must_hold(&rt, "its own", own == None);
    let other = error_by(&rt, alloc, b"nods");
    must_hold(
        &rt,
        "another",
        other == Some(Failed::Because(OpenError::NotFormatted)),
    );
}

fn try_to_fill(rt: &impl Abort, alloc: Global, durable: &mut Durable<BackupNode, StopDisk>) {
    let is_full = fails(rt, alloc, durable, 2, DurableError::Full);
    must_hold(rt, "no room for two", is_full);
    must_hold(rt, "room for one", keeps(rt, alloc, durable, 1));
    let is_full = fails(rt, alloc, durable, 1, DurableError::Full);
    must_hold(rt, "no more room", is_full);
}

/// A message has 49 bytes, a batch 13 more, the title and the last commit byte 5: with a fourth message the journal has 227.
#[test]
fn a_journal_may_be_full(rt: HostRuntime) {
    let alloc = rt.alloc();
    let disk = disk_of_three(&rt, alloc);
    let opened = opened_as(alloc, disk, TITLE, backup(alloc), 227);
    let mut durable = opened.expect(&rt, "no journal");
    try_to_fill(&rt, alloc, &mut durable);
    drop(durable);
}

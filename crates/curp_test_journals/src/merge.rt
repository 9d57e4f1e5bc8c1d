// Journals of a master that asks a backup, and of the backup.
ghost use Rattle.std.specs.Prelude.{◌≢◌};
ghost use Rattle.curp_test_journals.specs.Lines.{IsLine};

use crate::lines::{are_apart, is_line};
use curp_base::Failed;
use curp_cmd::{NodeId, NodeKind};
use curp_journal::{Arrived, Item, Named};
use curp_merge::{GatherError, Strand, merge};
use curp_msg::{Body, Done, Local, Message, Step};
use curp_same::Same;
use std::alloc::Global;
use std::process::Abort;

const MASTER: NodeId = NodeId {
    kind: NodeKind::Master,
    number: 1,
};

const OTHER_MASTER: NodeId = NodeId {
    kind: NodeKind::Master,
    number: 2,
};

const BACKUP: NodeId = NodeId {
    kind: NodeKind::Backup,
    number: 1,
};

// A recovering master's question to the first backup.
fn fence(epoch: u32) -> Message {
    Message {
        from: MASTER,
        to: BACKUP,
        body: Body::Fence { epoch },
    }
}

// A message that the backup took: the stamp of its item, by which place and stamp it is named, and its epoch. It is a
// question of the master's first item.
type Taken = (u64, u64, u64, u32);

// The master's first question, of epoch 1, as the backup takes it.
const FIRST: Taken = (2, 1, 1, 1);

fn named((_, place, stamp, epoch): Taken) -> Named {
    Named {
        from: MASTER,
        step: 1,
        place,
        stamp,
        message: fence(epoch),
    }
}

// The journal of a backup that took these messages.
fn took(rt: &impl Abort, alloc: Global, messages: &[Taken]) -> Vec<Item> {
    let mut items = Vec::new(alloc);
    for taken in messages {
        let item = Item {
            stamp: taken.0,
            input: Arrived::Message(named(*taken)),
            done: Done::quiet(alloc),
        };
        assert!(rt; items.push(item).is_ok());
    }
    items
}

// The journal of a master that is ordered to begin a round, and sends questions of these epochs.
fn asked(rt: &impl Abort, alloc: Global, epochs: &[u32]) -> Vec<Item> {
    let mut sent = Vec::new(alloc);
    for epoch in epochs {
        assert!(rt; sent.push(fence(*epoch)).is_ok());
    }
    let mut items = Vec::new(alloc);
    let item = Item {
        stamp: 1,
        input: Arrived::Local(Local::Sync, 0),
        done: Done::sends(sent),
    };
    assert!(rt; items.push(item).is_ok());
    items
}

fn merged(
    alloc: Global,
    first: Strand<'_>,
    second: Strand<'_>,
) -> Result<Vec<Step>, Failed<GatherError>>
    requires apart { first.id ≢ second.id }
    requires first { IsLine first }
    requires second { IsLine second }
{
    merge(alloc, &[first, second])
}

// What merging two journals gives. They can be merged.
fn merging(
    rt: &impl Abort,
    alloc: Global,
    first: Strand<'_>,
    second: Strand<'_>,
) -> Result<Vec<Step>, Failed<GatherError>> {
    assert!(rt; are_apart(&first, &second));
    assert!(rt; is_line(&first));
    assert!(rt; is_line(&second));
    merged(alloc, first, second)
}

// Merging gives these steps.
fn try_steps(
    rt: &impl Abort,
    alloc: Global,
    first: Strand<'_>,
    second: Strand<'_>,
    wanted: &[Step],
) {
    match merging(rt, alloc, first, second) {
        Ok(steps) => assert!(rt; steps.as_slice() == wanted),
        Err(_) => panic!(rt; "it isn't merged"),
    }
}

fn is_as(told: &Named, taken: Taken) -> bool {
    let wanted = named(taken);
    let is_same = told.from == wanted.from
        && (told.step, told.place, told.stamp) == (wanted.step, wanted.place, wanted.stamp)
        && told.message.same(&wanted.message);
    drop(wanted);
    is_same
}

fn tells(told: &Failed<GatherError>, taken: Taken) -> bool {
    match told {
        Failed::Because(
            GatherError::Mismatch {
                node,
                step,
                got,
                kept: Some(kept),
            },
        ) => (*node, *step) == (BACKUP, 1) && is_as(got, taken) && is_as(kept, FIRST),
        _ => false,
    }
}

// It is told that the backup's first item took this in place of the master's first question.
fn try_mismatch(rt: &impl Abort, alloc: Global, taken: Taken) {
    let master = asked(rt, alloc, &[1]);
    let backup = took(rt, alloc, &[taken]);
    let first = Strand::new(MASTER, &master, false);
    let second = Strand::new(BACKUP, &backup, false);
    match merging(rt, alloc, first, second) {
        Ok(_) => panic!(rt; "it is merged"),
        Err(told) => assert!(rt; tells(&told, taken)),
    }
    drop(backup);
    drop(master);
}

#[test]
fn a_changed_message_is_a_mismatch(rt: HostRuntime) {
    try_mismatch(&rt, rt.alloc(), (2, 1, 1, 2));
    try_mismatch(&rt, rt.alloc(), (3, 1, 2, 1));
}

const CROSSED: [Step; 3] = [
    Step::Sync { master: 1 },
    Step::Deliver { message: 2 },
    Step::Deliver { message: 1 },
];

// A backup that took the second question of a master first, which is of this epoch, is merged so.
fn try_crossed(rt: &impl Abort, alloc: Global, epoch: u32) {
    let master = asked(rt, alloc, &[1, epoch]);
    let backup = took(rt, alloc, &[(2, 2, 1, epoch), (3, 1, 1, 1)]);
    let first = Strand::new(BACKUP, &backup, false);
    let second = Strand::new(MASTER, &master, false);
    try_steps(rt, alloc, first, second, &CROSSED);
    drop(backup);
    drop(master);
}

#[test]
fn messages_go_over_and_equal_ones_are_told_apart(rt: HostRuntime) {
    try_crossed(&rt, rt.alloc(), 2);
    try_crossed(&rt, rt.alloc(), 1);
}

const STOPPED: [Step; 3] = [
    Step::Stop { node: BACKUP },
    Step::Sync { master: 1 },
    Step::Stop { node: MASTER },
];

const BY_LINES: [Step; 3] = [
    Step::Sync { master: 2 },
    Step::Stop { node: OTHER_MASTER },
    Step::Sync { master: 1 },
];

#[test]
fn stops_follow_their_items_and_equal_stamps_go_by_lines(rt: HostRuntime) {
    let alloc = rt.alloc();
    let items = asked(&rt, alloc, &[]);
    let (first, second) = (
        Strand::new(MASTER, &items, true),
        Strand::new(BACKUP, &[], true),
    );
    try_steps(&rt, alloc, first, second, &STOPPED);
    let (first, second) = (
        Strand::new(OTHER_MASTER, &items, true),
        Strand::new(MASTER, &items, false),
    );
    try_steps(&rt, alloc, first, second, &BY_LINES);
    drop(items);
}

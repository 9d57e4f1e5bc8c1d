// Journals by their bytes, which were written by hand: the checksums by another program.
use crate::build::{
    add, answered, backup, begin, disk_failing, disk_of, has_bytes, must_hold, opened,
};
use curp_base::{Failed, Items, Shared};
use curp_changes::Shape;
use curp_cmd::{Command, Key, NodeId, Request, RequestId};
use curp_disk::MemoryDisk;
use curp_durable::{Answered, Durable, OpenError};
use curp_journal::{Arrived, Named};
use curp_msg::{Body, Config, Core, Local, Message, Protocol, Record};
use curp_nodes::{BackupNode, ClientNode, ManagerNode, MasterNode, WitnessNode};
use std::alloc::Global;
use std::process::Abort;

/// Three batches: an expiry; a fence for a backup, and a record for a witness; a fetch by a client, and a nudge.
pub(crate) static JOURNAL: [u8; 191] = [
    b'n', b'o', b'd', b'e', //
    1, 0, 0, 0, 22, //
    1, 5, 0, 0, 0, 1, 0, 0, 0, 0, 0, 0, 0, 0, //
    73, 67, 109, 56, 167, 114, 63, 40, //
    1, 0, 0, 0, 121, //
    0, 2, 0, 0, 0, 2, 0, 0, 0, 0, 0, 0, 0, 1, 0, 0, 0, 0, 0, 0, 0, 1, 0, 0, 0, 0, 0, 0, 0, 7, 0, 0,
    0, 15, 19, //
    2, 0, 0, 0, 2, 3, 0, 0, 0, 1, 0, 0, 0, 5, //
    0, 1, 0, 0, 0, 1, 0, 0, 0, 0, 0, 0, 0, 3, 0, 0, 0, 0, 0, 0, 0, 2, 0, 0, 0, 0, 0, 0, 0, 4, 0, 0,
    0, 30, 4, 1, //
    0, 0, 0, 1, 4, 0, 0, 0, 1, 0, 0, 0, 1, 0, 0, 0, 2, 0, 0, 0, 2, 1, 1, 97, 0, 0, 0, 5, //
    120, 217, 249, 132, 173, 237, 202, 244, //
    1, 0, 0, 0, 28, //
    1, 8, 0, 0, 0, 0, 0, 0, 0, 0, //
    1, 4, 0, 0, 0, 0, 0, 0, 0, 9, //
    65, 126, 89, 187, 159, 130, 90, 238, //
    0,
];

// ---- what is written

/// A batch of one input or two.
fn batch(rt: &impl Abort, alloc: Global, first: Arrived, second: Option<Arrived>) -> Vec<Arrived> {
    let mut batch = Vec::new(alloc);
    add(rt, &mut batch, first);
    if let Some(input) = second {
        add(rt, &mut batch, input);
    }
    batch
}

pub(crate) fn fence() -> Arrived {
    Arrived::Message(Named {
        from: NodeId::master(2),
        step: 1,
        place: 1,
        stamp: 7,
        message: Message {
            from: NodeId::master(2),
            to: NodeId::backup(1),
            body: Body::Fence { epoch: 5 },
        },
    })
}

fn record(rt: &impl Abort, alloc: Global) -> Arrived {
    let key = Key::new(b"a").expect(rt, "no key");
    let request = Request {
        id: RequestId { client: 1, seq: 2 },
        first: 2,
        command: Command::Get(key),
    };
    let request = Shared::new(alloc, request).ok().expect(rt, "no memory");
    Arrived::Message(Named {
        from: NodeId::client(1),
        step: 3,
        place: 2,
        stamp: 4,
        message: Message {
            from: NodeId::client(1),
            to: NodeId::witness(1),
            body: Body::Record(Record { request, epoch: 5 }),
        },
    })
}

fn keep(rt: &impl Abort, durable: &mut Durable<BackupNode, MemoryDisk>, batch: Vec<Arrived>) {
    must_hold(rt, "a batch", answered(durable, batch).is_ok());
}

/// The disk of a journal of the three batches.
pub(crate) fn written(rt: &impl Abort, alloc: Global) -> MemoryDisk {
    let mut disk = disk_failing(rt, alloc, &[]);
    must_hold(rt, "an empty journal", begin(alloc, &mut disk) == None);
    let mut durable = opened(alloc, disk, backup(alloc)).expect(rt, "no journal");
    let expire = Arrived::Local(Local::Expire(1), 0);
    keep(rt, &mut durable, batch(rt, alloc, expire, None));
    let record = record(rt, alloc);
    keep(rt, &mut durable, batch(rt, alloc, fence(), Some(record)));
    let fetch = Arrived::Local(Local::Fetch, 0);
    let nudge = Arrived::Local(Local::Nudge, 9);
    keep(rt, &mut durable, batch(rt, alloc, fetch, Some(nudge)));
    durable.into_disk()
}

#[test]
fn a_journal_is_written_so(rt: HostRuntime) {
    let disk = written(&rt, rt.alloc());
    must_hold(&rt, "its bytes", has_bytes(disk, &JOURNAL));
}

// ---- nodes of each kind

fn client(alloc: Global) -> ClientNode {
    let config = Config {
        serial: 1,
        parts: Items::new(Vec::new(alloc)),
    };
    ClientNode::new(alloc, 1, true, Protocol::One, config)
}

fn manager(rt: &impl Abort, alloc: Global) -> ManagerNode {
    let shape = Shape {
        f: 1,
        parts: 1,
        clients: 64,
    };
    ManagerNode::new(alloc, &shape).expect(rt, "no memory")
}

fn witness(rt: &impl Abort, alloc: Global) -> WitnessNode {
    WitnessNode::new(alloc, 1, 16, 4, 1)
        .ok()
        .expect(rt, "no memory")
}

// ---- what is read

/// How many inputs a node took, and how many messages go out.
type Told = (u64, usize);

fn told_by(answers: &[Answered]) -> Told {
    match answers {
        [Answered::Made { step, item }] => (step.saturating_sub(1), item.done.sent.len()),
        _ => (u64::MAX, 0),
    }
}

/// How many inputs the node took before a nudge, and how many messages go out by it.
fn nudged<N: Core + Drop>(
    rt: &impl Abort,
    alloc: Global,
    durable: &mut Durable<N, MemoryDisk>,
) -> Told {
    let nudge = batch(rt, alloc, Arrived::Local(Local::Nudge, 0), None);
    let answers = durable.on_all(nudge).expect(rt, "no answer");
    let told = told_by(&answers);
    drop(answers);
    told
}

/// How many inputs the node took by these bytes, and how many messages it then sends on a nudge.
fn took<N: Core + Drop>(
    rt: &impl Abort,
    alloc: Global,
    bytes: &[u8],
    node: N,
) -> Result<Told, Failed<OpenError>> {
    let mut durable = opened(alloc, disk_of(rt, alloc, bytes), node)?;
    let told = nudged(rt, alloc, &mut durable);
    drop(durable);
    Ok(told)
}

fn is_told(
    told: Result<Told, Failed<OpenError>>,
    wanted: Result<u64, Failed<OpenError>>,
    sent: usize,
) -> bool {
    match (told, wanted) {
        (Ok((count, out)), Ok(wanted)) => count == wanted && out == sent,
        (Err(why), Err(wanted)) => why == wanted,
        _ => false,
    }
}

fn try_told(
    rt: &impl Abort,
    told: Result<Told, Failed<OpenError>>,
    wanted: Result<u64, Failed<OpenError>>,
    sent: usize,
) {
    must_hold(rt, "a journal", is_told(told, wanted, sent));
}

/// By the first of the inputs one client is gone, so the manager then sends one message more on a nudge.
fn try_manager(
    rt: &impl Abort,
    alloc: Global,
    bytes: &[u8],
    wanted: Result<u64, Failed<OpenError>>,
) {
    let sent = if wanted == Ok(0) { 2 } else { 3 };
    try_told(rt, took(rt, alloc, bytes, manager(rt, alloc)), wanted, sent);
}

/// Each kind of node took so many inputs by the bytes, or they are no journal for this reason.
fn try_bytes(rt: &impl Abort, alloc: Global, bytes: &[u8], wanted: Result<u64, Failed<OpenError>>) {
    try_manager(rt, alloc, bytes, wanted);
    try_told(rt, took(rt, alloc, bytes, client(alloc)), wanted, 0);
    try_told(
        rt,
        took(rt, alloc, bytes, MasterNode::fresh(alloc, 1)),
        wanted,
        0,
    );
    try_told(rt, took(rt, alloc, bytes, backup(alloc)), wanted, 0);
    try_told(rt, took(rt, alloc, bytes, witness(rt, alloc)), wanted, 0);
}

fn damaged(place: u64) -> Result<u64, Failed<OpenError>> {
    Err(Failed::Because(OpenError::Damaged { place }))
}

/// How a journal opens that ends here.
fn of_prefix(end: usize) -> Result<u64, Failed<OpenError>> {
    match end {
        0..=4 => Err(Failed::Because(OpenError::NotFormatted)),
        5..=31 => damaged(4),
        32..=157 => damaged(31),
        158..=190 => damaged(157),
        _ => Ok(5),
    }
}

#[test]
fn a_journal_may_be_cut_anywhere(rt: HostRuntime) {
    for end in 0..=191 {
        let prefix = JOURNAL.get(..end).unwrap_or(&JOURNAL);
        try_bytes(&rt, rt.alloc(), prefix, of_prefix(end));
    }
}

/// How a journal opens whose byte at this place has some bits turned, the lowest among them or not.
fn of_change(place: usize, lowest: bool) -> Result<u64, Failed<OpenError>> {
    match place {
        0..=3 => Err(Failed::Because(OpenError::NotFormatted)),
        4 => Ok(0),
        5..=30 => damaged(4),
        31 => Ok(1),
        32..=156 => damaged(31),
        157 => Ok(3),
        158..=189 => damaged(157),
        _ => { if lowest { damaged(190) } else { Ok(5) } }
    }
}

/// Turns these bits of each byte, one byte a time.
fn try_bits(rt: &impl Abort, alloc: Global, bits: u8) {
    for place in 0..191 {
        let mut bytes = JOURNAL;
        bytes[place] ^= bits;
        try_bytes(rt, alloc, &bytes, of_change(place, bits == 1));
    }
}

#[test]
fn each_byte_may_be_another(rt: HostRuntime) {
    for bits in [1, 128, 254] {
        try_bits(&rt, rt.alloc(), bits);
    }
}

fn error_of(rt: &impl Abort, alloc: Global, disk: MemoryDisk) -> Option<Failed<OpenError>> {
    match opened(alloc, disk, manager(rt, alloc)) {
        Ok(durable) => {
            drop(durable);
            None
        }
        Err(why) => Some(why),
    }
}

/// An empty disk; and an empty journal whose commit byte was opened with nothing behind it.
#[test]
fn what_is_no_journal_is_told(rt: HostRuntime) {
    let alloc = rt.alloc();
    let disk = disk_failing(&rt, alloc, &[]);
    let error = error_of(&rt, alloc, disk);
    let empty = Some(Failed::Because(OpenError::NotFormatted));
    must_hold(&rt, "empty", error == empty);
    let disk = disk_of(&rt, alloc, b"node\x01");
    let error = error_of(&rt, alloc, disk);
    let damaged = Some(Failed::Because(OpenError::Damaged { place: 4 }));
    must_hold(&rt, "damaged", error == damaged);
}

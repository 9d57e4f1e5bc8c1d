//! The manager: what it tells nodes as it replaces them, lets a partition be recovered and moves a range.

use crate::build::{boxed, message, must, right};
use curp_base::{AscendingPairs, Failed, Shared};
use curp_changes::Shape;
use curp_cmd::{Keeper, NodeId, NodeKind, Package, TablePart};
use curp_config::{Manager, MigrateError, NoClient, RecoverError, ReplaceError};
use curp_msg::{Body, Config, Core, Done, Message, Parcel, Prepare, Recover, Recovered};
use std::alloc::Global;
use std::process::Abort;

const MASTER_1: NodeId = NodeId {
    kind: NodeKind::Master,
    number: 1,
};

const MASTER_2: NodeId = NodeId {
    kind: NodeKind::Master,
    number: 2,
};

const MASTER_3: NodeId = NodeId {
    kind: NodeKind::Master,
    number: 3,
};

const BACKUP_2: NodeId = NodeId {
    kind: NodeKind::Backup,
    number: 2,
};

const WITNESS_2: NodeId = NodeId {
    kind: NodeKind::Witness,
    number: 2,
};

const CLIENT_1: NodeId = NodeId {
    kind: NodeKind::Client,
    number: 1,
};

// What a message of the manager says, without lists.
#[derive(Clone, Copy, PartialEq, Eq)]
enum Said {
    Install(u32),
    // The partition and the epoch.
    Start(u32, u32),
    // The version, and how many backups and witnesses.
    Prepare(u32, usize, usize),
    // The partition, the epoch, the version, and the first and the last hash at opening.
    Recover(u32, u32, u32, u64, u64),
    // The partition, the epoch and the version.
    Adopted(u32, u32, u32),
    // The migration, and its first and last hash.
    Take(u32, u64, u64),
    Give(u32),
    Expire(u32),
    // The serial, and how many ranges the first partition has.
    Config(u32, usize),
    Another,
}

fn in_short(message: &Message) -> Said {
    match &message.body {
        Body::Install { epoch } => Said::Install(*epoch),
        Body::Start(start) => Said::Start(start.part, start.epoch),
        Body::Prepare(prepare) => prepared_by(prepare),
        Body::Recover(order) => ordered(order.get()),
        Body::Adopted(adopted) => Said::Adopted(adopted.part, adopted.epoch, adopted.version),
        Body::TakeOut(take) => Said::Take(take.migration, take.lo, take.hi),
        Body::GiveIn(parcel) => Said::Give(parcel.get().migration),
        Body::ExpireClient { client } => Said::Expire(*client),
        Body::Configuration { config } => configured(config),
        _ => Said::Another,
    }
}

fn prepared_by(prepare: &Prepare) -> Said {
    Said::Prepare(
        prepare.version,
        prepare.backups.len(),
        prepare.witnesses.len(),
    )
}

fn ordered(order: &Recover) -> Said {
    Said::Recover(order.part, order.epoch, order.version, order.lo, order.hi)
}

fn configured(config: &Config) -> Said {
    match config.parts.as_slice() {
        [first, ..] => Said::Config(config.serial, first.ranges.len()),
        [] => Said::Another,
    }
}

fn are_sent(sent: &[Message], expected: &[(NodeId, Said)]) -> bool {
    for (at, message) in sent.iter().enumerate() {
        match expected.get(at) {
            Some((to, said)) if message.to == *to && in_short(message) == *said => {}
            _ => return false,
        }
    }
    sent.len() == expected.len()
}

fn try_sent(rt: &impl Abort, done: Done, expected: &[(NodeId, Said)]) {
    right(rt, are_sent(done.sent.as_slice(), expected), "sent");
    drop(done);
}

// So many are sent a message.
fn try_count(rt: &impl Abort, done: Done, count: usize) {
    right(rt, done.sent.len() == count, "count");
    drop(done);
}

// A message comes from a node, and the manager tells another one something, or nobody.
fn try_message(
    rt: &impl Abort,
    manager: &mut Manager,
    from: NodeId,
    body: Body,
    expected: &[(NodeId, Said)],
) {
    let message = message(from, NodeId::manager(), body);
    let done = must(rt, manager.on_message(&message));
    drop(message);
    try_sent(rt, done, expected);
}

fn begin(rt: &impl Abort, alloc: Global, f: u32, parts: u32, clients: u32) -> Manager {
    assert!(rt; f <= 5 && parts <= 16);
    let shape = Shape { f, parts, clients };
    must(rt, Manager::new(alloc, &shape))
}

fn package(rt: &impl Abort, alloc: Global, hi: u64) -> Shared<Package> {
    let package = Package {
        lo: 0,
        hi,
        pairs: AscendingPairs::new(Vec::new(alloc)),
        table: TablePart::new(alloc),
    };
    match Shared::new(alloc, package) {
        Ok(shared) => shared,
        Err(_) => panic!(rt; "no memory"),
    }
}

fn taken(rt: &impl Abort, alloc: Global, migration: u32, hi: u64) -> Body {
    let parcel = Parcel {
        migration,
        package: package(rt, alloc, hi),
    };
    Body::Taken(boxed(rt, alloc, parcel))
}

fn replace(rt: &impl Abort, manager: &mut Manager) -> Done {
    must(rt, manager.replace(1, Keeper::Witness, 1))
}

fn replace_error(manager: &mut Manager) -> Option<Failed<ReplaceError>> {
    manager.replace(1, Keeper::Backup, 1).err()
}

const WITNESS_REPLACED: [(NodeId, Said); 2] = [
    (WITNESS_2, Said::Start(1, 1)),
    (MASTER_1, Said::Prepare(2, 1, 1)),
];

#[test]
fn replaces_a_witness(rt: HostRuntime) {
    let mut manager = begin(&rt, rt.alloc(), 1, 1, 2);
    try_sent(&rt, replace(&rt, &mut manager), &WITNESS_REPLACED);
    let again = replace_error(&mut manager);
    right(
        &rt,
        again == Some(Failed::Because(ReplaceError::Replacing { version: 2 })),
        "replaces a witness",
    );
    try_prepared(&rt, &mut manager);
    drop(manager);
}

// The master has its log on the new list, and a client asks for it then.
fn try_prepared(rt: &impl Abort, manager: &mut Manager) {
    let prepared = Body::Prepared { version: 2 };
    let sent = [(MASTER_1, Said::Adopted(1, 1, 2))];
    try_message(rt, manager, MASTER_1, prepared, &sent);
    let sent = [(CLIENT_1, Said::Config(2, 1))];
    try_message(rt, manager, CLIENT_1, Body::Fetch, &sent);
}

fn recover(rt: &impl Abort, manager: &mut Manager, part: u32, place: u32) -> Done {
    must(rt, manager.recover(part, place, place))
}

fn recover_error(manager: &mut Manager) -> Option<Failed<RecoverError>> {
    manager.recover(1, 2, 1).err()
}

const FIRST_ATTEMPT: [(NodeId, Said); 3] = [
    (BACKUP_2, Said::Install(2)),
    (WITNESS_2, Said::Start(1, 2)),
    (MASTER_2, Said::Recover(1, 2, 2, 0, u64::MAX)),
];

#[test]
fn adopts_the_newest_attempt(rt: HostRuntime) {
    let mut manager = begin(&rt, rt.alloc(), 1, 1, 2);
    let nowhere = recover_error(&mut manager);
    right(
        &rt,
        nowhere == Some(Failed::Because(RecoverError::NoBackup { place: 2 })),
        "adopts the newest attempt",
    );
    try_sent(&rt, recover(&rt, &mut manager, 1, 1), &FIRST_ATTEMPT);
    drop(recover(&rt, &mut manager, 1, 1));
    try_recovered(&rt, &mut manager, 2, &[]);
    try_recovered(&rt, &mut manager, 3, &[(MASTER_3, Said::Adopted(1, 3, 3))]);
    drop(manager);
}

// The master of that number has recovered the partition at the epoch of the same number.
fn try_recovered(rt: &impl Abort, manager: &mut Manager, number: u32, expected: &[(NodeId, Said)]) {
    let recovered = Body::Recovered(Recovered {
        part: 1,
        epoch: number,
    });
    try_message(rt, manager, NodeId::master(number), recovered, expected);
}

const HI: u64 = 0x0fff_ffff_ffff_ffff;

#[test]
fn moves_a_range(rt: HostRuntime) {
    let mut manager = begin(&rt, rt.alloc(), 1, 2, 1);
    try_migrate(&rt, &mut manager, 2, (MASTER_1, Said::Take(1, 0, HI)));
    let other = migrate_error(&mut manager);
    right(
        &rt,
        other == Some(Failed::Because(MigrateError::Moving { id: 1 })),
        "moves a range",
    );
    try_move(&rt, rt.alloc(), &mut manager);
    try_migrate(&rt, &mut manager, 1, (MASTER_2, Said::Take(2, 0, HI)));
    drop(manager);
}

fn migrate_error(manager: &mut Manager) -> Option<Failed<MigrateError>> {
    manager.migrate(0, 0, 2).err()
}

// What was taken out comes to the manager, which tells it to the other master.
fn try_move(rt: &impl Abort, alloc: Global, manager: &mut Manager) {
    let taken = taken(rt, alloc, 1, HI);
    try_message(rt, manager, MASTER_1, taken, &[(MASTER_2, Said::Give(1))]);
    let given = Body::Given { migration: 1 };
    try_message(rt, manager, MASTER_2, given, &[]);
}

// The hashes up to `HI` shall move to that partition.
fn try_migrate(rt: &impl Abort, manager: &mut Manager, to: u32, expected: (NodeId, Said)) {
    let done = must(rt, manager.migrate(0, HI, to));
    try_sent(rt, done, &[expected]);
}

#[test]
fn serves_the_largest_shape(rt: HostRuntime) {
    let mut manager = begin(&rt, rt.alloc(), 5, 16, 64);
    right(
        &rt,
        manager.config().parts.len() == 16,
        "serves the largest shape",
    );
    recover_all(&rt, &mut manager);
    expire_all(&rt, &mut manager);
    let nudged = must(&rt, manager.nudge());
    drop(manager);
    try_count(&rt, nudged, 16 * 11 + 64 * 16);
}

fn recover_all(rt: &impl Abort, manager: &mut Manager) {
    for part in 1..17 {
        try_count(rt, recover(rt, manager, part, 5), 11);
    }
}

fn expire_error(manager: &mut Manager, client: u32) -> Option<Failed<NoClient>> {
    manager.expire(client).err()
}

fn expire_all(rt: &impl Abort, manager: &mut Manager) {
    for client in 1..65 {
        let done = must(rt, manager.expire(client));
        try_count(rt, done, 16);
    }
    right(
        rt,
        expire_error(manager, 65) == Some(Failed::Because(NoClient)),
        "expire all",
    );
}

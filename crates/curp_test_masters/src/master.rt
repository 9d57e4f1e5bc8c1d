//! A master: what it answers to clients, and what it says to its backups and witnesses.

use crate::build::{
    adopted, ask, backups, key, message, must, nodes, put, request, right, right_at, stored,
};
use curp_base::Items;
use curp_cmd::{Answer, Command, NodeId};
use curp_log::Log;
use curp_master::Master;
use curp_msg::{Ask, Body, Done, Local, Message, Prepare, Refusal, Reply, TakeOut};
use std::alloc::Global;
use std::process::Abort;

// What comes: a client's put of one key, by the request's number; an answer of a backup, with a length and a round; the
// order to begin a round.
#[derive(Clone, Copy)]
enum Comes {
    Update(u32, u32),
    // The client has the answers to all requests below.
    Acknowledging(u32, u32),
    // The client knows that epoch and that version.
    Late(u32, u32, u32),
    Sync(u32, u32),
    Read(u32, u32),
    Stored(u32, u64, u64),
    // A list of that version, of one backup.
    Prepare(u32, u32),
    Adopted(u32),
    // A migration of the hashes from 0 to 9.
    Take(u32),
    Expire(u32),
    Round,
    Collect,
}

// What the master says: to a client that its put is done, or why it isn't; to a backup how many entries of its log,
// from which one on and in which round.
enum Said {
    Unsynced(u32),
    Synced(u32),
    Refused(u32, Refusal),
    Appends(u32, usize, u64, u64),
    // A read's value, of the capture of that number.
    Worth(u32, u64),
    Prepared(u32),
    // A witness may drop so many.
    Gc(u32, usize),
    Taken(u32),
}

// A master of that many backups, of the hashes up to one, and at a round, with what comes and what it says then.
type Case = (u32, u64, u64, &'static [(Comes, &'static [Said])]);

const CASES: [Case; 7] = [
    (
        1,
        u64::MAX,
        0,
        &[
            (Comes::Update(1, 1), &[Said::Unsynced(1)]),
            (Comes::Update(1, 1), &[Said::Unsynced(1)]),
            (Comes::Update(2, 1), &[Said::Appends(1, 2, 0, 1)]),
            (Comes::Sync(2, 1), &[Said::Refused(2, Refusal::InProgress)]),
            (Comes::Stored(1, 2, 1), &[Said::Synced(2)]),
            (Comes::Update(1, 1), &[Said::Synced(1)]),
            (
                Comes::Late(3, 2, 2),
                &[Said::Refused(3, Refusal::Epoch { current: 1 })],
            ),
            (
                Comes::Late(3, 1, 2),
                &[Said::Refused(3, Refusal::Version { current: 1 })],
            ),
            (Comes::Round, &[Said::Appends(1, 0, 2, 2)]),
            (Comes::Acknowledging(1, 3), &[Said::Unsynced(1)]),
            (
                Comes::Update(1, 1),
                &[Said::Refused(1, Refusal::Stale { first: 3 })],
            ),
            (Comes::Sync(1, 3), &[Said::Appends(1, 1, 2, 3)]),
            (Comes::Stored(2, 3, 3), &[]),
            (Comes::Stored(1, 3, 3), &[Said::Synced(1)]),
        ],
    ),
    (
        1,
        0,
        0,
        &[(Comes::Sync(1, 1), &[Said::Refused(1, Refusal::NotOwner)])],
    ),
    (
        2,
        u64::MAX,
        0,
        &[
            (
                Comes::Sync(1, 1),
                &[Said::Appends(1, 1, 0, 1), Said::Appends(2, 1, 0, 1)],
            ),
            (Comes::Stored(1, 1, 1), &[]),
            (Comes::Stored(2, 1, 1), &[Said::Synced(1)]),
        ],
    ),
    (
        1,
        u64::MAX,
        u64::MAX,
        &[
            (Comes::Round, &[]),
            (Comes::Update(1, 1), &[Said::Unsynced(1)]),
            (Comes::Update(2, 1), &[]),
        ],
    ),
    // A read waits for the round that was begun for it, and for what stood in the log.
    (
        2,
        u64::MAX,
        0,
        &[
            (
                Comes::Sync(1, 1),
                &[Said::Appends(1, 1, 0, 1), Said::Appends(2, 1, 0, 1)],
            ),
            (
                Comes::Read(2, 1),
                &[Said::Appends(1, 1, 0, 2), Said::Appends(2, 1, 0, 2)],
            ),
            (Comes::Stored(1, 1, 2), &[]),
            (Comes::Stored(2, 1, 1), &[Said::Synced(1)]),
            (Comes::Stored(2, 1, 2), &[Said::Worth(2, 1)]),
            (Comes::Collect, &[Said::Gc(1, 1)]),
            (Comes::Collect, &[Said::Gc(1, 0)]),
        ],
    ),
    // The new list has the log once its own backup has stored it.
    (
        1,
        u64::MAX,
        0,
        &[
            (Comes::Sync(1, 1), &[Said::Appends(1, 1, 0, 1)]),
            (
                Comes::Prepare(2, 7),
                &[Said::Appends(1, 1, 0, 2), Said::Appends(7, 1, 0, 2)],
            ),
            (Comes::Update(2, 1), &[Said::Refused(2, Refusal::Switching)]),
            (Comes::Stored(1, 1, 2), &[]),
            (Comes::Stored(7, 1, 1), &[]),
            (Comes::Stored(7, 1, 2), &[Said::Prepared(2)]),
            (
                Comes::Round,
                &[
                    Said::Prepared(2),
                    Said::Appends(1, 0, 1, 3),
                    Said::Appends(7, 0, 1, 3),
                ],
            ),
            (Comes::Adopted(2), &[Said::Synced(1)]),
            (Comes::Round, &[Said::Appends(7, 0, 1, 4)]),
        ],
    ),
    // A range leaves once, and its package is told once it is stored.
    (
        1,
        u64::MAX,
        0,
        &[
            (Comes::Take(1), &[Said::Appends(1, 1, 0, 1)]),
            (Comes::Stored(1, 1, 1), &[Said::Taken(1)]),
            (Comes::Take(1), &[Said::Taken(1)]),
            (Comes::Take(2), &[]),
            (Comes::Expire(3), &[Said::Appends(1, 1, 1, 2)]),
            (Comes::Expire(3), &[]),
            (Comes::Update(3, 1), &[Said::Refused(3, Refusal::Expired)]),
        ],
    ),
];

#[test]
fn answers_what_comes(rt: HostRuntime) {
    for (backups, hi, round, rows) in CASES {
        try_case(&rt, rt.alloc(), (backups, hi, round), rows);
    }
}

fn try_case(
    rt: &impl Abort,
    alloc: Global,
    (backups, hi, round): (u32, u64, u64),
    rows: &[(Comes, &'static [Said])],
) {
    let mut master = begin(rt, alloc, backups, hi, round);
    try_rows(rt, alloc, &mut master, rows);
    drop(master);
}

// Whether the messages say that, in this order.
fn are(sent: &[Message], expected: &[Said]) -> bool {
    for (at, message) in sent.iter().enumerate() {
        match expected.get(at) {
            Some(said) if is(message, said) => {}
            _ => return false,
        }
    }
    sent.len() == expected.len()
}

fn try_rows(
    rt: &impl Abort,
    alloc: Global,
    master: &mut Master,
    rows: &[(Comes, &'static [Said])],
) {
    for (at, (comes, expected)) in rows.iter().enumerate() {
        let done = done_on(rt, alloc, master, *comes);
        right_at(rt, are(done.sent.as_slice(), expected), "rows", at as u64);
        drop(done);
    }
}

// So many clients send an update. All but the first wait for one round.
fn update_all(rt: &impl Abort, alloc: Global, master: &mut Master, clients: u32) {
    for client in 1..=clients {
        drop(done_on(rt, alloc, master, Comes::Update(client, 1)));
    }
}

#[test]
fn keeps_many_entries(rt: HostRuntime) {
    let mut master = begin(&rt, rt.alloc(), 1, u64::MAX, 0);
    try_many(&rt, rt.alloc(), &mut master);
    drop(master);
}

fn try_many(rt: &impl Abort, alloc: Global, master: &mut Master) {
    update_all(rt, alloc, master, 200);
    right(rt, master.log().len() == 200, "many (1)");
    let done = done_on(rt, alloc, master, Comes::Stored(1, 200, 199));
    right(rt, done.sent.len() == 199, "many (2)");
    drop(done);
    right(rt, master.synced() == 200, "many (3)");
}

// Master 1 of so many backups, of the hashes up to one, at a round.
fn begin(rt: &impl Abort, alloc: Global, count: u32, hi: u64, round: u64) -> Master {
    let backups = first_backups(rt, alloc, count);
    let witnesses = nodes(rt, alloc, &[NodeId::witness(1)]);
    let shell = must(rt, Master::shell(alloc, 1, 1, 1, 1, backups, witnesses));
    let log = must(rt, Log::begin(alloc, 0, hi));
    Master::begin(shell, log, round)
}

fn first_backups(rt: &impl Abort, alloc: Global, count: u32) -> Vec<NodeId> {
    let mut backups = Vec::new(alloc);
    for number in 1..=count {
        must(rt, backups.push(NodeId::backup(number)));
    }
    backups
}

fn hear(rt: &impl Abort, master: &mut Master, from: NodeId, body: Body) -> Done {
    let message = message(from, NodeId::master(1), body);
    let done = must(rt, master.on_message(&message));
    drop(message);
    done
}

fn done_on(rt: &impl Abort, alloc: Global, master: &mut Master, comes: Comes) -> Done {
    match comes {
        Comes::Round => must(rt, master.on_order(&Local::Sync)),
        Comes::Collect => must(rt, master.on_order(&Local::Collect)),
        _ => {
            let (from, body) = comes_from(rt, alloc, comes);
            hear(rt, master, from, body)
        }
    }
}

fn comes_from(rt: &impl Abort, alloc: Global, comes: Comes) -> (NodeId, Body) {
    match comes {
        Comes::Update(client, _)
        | Comes::Acknowledging(client, _)
        | Comes::Late(client, _, _)
        | Comes::Sync(client, _)
        | Comes::Read(client, _) => (NodeId::client(client), asked(rt, alloc, comes)),
        Comes::Stored(backup, length, round) => {
            (NodeId::backup(backup), stored(1, length, round))
        }
        _ => (NodeId::manager(), ordered(rt, alloc, comes)),
    }
}

fn asked(rt: &impl Abort, alloc: Global, comes: Comes) -> Body {
    match comes {
        Comes::Acknowledging(client, seq) => Body::Update(acknowledging(rt, alloc, client, seq)),
        Comes::Late(client, epoch, version) => Body::Update(late(
            rt, alloc, client, epoch, version,
        )),
        Comes::Sync(client, seq) => Body::Sync(put_ask(rt, alloc, client, seq)),
        Comes::Read(client, seq) => Body::Read(read(rt, alloc, client, seq)),
        Comes::Update(client, seq) => Body::Update(put_ask(rt, alloc, client, seq)),
        _ => Body::Fetch,
    }
}

fn put_ask(rt: &impl Abort, alloc: Global, client: u32, seq: u32) -> Ask {
    ask(rt, alloc, &request(client, seq, put(rt, b"a", b"1")))
}

fn acknowledging(rt: &impl Abort, alloc: Global, client: u32, seq: u32) -> Ask {
    let mut request = request(client, seq, put(rt, b"a", b"1"));
    request.first = seq;
    ask(rt, alloc, &request)
}

fn late(rt: &impl Abort, alloc: Global, client: u32, epoch: u32, version: u32) -> Ask {
    let mut ask = put_ask(rt, alloc, client, 1);
    ask.epoch = epoch;
    ask.version = version;
    ask
}

fn read(rt: &impl Abort, alloc: Global, client: u32, seq: u32) -> Ask {
    ask(
        rt,
        alloc,
        &request(client, seq, Command::Get(key(rt, b"a"))),
    )
}

fn prepare(rt: &impl Abort, alloc: Global, version: u32, backup: u32) -> Body {
    Body::Prepare(Prepare {
        version,
        backups: Items::new(backups(rt, alloc, &[backup])),
        witnesses: Items::new(nodes(rt, alloc, &[NodeId::witness(1)])),
    })
}

fn ordered(rt: &impl Abort, alloc: Global, comes: Comes) -> Body {
    match comes {
        Comes::Prepare(version, backup) => prepare(rt, alloc, version, backup),
        Comes::Adopted(version) => adopted(1, version),
        Comes::Take(migration) => Body::TakeOut(TakeOut {
            migration,
            lo: 0,
            hi: 9,
        }),
        Comes::Expire(client) => Body::ExpireClient { client },
        _ => Body::Fetch,
    }
}

fn is(message: &Message, said: &Said) -> bool {
    let to = message.to.number;
    match (&message.body, said) {
        (Body::Reply(reply), said) => is_reply(to, reply.get(), said),
        (Body::Refuse(refuse), Said::Refused(client, refusal)) => {
            to == *client && refuse.refusal == *refusal
        }
        (Body::Append(append), Said::Appends(backup, count, base, round)) => {
            let is_of = to == *backup && append.base == *base && append.round == *round;
            is_of && append.entries.len() == *count
        }
        (Body::Worth(worth), Said::Worth(client, capture)) => {
            to == *client && worth.get().capture == *capture
        }
        (Body::Prepared { version }, Said::Prepared(expected)) => version == expected,
        (Body::Gc(gc), Said::Gc(witness, count)) => to == *witness && gc.ids.len() == *count,
        (Body::Taken(parcel), Said::Taken(migration)) => parcel.get().migration == *migration,
        _ => false,
    }
}

fn is_reply(to: u32, reply: &Reply, said: &Said) -> bool {
    let is_done = matches!(reply.answer, Answer::Done);
    match said {
        Said::Unsynced(client) => is_done && to == *client && !reply.synced,
        Said::Synced(client) => is_done && to == *client && reply.synced,
        _ => false,
    }
}

//! The nodes, each behind the trait of all nodes: what they say, do and refuse as orders and messages come.

use crate::build::{
    adopted, ask, backups, boxed, config, id, log_of, message, must, nodes, put, reply, request,
    right_at, shared, stored,
};
use curp_base::{Items, Shared};
use curp_cmd::{Command, Entry, NodeId, Request, RequestId};
use curp_msg::{
    Accepted, Append, AppendAnswer, Body, Collected, Core, Done, FenceReply, Gc, GcAnswer, Local,
    Message, Probe, Protocol, Reason, Record, Recover, Refusal, Refuse, Rejected,
};
use curp_nodes::{BackupNode, ClientNode, MasterNode, WitnessNode};
use std::alloc::Global;
use std::process::Abort;

// What comes to a node of the first epoch and version: an order, or a message about the first request of that client.
// Each of them is to put 31 under 61.
#[derive(Clone, Copy)]
enum Comes {
    Put,
    Retry(u32),
    Fetch,
    Round,
    Update(u32),
    Sync(u32),
    Record(u32),
    Reply(u32, bool),
    InProgress(u32),
    Accepted(u32),
    Conflict(u32),
    // From that index on so many entries, in that round.
    Append(u64, u32, u64),
    // The length of a backup's log, and the round.
    Stored(u64, u64),
    Fence(u32),
    Freeze,
    // A collection of that epoch.
    Collect(u32, u32),
    // A probe of that epoch.
    Probe(u32),
    // A fresh master's order, a log of one entry, the request of one client, and the adoption.
    Recover,
    Logged,
    Held(u32),
    Adopted,
}

// What a node says, does or refuses then.
enum Said {
    Update(u32),
    Sync(u32),
    Record(u32),
    Fetch,
    Reply(u32, bool),
    InProgress(u32),
    Switching(u32),
    Fence(u32),
    Freeze(u32),
    Recovered,
    Append(u64, usize, u64),
    Appended(u64, AppendAnswer),
    Log(usize),
    Accepted(u32, u32),
    Rejected(u32, Reason),
    Frozen(usize),
    // A collection was of that epoch, and there are so many suspects.
    Suspects(u32, usize),
    // Whether a witness takes requests of that epoch.
    Probed(u32, bool),
    // A collection was of another epoch.
    Stranger,
    Completes(u32),
    Refuses(u8),
}

// The rows of two updates that conflict: the first completes at once, and the second waits for a round.
const CLIENT: [(Comes, &[Said]); 8] = [
    (Comes::Retry(1), &[Said::Refuses(1)]),
    (Comes::Put, &[Said::Update(2), Said::Record(2)]),
    (Comes::Conflict(2), &[Said::Sync(2)]),
    (Comes::InProgress(2), &[]),
    (Comes::Retry(1), &[Said::Update(2), Said::Record(2)]),
    (Comes::Reply(2, true), &[Said::Completes(2)]),
    (Comes::Fetch, &[Said::Fetch]),
    (Comes::Round, &[]),
];

// The rows of an update that meets nothing: the accept of the one witness and the reply complete it.
const FAST: [(Comes, &[Said]); 3] = [
    (Comes::Put, &[Said::Update(1), Said::Record(1)]),
    (Comes::Accepted(1), &[]),
    (Comes::Reply(1, false), &[Said::Completes(1)]),
];

const MASTER: [(Comes, &[Said]); 6] = [
    (Comes::Update(1), &[Said::Reply(1, false)]),
    (Comes::Update(2), &[Said::Append(0, 2, 1)]),
    (Comes::Sync(2), &[Said::InProgress(2)]),
    (Comes::Stored(2, 1), &[Said::Reply(2, true)]),
    (Comes::Round, &[Said::Append(2, 0, 2)]),
    (Comes::Fetch, &[]),
];

const RECOVERED: [(Comes, &[Said]); 10] = [
    (Comes::Update(1), &[Said::Switching(1)]),
    (Comes::Recover, &[Said::Fence(1), Said::Freeze(1)]),
    (Comes::Logged, &[]),
    (Comes::Round, &[Said::Freeze(1)]),
    (Comes::Held(1), &[Said::Append(0, 2, 1)]),
    (Comes::Update(2), &[Said::Switching(2)]),
    (Comes::Stored(2, 1), &[Said::Recovered]),
    (Comes::Adopted, &[]),
    (Comes::Update(1), &[Said::Reply(1, true)]),
    (Comes::Update(2), &[Said::Reply(2, false)]),
];

const BACKUP: [(Comes, &[Said]); 6] = [
    (
        Comes::Append(0, 2, 1),
        &[Said::Appended(1, AppendAnswer::Stored { length: 2 })],
    ),
    (
        Comes::Append(3, 1, 4),
        &[Said::Appended(4, AppendAnswer::Gap { length: 2 })],
    ),
    (Comes::Round, &[]),
    (Comes::Update(1), &[]),
    (Comes::Fence(2), &[Said::Log(2)]),
    (
        Comes::Append(2, 1, 2),
        &[Said::Appended(2, AppendAnswer::Fenced { epoch: 2 })],
    ),
];

const WITNESS: [(Comes, &[Said]); 13] = [
    (Comes::Probe(1), &[Said::Probed(1, true)]),
    (Comes::Probe(2), &[Said::Probed(2, false)]),
    (Comes::Record(1), &[Said::Accepted(1, 1)]),
    (
        Comes::Record(2),
        &[Said::Rejected(
            2,
            Reason::Conflict {
                held: RequestId { client: 1, seq: 1 },
            },
        )],
    ),
    (Comes::Round, &[]),
    (Comes::Update(1), &[]),
    (Comes::Collect(2, 1), &[Said::Stranger]),
    (Comes::Collect(1, 1), &[Said::Suspects(1, 0)]),
    (Comes::Record(2), &[Said::Accepted(2, 1)]),
    (Comes::Collect(1, 1), &[Said::Suspects(1, 0)]),
    (Comes::Freeze, &[Said::Frozen(1)]),
    (Comes::Record(1), &[Said::Rejected(1, Reason::Frozen)]),
    (Comes::Probe(1), &[Said::Probed(1, false)]),
];

#[test]
fn a_client_answers_what_comes(rt: HostRuntime) {
    let mut client = client(&rt, rt.alloc(), 2);
    try_rows(&rt, rt.alloc(), &mut client, &CLIENT);
    drop(client);
}

#[test]
fn a_client_completes_an_update_at_once(rt: HostRuntime) {
    let mut client = client(&rt, rt.alloc(), 1);
    try_rows(&rt, rt.alloc(), &mut client, &FAST);
    drop(client);
}

fn client(rt: &impl Abort, alloc: Global, number: u32) -> ClientNode {
    let config = config(rt, alloc, 1, &[NodeId::witness(1)], u64::MAX);
    ClientNode::new(alloc, number, true, Protocol::One, config)
}

#[test]
fn a_master_answers_what_comes(rt: HostRuntime) {
    let mut master = master(&rt, rt.alloc());
    try_rows(&rt, rt.alloc(), &mut master, &MASTER);
    drop(master);
}

fn master(rt: &impl Abort, alloc: Global) -> MasterNode {
    let backups = backups(rt, alloc, &[1]);
    let witnesses = nodes(rt, alloc, &[NodeId::witness(1)]);
    let begun = MasterNode::new(alloc, 1, backups, witnesses, 0, u64::MAX);
    must(rt, begun)
}

#[test]
fn a_fresh_master_recovers_and_serves(rt: HostRuntime) {
    let mut master = MasterNode::fresh(rt.alloc(), 1);
    try_rows(&rt, rt.alloc(), &mut master, &RECOVERED);
    drop(master);
}

#[test]
fn a_backup_answers_what_comes(rt: HostRuntime) {
    let mut backup = BackupNode::new(rt.alloc(), 1, 1);
    try_rows(&rt, rt.alloc(), &mut backup, &BACKUP);
    drop(backup);
}

#[test]
fn a_witness_answers_what_comes(rt: HostRuntime) {
    let mut witness = must(&rt, WitnessNode::new(rt.alloc(), 1, 16, 4, 1));
    try_rows(&rt, rt.alloc(), &mut witness, &WITNESS);
    drop(witness);
}

fn try_rows<N: Core>(rt: &impl Abort, alloc: Global, node: &mut N, rows: &[(Comes, &[Said])]) {
    for (at, (comes, expected)) in rows.iter().enumerate() {
        let done = give(rt, alloc, node, *comes);
        right_at(rt, is_done(&done, expected), "rows", at as u64);
        drop(done);
    }
}

fn give<N: Core>(rt: &impl Abort, alloc: Global, node: &mut N, comes: Comes) -> Done {
    match order(rt, alloc, comes) {
        Some(order) => hear_order(rt, node, order),
        None => {
            let (from, body) = comes_from(rt, alloc, comes);
            hear(rt, node, message(from, NodeId::master(1), body))
        }
    }
}

fn hear_order<N: Core>(rt: &impl Abort, node: &mut N, order: Local) -> Done {
    let done = must(rt, node.on_order(&order));
    drop(order);
    done
}

fn hear<N: Core>(rt: &impl Abort, node: &mut N, message: Message) -> Done {
    let done = must(rt, node.on_message(&message));
    drop(message);
    done
}

fn order(rt: &impl Abort, alloc: Global, comes: Comes) -> Option<Local> {
    match comes {
        Comes::Put => Some(invoke(rt, alloc)),
        Comes::Retry(seq) => Some(Local::Retry(seq)),
        Comes::Fetch => Some(Local::Fetch),
        Comes::Round => Some(Local::Sync),
        _ => None,
    }
}

fn invoke(rt: &impl Abort, alloc: Global) -> Local {
    Local::Invoke(must(rt, Shared::of(alloc, &put_one(rt))))
}

fn put_one(rt: &impl Abort) -> Command {
    put(rt, &[0x61], &[0x31])
}

fn request_of(rt: &impl Abort, client: u32) -> Request {
    request(client, 1, put_one(rt))
}

fn comes_from(rt: &impl Abort, alloc: Global, comes: Comes) -> (NodeId, Body) {
    match comes {
        Comes::Update(client) | Comes::Sync(client) | Comes::Record(client) => {
            (NodeId::client(client), asked(rt, alloc, comes, client))
        }
        Comes::Append(_, _, _) | Comes::Collect(_, _) | Comes::Reply(_, _) | Comes::InProgress(_) =>
            { (NodeId::master(1), by_master(rt, alloc, comes)) }
        Comes::Probe(epoch) => (NodeId::client(1), probe(epoch)),
        Comes::Fence(epoch) => (NodeId::master(2), Body::Fence { epoch }),
        Comes::Freeze => (NodeId::master(2), Body::Freeze { epoch: 2 }),
        Comes::Stored(length, round) => (NodeId::backup(1), stored(1, length, round)),
        Comes::Logged => (NodeId::backup(1), logged(rt, alloc)),
        Comes::Accepted(_) | Comes::Conflict(_) | Comes::Held(_) => {
            (NodeId::witness(1), by_witness(rt, alloc, comes))
        }
        _ => (NodeId::manager(), ordered(rt, alloc, comes)),
    }
}

fn asked(rt: &impl Abort, alloc: Global, comes: Comes, client: u32) -> Body {
    let request = request_of(rt, client);
    match comes {
        Comes::Update(_) => Body::Update(ask(rt, alloc, &request)),
        Comes::Sync(_) => Body::Sync(ask(rt, alloc, &request)),
        _ => Body::Record(record(rt, alloc, &request)),
    }
}

fn record(rt: &impl Abort, alloc: Global, request: &Request) -> Record {
    Record {
        request: shared(rt, alloc, request),
        epoch: 1,
    }
}

fn probe(epoch: u32) -> Body {
    Body::Probe(Probe {
        id: id(1, 1),
        epoch,
    })
}

fn by_master(rt: &impl Abort, alloc: Global, comes: Comes) -> Body {
    match comes {
        Comes::Append(base, count, round) => append(rt, alloc, base, count, round),
        Comes::Collect(epoch, client) => gc(rt, alloc, epoch, client),
        Comes::Reply(client, synced) => reply(rt, alloc, id(client, 1), synced),
        Comes::InProgress(client) => Body::Refuse(Refuse {
            id: id(client, 1),
            refusal: Refusal::InProgress,
        }),
        _ => Body::Fetch,
    }
}

fn gc(rt: &impl Abort, alloc: Global, epoch: u32, client: u32) -> Body {
    let ids = must(rt, Vec::from_slice(alloc, &[id(client, 1)]));
    Body::Gc(Gc {
        epoch,
        ids: Items::new(ids),
    })
}

fn by_witness(rt: &impl Abort, alloc: Global, comes: Comes) -> Body {
    match comes {
        Comes::Accepted(client) => Body::Accepted(Accepted {
            id: id(client, 1),
            epoch: 1,
        }),
        Comes::Conflict(client) => Body::Rejected(Rejected {
            id: id(client, 1),
            reason: Reason::Conflict { held: id(1, 1) },
        }),
        Comes::Held(client) => held(rt, alloc, client),
        _ => Body::Fetch,
    }
}

fn held(rt: &impl Abort, alloc: Global, client: u32) -> Body {
    let mut requests = Vec::new(alloc);
    must(
        rt,
        requests.push(shared(rt, alloc, &request_of(rt, client))),
    );
    Body::FrozenAnswer {
        requests: Items::new(requests),
    }
}

fn append(rt: &impl Abort, alloc: Global, base: u64, count: u32, round: u64) -> Body {
    let mut entries = Vec::new(alloc);
    for client in 0..count {
        must(rt, entries.push(Entry::Expire { client }));
    }
    Body::Append(Append {
        epoch: 1,
        base,
        round,
        entries: Items::new(entries),
    })
}

fn logged(rt: &impl Abort, alloc: Global) -> Body {
    let mut entries = Vec::new(alloc);
    must(rt, entries.push(Entry::Expire { client: 3 }));
    log_of(1, entries)
}

fn ordered(rt: &impl Abort, alloc: Global, comes: Comes) -> Body {
    match comes {
        Comes::Adopted => adopted(1, 1),
        Comes::Recover => Body::Recover(boxed(rt, alloc, recover(rt, alloc))),
        _ => Body::Fetch,
    }
}

fn recover(rt: &impl Abort, alloc: Global) -> Recover {
    Recover {
        part: 1,
        epoch: 1,
        version: 1,
        backup: NodeId::backup(1),
        witness: NodeId::witness(1),
        backups: Items::new(backups(rt, alloc, &[1])),
        witnesses: Items::new(nodes(rt, alloc, &[NodeId::witness(1)])),
        lo: 0,
        hi: u64::MAX,
    }
}

// Whether the node says all that, and then completes or refuses what is behind.
fn is_done(done: &Done, expected: &[Said]) -> bool {
    let sent = done.sent.as_slice();
    for (at, message) in sent.iter().enumerate() {
        match expected.get(at) {
            Some(said) if is_said(&message.body, said) => {}
            _ => return false,
        }
    }
    match (&done.completed, done.refused, expected.get(sent.len()..)) {
        (None, 0, Some([])) => true,
        (Some(completed), 0, Some([Said::Completes(client)])) => completed.id.client == *client,
        (None, refused, Some([Said::Refuses(number)])) => refused == *number,
        _ => false,
    }
}

fn is_said(body: &Body, said: &Said) -> bool {
    match (body, said) {
        (Body::Update(ask), Said::Update(client)) => ask.request.id.client == *client,
        (Body::Sync(ask), Said::Sync(client)) => ask.request.id.client == *client,
        (Body::Record(record), Said::Record(client)) => record.request.id.client == *client,
        (Body::Fetch, Said::Fetch) | (Body::Recovered(_), Said::Recovered) => true,
        (Body::Fence { epoch }, Said::Fence(expected)) => epoch == expected,
        (Body::Freeze { epoch }, Said::Freeze(expected)) => epoch == expected,
        (Body::Append(append), Said::Append(base, count, round)) => {
            append.base == *base && append.entries.len() == *count && append.round == *round
        }
        _ => is_answer(body, said),
    }
}

fn is_answer(body: &Body, said: &Said) -> bool {
    match (body, said) {
        (Body::Reply(reply), Said::Reply(client, synced)) => {
            reply.get().id.client == *client && reply.get().synced == *synced
        }
        (Body::Refuse(refuse), Said::InProgress(client)) => {
            refuse.id.client == *client && matches!(refuse.refusal, Refusal::InProgress)
        }
        (Body::Refuse(refuse), Said::Switching(client)) => {
            refuse.id.client == *client && matches!(refuse.refusal, Refusal::Switching)
        }
        (Body::Appended(appended), Said::Appended(round, answer)) => {
            appended.round == *round && appended.answer == *answer
        }
        (Body::FenceAnswer(answered), Said::Log(count)) => is_log(&answered.answer, *count),
        _ => is_of_witness(body, said),
    }
}

fn is_log(answer: &FenceReply, count: usize) -> bool {
    match answer {
        FenceReply::Log(entries) => entries.len() == count,
        FenceReply::Fenced { .. } => false,
    }
}

fn is_of_witness(body: &Body, said: &Said) -> bool {
    match (body, said) {
        (Body::Accepted(accepted), Said::Accepted(client, epoch)) => {
            accepted.id.client == *client && accepted.epoch == *epoch
        }
        (Body::Rejected(rejected), Said::Rejected(client, reason)) => {
            rejected.id.client == *client && rejected.reason == *reason
        }
        (Body::FrozenAnswer { requests }, Said::Frozen(count)) => requests.len() == *count,
        (Body::Probed(probed), Said::Probed(epoch, live)) => {
            probed.epoch == *epoch && probed.live == *live
        }
        (Body::Collected(collected), said) => is_collected(collected, said),
        _ => false,
    }
}

fn is_collected(collected: &Collected, said: &Said) -> bool {
    match (&collected.answer, said) {
        (GcAnswer::Suspects(suspects), Said::Suspects(epoch, count)) => {
            collected.epoch == *epoch && suspects.len() == *count
        }
        (GcAnswer::Stranger { .. }, Said::Stranger) => true,
        _ => false,
    }
}

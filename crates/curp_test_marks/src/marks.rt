//! The marks of updates and reads: which an adoption keeps, and in which order they are shown.

use crate::build::{id, key, made, must, request, right, shared};
use curp_base::Shared;
use curp_cmd::{Answer, Command, KeptCommand, NodeId, NodeKind, Request, RequestId, Standby};
use curp_line::{Line, Term};
use curp_msg::{Capture, Completed};
use std::alloc::Global;
use std::process::Abort;

const FIRST: NodeId = NodeId {
    kind: NodeKind::Master,
    number: 1,
};

const SECOND: NodeId = NodeId {
    kind: NodeKind::Master,
    number: 2,
};

const THIRD: NodeId = NodeId {
    kind: NodeKind::Master,
    number: 3,
};

fn update(rt: &impl Abort) -> Command {
    Command::Incr(key(rt, b"k"))
}

fn kept_update(rt: &impl Abort, alloc: Global) -> KeptCommand {
    must(rt, KeptCommand::new(alloc, &update(rt)))
}

fn read(rt: &impl Abort, alloc: Global) -> KeptCommand {
    must(rt, KeptCommand::new(alloc, &Command::Get(key(rt, b"k"))))
}

// The master's time over the first partition, of that epoch.
fn of_first(master: NodeId, epoch: u32) -> Term {
    Term {
        master,
        part: 1,
        epoch,
    }
}

fn executed(rt: &impl Abort, alloc: Global, line: &mut Line, part: u32, index: u64, id: RequestId) {
    let term = Term {
        master: FIRST,
        part,
        epoch: 1,
    };
    let update = kept_update(rt, alloc);
    made(rt, line.reserve(1));
    line.executed(term, index, id, update);
}

// The read at that capture, where the log had that length.
fn looked(
    rt: &impl Abort,
    alloc: Global,
    line: &mut Line,
    (capture, length): (u64, u64),
    id: RequestId,
) {
    let read = read(rt, alloc);
    made(rt, line.reserve(1));
    line.looked(of_first(FIRST, 1), capture, length, id, read);
}

fn updated(line: &mut Line, id: RequestId) {
    line.completed(&Completed {
        id,
        answer: Answer::Number(1),
        by: None,
    });
}

fn read_by(line: &mut Line, id: RequestId, by: Capture) {
    line.completed(&Completed {
        id,
        answer: Answer::Found(None),
        by: Some(by),
    });
}

fn captured(number: u64) -> Capture {
    Capture {
        master: FIRST,
        epoch: 1,
        number,
    }
}

// Updates of these ids, which are replayed.
fn replayed(rt: &impl Abort, alloc: Global, ids: &[RequestId]) -> Vec<Shared<Request>> {
    let mut list = Vec::new(alloc);
    for id in ids {
        let request = request(id.client, id.seq, update(rt));
        must(rt, list.push(shared(rt, alloc, &request)));
    }
    list
}

// The log that is recovered up to the cut is adopted, and these are replayed.
fn adopt(
    rt: &impl Abort,
    alloc: Global,
    line: &mut Line,
    (term, cut): (Term, u64),
    replayed: &[Shared<Request>],
) {
    let count = replayed.len() as u64;
    assert!(rt; cut <= 1_000_000 && count <= 1_000_000);
    let mut standby = Standby::new(alloc);
    made(rt, standby.reserve(count));
    made(rt, line.reserve(1 + count));
    line.adopted(&mut standby, term, cut, replayed);
    drop(standby);
}

fn adopt_ids(
    rt: &impl Abort,
    alloc: Global,
    line: &mut Line,
    adoption: (Term, u64),
    ids: &[RequestId],
) {
    let replayed = replayed(rt, alloc, ids);
    adopt(rt, alloc, line, adoption, &replayed);
    drop(replayed);
}

// Whether these are the ids, by clients and numbers.
fn are(order: &[(RequestId, KeptCommand)], ids: &[(u32, u32)]) -> bool {
    for (at, (id, _)) in order.iter().enumerate() {
        match ids.get(at) {
            Some((client, seq)) if id.client == *client && id.seq == *seq => {}
            _ => return false,
        }
    }
    order.len() == ids.len()
}

fn try_order(rt: &impl Abort, line: &Line, ids: &[(u32, u32)]) {
    let order = must(rt, line.order());
    right(rt, are(&order, ids), "order");
    drop(order);
}

fn marked(rt: &impl Abort, alloc: Global) -> Line {
    let mut line = Line::new(alloc);
    executed(rt, alloc, &mut line, 1, 0, id(1, 1));
    executed(rt, alloc, &mut line, 1, 1, id(2, 1));
    looked(rt, alloc, &mut line, (1, 2), id(3, 1));
    executed(rt, alloc, &mut line, 1, 2, id(1, 2));
    executed(rt, alloc, &mut line, 1, 3, id(2, 2));
    looked(rt, alloc, &mut line, (2, 3), id(3, 2));
    line
}

// The log is recovered up to index 2. What is completed stays, and the read at capture 1 saw no more than that.
#[test]
fn an_adoption_keeps_what_completed_or_was_recovered(rt: HostRuntime) {
    let mut line = marked(&rt, rt.alloc());
    updated(&mut line, id(1, 2));
    let adoption = (of_first(SECOND, 2), 2);
    adopt_ids(&rt, rt.alloc(), &mut line, adoption, &[id(2, 2), id(1, 2)]);
    try_order(&rt, &line, &[(1, 1), (2, 1), (1, 2), (2, 2)]);
    try_reads(&rt, &mut line);
    drop(line);
}

fn try_reads(rt: &impl Abort, line: &mut Line) {
    read_by(line, id(3, 2), captured(2));
    read_by(line, id(3, 1), captured(1));
    try_order(rt, line, &[(1, 1), (2, 1), (3, 1), (1, 2), (2, 2)]);
}

// The master adopts the partition in that epoch, and replays one update.
fn adopted(
    rt: &impl Abort,
    alloc: Global,
    line: &mut Line,
    master: NodeId,
    epoch: u32,
    id: RequestId,
) {
    let adoption = (of_first(master, epoch), u64::from(epoch));
    adopt_ids(rt, alloc, line, adoption, &[id]);
}

// The master answers a read at once, by which it completes.
fn read_at_once(rt: &impl Abort, alloc: Global, line: &mut Line, by: Capture, id: RequestId) {
    let term = of_first(by.master, by.epoch);
    let read = read(rt, alloc);
    made(rt, line.reserve(1));
    line.quick(term, by.number, id, read);
    read_by(line, id, by);
}

// The master, its epoch, the number of the capture, and the number of client 3's request.
const READS: [(NodeId, u32, u64, u32); 4] = [
    (FIRST, 1, 1, 1),
    (SECOND, 2, 1, 2),
    (FIRST, 1, 2, 3),
    (THIRD, 3, 1, 4),
];

fn read_all(rt: &impl Abort, alloc: Global, line: &mut Line) {
    for (master, epoch, number, seq) in READS {
        let by = Capture {
            master,
            epoch,
            number,
        };
        read_at_once(rt, alloc, line, by, id(3, seq));
    }
}

// The first partition is adopted by one master, and then by another.
fn adopted_twice(rt: &impl Abort, alloc: Global) -> Line {
    let mut line = Line::new(alloc);
    executed(rt, alloc, &mut line, 1, 0, id(1, 1));
    adopted(rt, alloc, &mut line, SECOND, 2, id(2, 1));
    executed(rt, alloc, &mut line, 2, 0, id(1, 2));
    adopted(rt, alloc, &mut line, THIRD, 3, id(2, 2));
    line
}

const READ_ORDER: [(u32, u32); 8] = [
    (1, 1),
    (3, 1),
    (3, 3),
    (2, 1),
    (1, 2),
    (3, 2),
    (2, 2),
    (3, 4),
];

// Masters whose partition is adopted again answer reads at once: each comes before the first adoption behind that of its
// master, in the order in which they came, and one of the last master to the end.
#[test]
fn a_read_at_once_comes_before_the_adoption_behind_its_master(rt: HostRuntime) {
    let mut line = adopted_twice(&rt, rt.alloc());
    read_all(&rt, rt.alloc(), &mut line);
    try_order(&rt, &line, &READ_ORDER);
    drop(line);
}

// Three partitions are adopted in turn, and the epochs of two of them fall: the partition and the epoch.
const FALLING: [(u32, u32); 6] = [(1, 5), (2, 2), (1, 3), (0, 9), (1, 4), (2, 1)];

// Each adoption replays one update.
fn adopted_in_turn(rt: &impl Abort, alloc: Global) -> Line {
    let mut line = Line::new(alloc);
    let mut number = 0_u32;
    for (part, epoch) in FALLING {
        number = number.wrapping_add(1);
        let term = Term {
            master: SECOND,
            part,
            epoch,
        };
        let adoption = (term, u64::from(number));
        adopt_ids(rt, alloc, &mut line, adoption, &[id(1, number)]);
    }
    line
}

// The partition and the epoch of masters that answer a read at once.
const ANSWERED: [(u32, u32); 8] = [
    (1, 2),
    (1, 3),
    (1, 4),
    (1, 5),
    (2, 1),
    (2, 0),
    (0, 8),
    (0, 9),
];

fn answer_all(rt: &impl Abort, alloc: Global, line: &mut Line) {
    let mut number = 0_u32;
    for (part, epoch) in ANSWERED {
        number = number.wrapping_add(1);
        let by = Capture {
            master: FIRST,
            epoch,
            number: u64::from(number),
        };
        let term = Term {
            master: FIRST,
            part,
            epoch,
        };
        let read = read(rt, alloc);
        made(rt, line.reserve(1));
        line.quick(term, by.number, id(3, number), read);
        read_by(line, id(3, number), by);
    }
}

const ANSWERED_ORDER: [(u32, u32); 14] = [
    (3, 1),
    (1, 1),
    (3, 6),
    (1, 2),
    (3, 2),
    (1, 3),
    (3, 7),
    (1, 4),
    (3, 3),
    (1, 5),
    (3, 5),
    (1, 6),
    (3, 4),
    (3, 8),
];

// Behind as many of its partition's adoptions as are no later than its master, whichever came first.
#[test]
fn a_read_at_once_is_placed_by_the_epochs_of_its_partition(rt: HostRuntime) {
    let mut line = adopted_in_turn(&rt, rt.alloc());
    answer_all(&rt, rt.alloc(), &mut line);
    try_order(&rt, &line, &ANSWERED_ORDER);
    drop(line);
}

fn nth(n: u32) -> RequestId {
    id(n % 64, n / 64)
}

// 30,000 updates in two partitions, of which half of those of the one complete.
fn thirty_thousand(rt: &impl Abort, alloc: Global) -> Line {
    let mut line = Line::new(alloc);
    for n in 0..30_000_u32 {
        executed(rt, alloc, &mut line, n % 2, u64::from(n / 2), nth(n));
    }
    for n in 0..7_500_u32 {
        updated(&mut line, nth(n.wrapping_mul(4)));
    }
    line
}

// The first log that is adopted for the one partition has a thousand entries, so 7,000 of the others are dropped; 64 of
// these are replayed, each by a master of its own, and with it one that completed.
fn adopt_all(rt: &impl Abort, alloc: Global, line: &mut Line) {
    for n in 0..64_u32 {
        let before = n.wrapping_mul(4);
        let both = [
            nth(29_998_u32.wrapping_sub(before)),
            nth(29_996_u32.wrapping_sub(before)),
        ];
        let term = Term {
            master: SECOND,
            part: 0,
            epoch: n.wrapping_add(2),
        };
        let cut = u64::from(n.wrapping_add(1_000));
        adopt_ids(rt, alloc, line, (term, cut), &both);
    }
}

fn shown_len(rt: &impl Abort, line: &Line) -> usize {
    let order = must(rt, line.order());
    let len = order.len();
    drop(order);
    len
}

#[test]
fn holds_thirty_thousand_marks(rt: HostRuntime) {
    let mut line = thirty_thousand(&rt, rt.alloc());
    adopt_all(&rt, rt.alloc(), &mut line);
    right(
        &rt,
        shown_len(&rt, &line) == 23_064,
        "holds thirty thousand marks (1)",
    );
    right(
        &rt,
        line.reserve(u64::MAX).is_err(),
        "holds thirty thousand marks (2)",
    );
    drop(line);
}

use crate::board::{Beginnings, Board};
use crate::relay::{Relay, begun};
use curp_base::NoMemory;
use curp_cmd::NodeId;
use curp_desk::{Carry, Desk, Drive, Member, Serve, run_crew};
use curp_ruled::{Posts, Take};
use curp_seat::Unobserved;
use std::alloc::Global;
use std::sync::Wait;
use std::test::Fail;
use std::thread::Threads;

// A client's worker.
#[derive(Drop)]
struct Worker<'a> {
    desk: &'a Desk<Relay>,
    chores: Beginnings,
    board: &'a Board,
}

impl<'a> Serve for Worker<'a> {
    fn serve<R: Wait>(self, rt: &R, take: Take) {
        self.desk
            .work(rt, &Unobserved, take, self.chores, self.board);
    }
}

// A client's courier.
#[derive(Clone, Copy)]
struct Courier<'a> {
    desk: &'a Desk<Relay>,
}

impl<'a> Carry for Courier<'a> {
    fn carry<R: Wait>(self, rt: &R, posts: Posts) {
        self.desk.carry(rt, posts);
    }
}

// The driver ends one node at once, if there is one to be, and the others after so many steps.
#[derive(Clone, Copy)]
struct Driver<'a> {
    board: &'a Board,
    first: Option<NodeId>,
    steps: u64,
}

impl<'a> Drive for Driver<'a> {
    fn drive<R: Wait>(self, rt: &R, posts: &mut Posts) -> Result<(), NoMemory> {
        if let Some(first) = self.first {
            posts.end(rt, first);
        }
        self.board.wait(rt, self.steps);
        Ok(())
    }
}

// The relays of so many clients: each passes on to the next one and to itself, or to the one before.
fn ring(alloc: Global, count: u32) -> Result<Vec<Desk<Relay>>, NoMemory> {
    let mut desks = Vec::new(alloc);
    for before in 0..count {
        desks.push(desk_in_ring(alloc, before, count))?;
    }
    Ok(desks)
}

fn desk_in_ring(alloc: Global, before: u32, count: u32) -> Desk<Relay> {
    let number = before.wrapping_add(1);
    let next = if number < count {
        number.wrapping_add(1)
    } else {
        1
    };
    let other = if number % 2 == 0 { number } else { next };
    Desk::new(alloc, before, begun(alloc, number, next, other))
}

// The clients with their beginnings.
fn members<'a>(
    alloc: Global,
    desks: &'a [Desk<Relay>],
    plan: &Plan<'_>,
    board: &'a Board,
) -> Result<Vec<Member<Worker<'a>, Courier<'a>>>, NoMemory> {
    let mut members = Vec::new(alloc);
    for ((number, desk), begins) in (1..=u32::MAX).zip(desks).zip(plan.begins) {
        let chores = Beginnings {
            begins: *begins,
            often: plan.often,
            behind: 0,
        };
        members.push(member(number, desk, chores, board))?;
    }
    Ok(members)
}

fn member<'a>(
    number: u32,
    desk: &'a Desk<Relay>,
    chores: Beginnings,
    board: &'a Board,
) -> Member<Worker<'a>, Courier<'a>> {
    Member {
        node: NodeId::client(number),
        worker: Worker {
            desk,
            chores,
            board,
        },
        courier: Courier { desk },
    }
}

// What a run is: with how many messages each client begins, how often these are passed on, who ends at once, and after
// how many steps the others do.
#[derive(Clone, Copy)]
struct Plan<'a> {
    begins: &'a [u32],
    often: u32,
    first: Option<NodeId>,
    steps: u64,
}

// Runs the clients with rooms of one envelope.
fn run<R: Threads + Wait + Sync>(
    rt: &R,
    alloc: Global,
    desks: &[Desk<Relay>],
    plan: &Plan<'_>,
) -> Result<(), NoMemory> {
    let board = Board::new();
    let members = members(alloc, desks, plan, &board)?;
    let driver = Driver {
        board: &board,
        first: plan.first,
        steps: plan.steps,
    };
    run_crew(rt, alloc, 1, members, driver)
}

fn count(begins: &[u32]) -> u32 {
    u32::try_from(begins.len()).unwrap_or(0)
}

// How many items each client has then.
fn counts<R: Threads + Wait + Sync>(
    rt: &R,
    alloc: Global,
    plan: &Plan<'_>,
) -> Result<Vec<usize>, NoMemory> {
    let desks = ring(alloc, count(plan.begins))?;
    match run(rt, alloc, &desks, plan) {
        Ok(()) => counts_of(alloc, desks),
        Err(error) => Err(error),
    }
}

fn counts_of(alloc: Global, desks: Vec<Desk<Relay>>) -> Result<Vec<usize>, NoMemory> {
    let mut counts = Vec::new(alloc);
    for desk in desks {
        counts.push(count_of(desk))?;
    }
    Ok(counts)
}

// How many items it has.
fn count_of(desk: Desk<Relay>) -> usize {
    let kept = desk.into_kept();
    let count = kept.journal().len();
    drop(kept);
    count
}

fn total(counts: &[usize]) -> usize {
    let mut total: usize = 0;
    for count in counts {
        total = total.saturating_add(*count);
    }
    total
}

#[test]
fn rooms_of_one_envelope_do_not_stand_still(rt: HostRuntime) -> Result<(), Fail> {
    // Each client begins one message, which makes 2^8 - 1 steps.
    let plan = Plan {
        begins: &[1; 12],
        often: 7,
        first: None,
        steps: 12 * 255,
    };
    let counts = counts(&rt, rt.alloc(), &plan)?;
    assert_eq!(rt; total(&counts), 12 * 255);
    Ok(())
}

#[test]
fn a_worker_ends_while_couriers_wait(rt: HostRuntime) -> Result<(), Fail> {
    // The first client ends at once. The second one sends a hundred messages to it, and a hundred to itself.
    let plan = Plan {
        begins: &[0, 100],
        often: 1,
        first: Some(NodeId::client(1)),
        steps: 200,
    };
    let counts = counts(&rt, rt.alloc(), &plan)?;
    assert!(rt; matches!(counts.as_slice(), [ended, other] if *ended <= 100 && *other >= 100));
    Ok(())
}

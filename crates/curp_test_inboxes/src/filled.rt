ghost use Rattle.std.specs.Prelude.{◌≡◌, ◌≤◌};
ghost use denote.Param.Send.{IsSync};
ghost use Rattle.curp_test_inboxes.specs.Ends.{IsSamePost, IsSameTake};

use curp_base::NoMemory;
use curp_cmd::NodeId;
use curp_journal::Arrived;
use curp_msg::Local;
use curp_ruled::{Closed, Envelope, Post, Take, close, inbox};
use std::alloc::{AllocError, Global};
use std::sync::Wait;
use std::test::Fail;
use std::thread::{Threads, join};

// What was taken: the sender, and the stamp that tells its envelopes apart.
type Got = (u32, u64);

// What is taken of two senders, in threads of their own, that send so many envelopes each.
fn filled<R: Threads + Wait + Sync>(
    rt: &R,
    alloc: Global,
    room: u32,
    count: u64,
) -> Result<(Vec<Got>, Closed), NoMemory>
    requires { 1 ≤ room }
{
    let (mut posts, take) = inbox(alloc, NodeId::manager(), room, 2)?;
    let Some(second) = posts.pop() else {
        return Err(AllocError);
    };
    let Some(first) = posts.pop() else {
        return Err(AllocError);
    };
    let ((first, second), (take, taken)) = join(
        rt,
        move || -> (Post, Post)
            requires { IsSync R.row }
            ensures { IsSamePost first result.0 × IsSamePost second result.1 }
        { send_both(rt, alloc, first, second, count) },
        move || -> (Take, Vec<Got>)
            ensures { IsSameTake take result.0 }
        { take_all(rt, alloc, take, count) },
    );
    Ok((taken, closed(alloc, first, second, take)?))
}

// Closes an inbox of two posts.
fn closed(alloc: Global, first: Post, second: Post, take: Take) -> Result<Closed, NoMemory>
    requires posts { take.posts ≡ 2 }
    requires first { (first.inbox ≡ take.inbox) × (first.number ≡ 0) }
    requires second { (second.inbox ≡ take.inbox) × (second.number ≡ 1) }
{
    let mut posts = Vec::with_capacity(alloc, 2)?;
    posts.push(first)?;
    posts.push(second)?;
    Ok(close(posts, take))
}

fn send_both<R: Threads + Wait + Sync>(
    rt: &R,
    alloc: Global,
    first: Post,
    second: Post,
    count: u64,
) -> (Post, Post)
    ensures { IsSamePost first result.0 × IsSamePost second result.1 }
{
    join(
        rt,
        move || -> Post
            ensures { IsSamePost first result }
        { send_all(rt, alloc, first, count) },
        move || -> Post
            ensures { IsSamePost second result }
        { send_all(rt, alloc, second, count) },
    )
}

// Sends so many envelopes. Where there is no memory for one, its sender's end goes in its place.
fn send_all<R: Wait>(rt: &R, alloc: Global, mut post: Post, count: u64) -> Post
    ensures { IsSamePost post result }
{
    let number = post.number();
    for stamp in 0..count {
        post.send(rt, envelope(alloc, number, stamp));
    }
    post
}

fn envelope(alloc: Global, number: u32, stamp: u64) -> Envelope
    ensures { result.sender ≡ number }
{
    match Envelope::new(alloc, number, Arrived::Local(Local::Sync, stamp)) {
        Ok(envelope) => envelope,
        Err(_) => Envelope::end(number),
    }
}

// Takes so many envelopes of each of two senders.
fn take_all<R: Wait>(rt: &R, alloc: Global, mut take: Take, count: u64) -> (Take, Vec<Got>)
    ensures { IsSameTake take result.0 }
{
    let mut taken = Vec::new(alloc);
    for _turn in 0..count.saturating_mul(2) {
        let envelope = take.receive(rt);
        let _ = taken.push(got(alloc, envelope));
    }
    (take, taken)
}

fn got(alloc: Global, envelope: Envelope) -> Got {
    let sender = envelope.sender();
    if envelope.is_end() {
        return (sender, u64::MAX);
    }
    match envelope.open(alloc) {
        Ok(input) => (sender, input.stamp()),
        Err(_) => (sender, u64::MAX),
    }
}

// Whether the envelopes of a sender are its first ones, in order, and how many.
fn in_order(taken: &[Got], sender: u32) -> Option<u64> {
    let mut next = 0;
    for (number, stamp) in taken {
        if *number == sender {
            if *stamp != next || next > 1_000 {
                return None;
            }
            next += 1;
        }
    }
    Some(next)
}

#[test]
fn two_senders_fill_an_inbox_with_room_for_two(rt: HostRuntime) -> Result<(), Fail> {
    let (taken, _closed) = filled(&rt, rt.alloc(), 2, 100)?;
    assert_eq!(rt; taken.len(), 200);
    assert_eq!(rt; in_order(&taken, 0), Some(100));
    assert_eq!(rt; in_order(&taken, 1), Some(100));
    Ok(())
}

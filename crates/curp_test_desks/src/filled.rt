// Desks whose inboxes are filled beforehand. Of a node's end: what came before it is done and goes out, what comes behind it is
// dropped, and the ends go out last. What is due behind an input is made before what waits.
ghost use Rattle.std.specs.Prelude.{◌≡◌, IfOk};

use crate::board::{Beginnings, Board};
use crate::relay::{Relay, begun};
use curp_base::NoMemory;
use curp_cmd::NodeId;
use curp_desk::Desk;
use curp_journal::{Arrived, Item, Named};
use curp_msg::{Body, Local, Message};
use curp_ruled::{Envelope, Post, Posts, Take, inbox};
use curp_seat::Unobserved;
use std::alloc::{AllocError, Global};
use std::sync::Wait;
use std::test::Fail;

// What is sent.
#[derive(Clone, Copy)]
enum Load {
    // An order by which a relay sends two messages.
    Order,
    // The message of that step.
    Message(u64),
    End,
}

fn told(step: u64) -> Arrived {
    Arrived::Message(Named {
        from: NodeId::client(2),
        step,
        place: 1,
        stamp: step,
        message: Message {
            from: NodeId::client(2),
            to: NodeId::client(1),
            body: Body::Given { migration: 0 },
        },
    })
}

fn envelope(alloc: Global, sender: u32, load: Load) -> Result<Envelope, NoMemory>
    ensures { IfOk result (λ envelope. envelope.sender ≡ sender) }
{
    let input = match load {
        Load::Order => Arrived::Local(Local::Retry(1), 0),
        Load::Message(step) => told(step),
        Load::End => return Ok(Envelope::end(sender)),
    };
    Envelope::new(alloc, sender, input)
}

// Sends each load by the post of that place.
fn fill<R: Wait>(
    rt: &R,
    alloc: Global,
    posts: &mut [Post],
    loads: &[(usize, Load)],
) -> Result<(), NoMemory> {
    for (place, load) in loads {
        let Some(post) = posts.get_mut(*place) else {
            return Err(AllocError);
        };
        let number = post.number();
        post.send(rt, envelope(alloc, number, *load)?);
    }
    Ok(())
}

// An inbox of so many posts that is filled so.
fn filled<R: Wait>(
    rt: &R,
    alloc: Global,
    count: u32,
    loads: &[(usize, Load)],
) -> Result<Take, NoMemory> {
    let (mut posts, take) = inbox(alloc, NodeId::client(1), 8, count)?;
    let filled = fill(rt, alloc, &mut posts, loads);
    drop(posts);
    match filled {
        Ok(()) => Ok(take),
        Err(error) => Err(error),
    }
}

// A relay's desk that has taken what comes, until all have ended.
fn worked<R: Wait>(rt: &R, alloc: Global, take: Take, chores: Beginnings) -> Desk<Relay> {
    let desk = Desk::new(alloc, 0, begun(alloc, 1, 1, 1));
    desk.work(rt, &Unobserved, take, chores, &Board::new());
    desk
}

// Whether each item of a journal is a message, in order.
fn are_messages(items: &[Item], expected: &[bool]) -> bool {
    for (item, expected) in items.iter().zip(expected) {
        if matches!(item.input, Arrived::Message(_)) != *expected {
            return false;
        }
    }
    items.len() == expected.len()
}

// Whether the items of the desk's node are messages, in order.
fn made(desk: Desk<Relay>, expected: &[bool]) -> bool {
    let kept = desk.into_kept();
    let made = are_messages(kept.journal(), expected);
    drop(kept);
    made
}

// The post of the relay at the inbox to which it sends.
fn posts_of(alloc: Global, own: Vec<Post>) -> Result<Posts, NoMemory> {
    let mut posts = Posts::new(alloc, 0);
    for post in own {
        posts.add(post)?;
    }
    Ok(posts)
}

// What the courier of an ended relay puts into the inbox to which the relay sends: for each of three envelopes, whether it is
// an end.
fn carried<R: Wait>(rt: &R, alloc: Global, desk: &Desk<Relay>) -> Result<[bool; 3], NoMemory> {
    let (own, mut take) = inbox(alloc, NodeId::client(1), 8, 1)?;
    match posts_of(alloc, own) {
        Ok(posts) => {
            desk.carry(rt, posts);
            Ok([
                is_end(rt, &mut take),
                is_end(rt, &mut take),
                is_end(rt, &mut take),
            ])
        }
        Err(error) => Err(error),
    }
}

fn is_end<R: Wait>(rt: &R, take: &mut Take) -> bool {
    let envelope = take.receive(rt);
    let is_end = envelope.is_end();
    drop(envelope);
    is_end
}

const NO_CHORES: Beginnings = Beginnings {
    begins: 0,
    often: 0,
    behind: 0,
};

// Two orders, with the driver's end between them, and behind them the end of who sent them.
const ENDS: [(usize, Load); 4] = [
    (0, Load::Order),
    (1, Load::End),
    (0, Load::Order),
    (0, Load::End),
];

// Two messages, and behind them the end of who sent them.
const MESSAGES: [(usize, Load); 3] = [(0, Load::Message(1)), (0, Load::Message(2)), (0, Load::End)];

// One order is due at first, and two behind each message.
const TWO_BEHIND: Beginnings = Beginnings {
    begins: 1,
    often: 0,
    behind: 2,
};

#[test]
fn a_node_ends_where_the_drivers_end_stands(rt: HostRuntime) -> Result<(), Fail> {
    let take = filled(&rt, rt.alloc(), 2, &ENDS)?;
    let desk = worked(&rt, rt.alloc(), take, NO_CHORES);
    let ends = carried(&rt, rt.alloc(), &desk);
    assert!(rt; made(desk, &[false]));
    assert!(rt; ends? == [false, false, true]);
    Ok(())
}

#[test]
fn what_is_due_is_made_before_what_waits(rt: HostRuntime) -> Result<(), Fail> {
    let take = filled(&rt, rt.alloc(), 1, &MESSAGES)?;
    let desk = worked(&rt, rt.alloc(), take, TWO_BEHIND);
    assert!(rt; made(desk, &[false, true, false, false, true, false, false]));
    Ok(())
}

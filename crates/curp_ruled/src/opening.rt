ghost use Rattle.std.specs.Prelude.{◌≡◌, ◌≤◌, ℕ, true, [], length, IfOk};
ghost use Rattle.crossbeam_channel.specs.Claims.{view, IsSeatAt};
ghost use Rattle.crossbeam_channel.specs.Ends.{sends_on, receives_on};
ghost use Rattle.curp_base.specs.Words.{At};
ghost use Rattle.curp_ruled.specs.Ends.{AreAllOf, Posted};
ghost use Rattle.curp_ruled.specs.Rule.{taker, after_seat};

use crate::rule::{Hand, InOrder, Seating};
use crate::{Envelope, Post, Take};
use crossbeam_channel::{Pass, RuledReceiver, RuledSender, bounded_with};
use curp_base::NoMemory;
use curp_cmd::NodeId;
use std::alloc::Global;

/// The inbox of a node, with room for so many envelopes, and a post for each of so many senders: the one at place `i` has
/// the number `i`.
pub fn inbox(
    alloc: Global,
    to: NodeId,
    room: u32,
    senders: u32,
) -> Result<(Vec<Post>, Take), NoMemory>
    requires { 1 ≤ room }
    ensures all { IfOk result (λ made. AreAllOf made.1 made.0.items) }
    ensures posts { IfOk result (λ made. made.1.posts ≡ senders) }
    ensures node { IfOk result (λ made. made.1.to ≡ to) }
    ensures nodes { IfOk result (λ made. (k : ℕ) (post : Posted) → At made.0.items k post → post.to ≡ to) }
    ensures none_sent { IfOk result (λ made. (k : ℕ) (post : Posted) → At made.0.items k post → post.sent ≡ []) }
    ensures none_taken { IfOk result (λ made. made.1.taken ≡ []) }
{
    let (sender, receiver, mut pass) = bounded_with::<Envelope, Hand, InOrder, Global>(
        alloc,
        room as usize,
    )?;
    let posts = seat_all(alloc, to, &sender, &mut pass, senders)?;
    Ok((posts, take_of(to, senders, receiver, sender, pass)))
}

fn take_of(
    to: NodeId,
    posts: u32,
    receiver: RuledReceiver<Envelope, Hand, InOrder>,
    sender: RuledSender<Envelope, Hand, InOrder>,
    pass: Pass<Envelope, Hand>,
) -> Take
    requires seated { IsSeatAt (receives_on receiver) pass }
    requires same { sends_on sender ≡ receives_on receiver }
    requires takes { (view pass).takes ≡ true }
    requires none_left { (view pass).left ≡ [] }
    requires made { (view pass).made ≡ posts }
    ensures { result
        ≡ record { inbox = receives_on receiver; to = to; posts = posts; taken = (view pass).taken } }
{
    Take {
        receiver,
        sender,
        pass,
        to,
        posts,
    }
}

/// Makes so many posts, of the numbers from 0 on.
fn seat_all(
    alloc: Global,
    to: NodeId,
    sender: &RuledSender<Envelope, Hand, InOrder>,
    pass: &mut Pass<Envelope, Hand>,
    count: u32,
) -> Result<Vec<Post>, NoMemory>
    requires seated { IsSeatAt (sends_on sender.now) pass.old }
    requires taker { view pass.old ≡ taker }
    ensures seated { IfOk result (λ _. IsSeatAt (sends_on sender.now) pass.new) }
    ensures taker { IfOk result (λ _. view pass.new ≡ record taker { made = count }) }
    ensures count { IfOk result (λ posts. length posts.items ≡ count) }
    ensures posts { IfOk result (λ posts. (k : ℕ) (post : Posted) → At posts.items k post
        → post ≡ record { inbox = sends_on sender.now; to = to; number = k; sent = [] }) }
{
    let mut posts = Vec::with_capacity(alloc, count as usize)?;
    for number in 0..count {
        posts.push(seat(to, sender, pass, number)?)?;
    }
    Ok(posts)
}

/// Makes the post of the next number.
fn seat(
    to: NodeId,
    sender: &RuledSender<Envelope, Hand, InOrder>,
    pass: &mut Pass<Envelope, Hand>,
    number: u32,
) -> Result<Post, NoMemory>
    requires seated { IsSeatAt (sends_on sender.now) pass.old }
    requires takes { (view pass.old).takes ≡ true }
    requires next { (view pass.old).made ≡ number }
    ensures seated { IfOk result (λ _. IsSeatAt (sends_on sender.now) pass.new) }
    ensures made { IfOk result (λ _. view pass.new ≡ after_seat (view pass.old)) }
    ensures post { IfOk result (λ post.
        post ≡ record { inbox = sends_on sender.now; to = to; number = number; sent = [] }) }
{
    let own = sender.try_clone()?;
    let seated = sender.another::<Seating>(pass);
    Ok(Post {
        sender: own,
        pass: seated,
        to,
        number,
    })
}

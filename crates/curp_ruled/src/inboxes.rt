ghost use Rattle.std.specs.Prelude.{◌≡◌, ◌+◌, ◌<◌, ◌≤◌, ◌^◌, length, IfOk};

use crate::{Post, Posts, Take, inbox};
use curp_base::NoMemory;
use curp_cmd::NodeId;
use std::alloc::{AllocError, Global};

/// The room of an inbox in a run, in envelopes. Any other room would do.
pub const ROOM: u32 = 1_024;

/// The ends of all inboxes of a run.
#[derive(Drop)]
pub struct Inboxes {
    /// One for each node, in the order of the nodes.
    pub takes: Vec<Take>,
    /// Those of each node, in the same order.
    pub posts: Vec<Posts>,
    /// Those of the driver.
    pub own: Posts,
}

impl Inboxes {
    /// Makes an inbox for each node, with this room. The senders of each are the nodes, by their places counted from 0,
    /// and the driver, by the count of the nodes. The nodes of a kind are to stand in the order of their numbers, from 1
    /// on.
    pub fn new(alloc: Global, nodes: &[NodeId], room: u32) -> Result<Inboxes, NoMemory>
        requires room { 1 ≤ room }
        ensures takes { IfOk result (λ made. length made.takes.items ≡ length nodes.now) }
        ensures posts { IfOk result (λ made. length made.posts.items ≡ length nodes.now) }
    {
        let count = count_of(nodes)?;
        let mut posts = no_posts(alloc, count)?;
        let mut own = Posts::new(alloc, count);
        let mut takes = Vec::with_capacity(alloc, nodes.len())?;
        for node in nodes {
            let (ends, take) = inbox(alloc, *node, room, count + 1)?;
            deal(&mut posts, &mut own, ends)?;
            takes.push(take)?;
        }
        Ok(Inboxes { takes, posts, own })
    }
}

/// How many nodes there are. For more than there can be senders beside the driver there is no memory.
fn count_of(nodes: &[NodeId]) -> Result<u32, NoMemory>
    ensures { IfOk result (λ count. (count ≡ length nodes.now) × (count + 1 < 2 ^ 32)) }
{
    match u32::try_from(nodes.len()) {
        Ok(count) if count < u32::MAX => Ok(count),
        _ => Err(AllocError),
    }
}

/// None yet, for each of the nodes.
fn no_posts(alloc: Global, count: u32) -> Result<Vec<Posts>, NoMemory>
    ensures { IfOk result (λ posts. length posts.items ≡ count) }
{
    let mut posts = Vec::with_capacity(alloc, count as usize)?;
    for sender in 0..count {
        posts.push(Posts::new(alloc, sender))?;
    }
    Ok(posts)
}

/// Gives each sender its post: the nodes, and the driver, who has the last one.
fn deal(posts: &mut [Posts], own: &mut Posts, ends: Vec<Post>) -> Result<(), NoMemory>
    ensures { length posts.new ≡ length posts.old }
{
    let mut ends = ends;
    if let Some(last) = ends.pop() {
        own.add(last)?;
    }
    for (sender, end) in posts.iter_mut().zip(ends) {
        sender.add(end)?;
    }
    Ok(())
}

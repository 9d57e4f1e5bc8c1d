ghost use Rattle.std.specs.Prelude.{◌≡◌, ◌++◌, [], ◌∷◌, false, map, OnOk, OnErr};
ghost use Rattle.curp_ruled.specs.Posting.{at_place, fresh_posts, is_open_to, place_of, slot_ended, slot_ended_to, slot_sent, with_end, with_ends, with_post, with_sent};

use crate::{Envelope, Post};
use curp_base::NoMemory;
use curp_cmd::{NodeId, NodeKind};
use std::alloc::Global;
use std::marker::Model;
use std::sync::Wait;

/// A post, and whether it is used up: its sender's end went through it, behind which nothing does.
#[derive(Drop)]
pub(crate) struct Slot {
    post: Post,
    ended: bool,
}

/// The posts of one sender at the inboxes of all nodes. Contracts see the sender's number, and the posts of each kind of node in
/// the order in which they were added, with what each sent and whether it is used up.
#[derive(Drop)]
pub struct Posts {
    sender: u32,
    manager: Vec<Slot>,
    clients: Vec<Slot>,
    masters: Vec<Slot>,
    backups: Vec<Slot>,
    witnesses: Vec<Slot>,
}

impl Model for Posts {
    ghost use Rattle.curp_ruled.specs.Posting.{Posting};

    ghost Value = { Posting };

    ghost view = { λ posts. record {
      sender = posts.sender;
      manager = posts.manager.items;
      clients = posts.clients.items;
      masters = posts.masters.items;
      backups = posts.backups.items;
      witnesses = posts.witnesses.items;
    } };
}

impl Posts {
    /// Those of the sender of that number. It takes no memory.
    pub fn new(alloc: Global, sender: u32) -> Posts
        ensures { result ≡ fresh_posts sender }
    {
        Posts {
            sender,
            manager: Vec::new(alloc),
            clients: Vec::new(alloc),
            masters: Vec::new(alloc),
            backups: Vec::new(alloc),
            witnesses: Vec::new(alloc),
        }
    }

    /// The number of their sender.
    pub fn sender(&self) -> u32
        ensures { result ≡ self.now.sender }
    {
        self.sender
    }

    /// Adds a post at the inbox of a node. Those of a kind are to come in the order of the nodes' numbers, from 1 on, or
    /// they aren't found.
    pub fn add(&mut self, post: Post) -> Result<(), NoMemory>
        ensures ok { OnOk result (self.new ≡ with_post post self.old) }
        ensures err { OnErr result (self.new ≡ self.old) }
    {
        let to = post.to();
        match to.kind {
            NodeKind::Manager => put(&mut self.manager, post),
            NodeKind::Client => put(&mut self.clients, post),
            NodeKind::Master => put(&mut self.masters, post),
            NodeKind::Backup => put(&mut self.backups, post),
            NodeKind::Witness => put(&mut self.witnesses, post),
        }
    }

    /// Puts an envelope of this sender into the inbox of a node, and waits for room there. One to a node that has no inbox, or
    /// that got the end, is lost.
    pub fn send<R: Wait>(&mut self, rt: &R, to: NodeId, envelope: Envelope)
        ensures { self.new ≡ with_sent to envelope self.old }
    {
        match to.kind {
            NodeKind::Manager => send_to(rt, &mut self.manager, to, envelope),
            NodeKind::Client => send_to(rt, &mut self.clients, to, envelope),
            NodeKind::Master => send_to(rt, &mut self.masters, to, envelope),
            NodeKind::Backup => send_to(rt, &mut self.backups, to, envelope),
            NodeKind::Witness => send_to(rt, &mut self.witnesses, to, envelope),
        }
    }

    /// Puts this sender's end into the inbox of a node, if it isn't there yet.
    pub fn end<R: Wait>(&mut self, rt: &R, to: NodeId)
        ensures { self.new ≡ with_end to self.old }
    {
        match to.kind {
            NodeKind::Manager => end_to(rt, &mut self.manager, to),
            NodeKind::Client => end_to(rt, &mut self.clients, to),
            NodeKind::Master => end_to(rt, &mut self.masters, to),
            NodeKind::Backup => end_to(rt, &mut self.backups, to),
            NodeKind::Witness => end_to(rt, &mut self.witnesses, to),
        }
    }

    /// Puts this sender's end into all inboxes where it isn't yet.
    pub fn end_all<R: Wait>(&mut self, rt: &R)
        ensures { self.new ≡ with_ends self.old }
    {
        end_each(rt, &mut self.manager);
        end_each(rt, &mut self.clients);
        end_each(rt, &mut self.masters);
        end_each(rt, &mut self.backups);
        end_each(rt, &mut self.witnesses);
    }
}

impl Slot {
    /// Whether it is the post of that node, and isn't used up.
    fn is_open_to(&self, to: NodeId) -> bool
        ensures { result ≡ is_open_to to self.now }
    {
        self.post.to() == to && !self.ended
    }

    /// Sends an envelope to that node, if this is its post, isn't used up, and has the envelope's number.
    fn send<R: Wait>(&mut self, rt: &R, to: NodeId, envelope: Envelope)
        ensures { self.new ≡ slot_sent to envelope self.old }
    {
        if self.is_open_to(to) && self.post.number() == envelope.sender() {
            self.post.send(rt, envelope);
        }
    }

    /// Sends the end, unless it was sent.
    fn end<R: Wait>(&mut self, rt: &R)
        ensures { self.new ≡ slot_ended self.old }
    {
        if !self.ended {
            let number = self.post.number();
            self.post.send(rt, Envelope::end(number));
            self.ended = true;
        }
    }

    /// Sends the end to that node, if this is its post, unless it was sent.
    fn end_to<R: Wait>(&mut self, rt: &R, to: NodeId)
        ensures { self.new ≡ slot_ended_to to self.old }
    {
        if self.post.to() == to {
            self.end(rt);
        }
    }
}

/// Where the post of a node is, of those of its kind. The manager is the one of its kind, and others are numbered from 1.
fn place_of(to: NodeId) -> usize
    ensures { result ≡ place_of to }
{
    to.number.saturating_sub(1) as usize
}

fn put(slots: &mut Vec<Slot>, post: Post) -> Result<(), NoMemory>
    ensures ok { OnOk result (slots.new.items ≡ slots.old.items ++ record { post = post; ended = false } ∷ []) }
    ensures err { OnErr result (slots.new.items ≡ slots.old.items) }
{
    slots.push(Slot { post, ended: false })?;
    Ok(())
}

fn send_to<R: Wait>(rt: &R, slots: &mut [Slot], to: NodeId, envelope: Envelope)
    ensures { slots.new ≡ at_place (place_of to) (slot_sent to envelope) slots.old }
{
    let place = place_of(to);
    if place < slots.len() {
        slots[place].send(rt, to, envelope);
    }
}

fn end_to<R: Wait>(rt: &R, slots: &mut [Slot], to: NodeId)
    ensures { slots.new ≡ at_place (place_of to) (slot_ended_to to) slots.old }
{
    let place = place_of(to);
    if place < slots.len() {
        slots[place].end_to(rt, to);
    }
}

fn end_each<R: Wait>(rt: &R, slots: &mut [Slot])
    ensures { slots.new ≡ map slot_ended slots.old }
{
    for slot in slots.iter_mut() {
        slot.end(rt);
    }
}

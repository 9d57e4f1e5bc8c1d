ghost use Rattle.std.specs.Prelude.{◌≤◌};

use curp_base::NoMemory;
use curp_cmd::NodeId;
use curp_ruled::{Inboxes, Posts, Take};
use std::alloc::{AllocError, Global};
use std::sync::{Mutex, Wait};
use std::thread;
use std::thread::{Scope, Threads};

/// What a worker does: it takes what comes to its node, until it has an end of each sender.
pub trait Serve: Sized {
    fn serve<R: Wait>(self, rt: &R, take: Take);
}

/// What a courier does: it sends what its node puts out, and then an end to each inbox.
pub trait Carry: Sized {
    fn carry<R: Wait>(self, rt: &R, posts: Posts);
}

/// What the driver does while the nodes run. All that run get its end behind it.
pub trait Drive: Sized {
    fn drive<R: Wait>(self, rt: &R, posts: &mut Posts) -> Result<(), NoMemory>;
}

/// A node of a run, with its worker and its courier.
#[derive(Drop)]
pub struct Member<W, C> {
    pub node: NodeId,
    pub worker: W,
    pub courier: C,
}

/// A worker with its inbox.
#[derive(Drop)]
struct AtWork<W> {
    worker: W,
    take: Take,
}

/// A courier with its node's posts.
#[derive(Drop)]
struct OnErrand<C> {
    courier: C,
    posts: Posts,
}

/// The threads that are to be made. Each takes its job out of its slot; so does the calling one where a thread can't be made.
#[derive(Drop)]
struct Crew<W, C> {
    nodes: Vec<NodeId>,
    workers: Vec<Mutex<Option<AtWork<W>>>>,
    couriers: Vec<Mutex<Option<OnErrand<C>>>>,
}

/// What one thread does, once.
trait Job: Sized {
    fn act<R: Wait>(self, rt: &R);
}

impl<W: Serve> Job for AtWork<W> {
    fn act<R: Wait>(self, rt: &R) {
        self.worker.serve(rt, self.take);
    }
}

impl<C: Carry> Job for OnErrand<C> {
    fn act<R: Wait>(self, rt: &R) {
        self.courier.carry(rt, self.posts);
    }
}

/// Runs nodes with inboxes of this room: a worker and a courier for each, on threads of their own, and the driver on the
/// calling one. It returns once all of them have returned. The members of a kind are to stand in the order of their nodes'
/// numbers, from 1 on, and each desk is to have its place, counted from 0, as its number.
///
/// Where a thread can't be made, all that were made get the ends that they wait for, the driver does nothing, and the
/// answer is the same as after running out of memory.
pub fn run_crew<
    R: Threads + Wait + Sync,
    W: Serve + Send + Drop,
    C: Carry + Send + Drop,
    D: Drive + Drop,
>(rt: &R, alloc: Global, room: u32, members: Vec<Member<W, C>>, driver: D) -> Result<(), NoMemory>
    requires { 1 ≤ room }
{
    let nodes = nodes_of(alloc, &members)?;
    let Inboxes { takes, posts, own } = Inboxes::new(alloc, &nodes, room)?;
    let crew = crew_of(alloc, nodes, members, takes, posts)?;
    crew.run(rt, own, driver)
}

fn nodes_of<W, C>(alloc: Global, members: &[Member<W, C>]) -> Result<Vec<NodeId>, NoMemory> {
    let mut nodes = Vec::new(alloc);
    for member in members {
        nodes.push(member.node)?;
    }
    Ok(nodes)
}

fn crew_of<W: Drop, C: Drop>(
    alloc: Global,
    nodes: Vec<NodeId>,
    members: Vec<Member<W, C>>,
    takes: Vec<Take>,
    posts: Vec<Posts>,
) -> Result<Crew<W, C>, NoMemory> {
    let mut crew = Crew::of(alloc, nodes)?;
    for ((member, take), posts) in members.into_iter().zip(takes).zip(posts) {
        crew.add(member, take, posts)?;
    }
    Ok(crew)
}

impl<W: Drop, C: Drop> Crew<W, C> {
    /// None yet, with room for those of the nodes.
    fn of(alloc: Global, nodes: Vec<NodeId>) -> Result<Crew<W, C>, NoMemory> {
        let workers = Vec::with_capacity(alloc, nodes.len())?;
        let couriers = Vec::with_capacity(alloc, nodes.len())?;
        Ok(Crew {
            nodes,
            workers,
            couriers,
        })
    }

    fn add(&mut self, member: Member<W, C>, take: Take, posts: Posts) -> Result<(), NoMemory> {
        let Member {
            node: _,
            worker,
            courier,
        } = member;
        self.workers
            .push(Mutex::new(Some(AtWork { worker, take })))?;
        self.couriers
            .push(Mutex::new(Some(OnErrand { courier, posts })))?;
        Ok(())
    }
}

impl<W: Serve + Send + Drop, C: Carry + Send + Drop> Crew<W, C> {
    /// All workers are made before any courier. So where a worker can't be made, nothing was sent yet; and where a courier
    /// can't be made, all inboxes are emptied. Whoever isn't made has its ends sent here.
    fn run<R: Threads + Wait + Sync, D: Drive + Drop>(
        &self,
        rt: &R,
        own: Posts,
        driver: D,
    ) -> Result<(), NoMemory> {
        let mut own = own;
        thread::scope(thread::scope_env(), rt, |scope| {
            let working = hire(scope, rt, &self.workers);
            if working < self.workers.len() {
                self.dismiss_workers(rt, working, own);
                return Err(AllocError);
            }
            let carrying = hire(scope, rt, &self.couriers);
            if carrying < self.couriers.len() {
                self.dismiss_couriers(rt, carrying, own);
                return Err(AllocError);
            }
            let driven = driver.drive(rt, &mut own);
            own.end_all(rt);
            driven
        })
    }
}

impl<W, C: Drop> Crew<W, C> {
    /// Sends the ends of all senders to the nodes that have a worker, which are so many.
    fn dismiss_workers<R: Wait>(&self, rt: &R, working: usize, own: Posts) {
        self.end_working(rt, working, own);
        for slot in &self.couriers {
            let errand = slot.lock(rt).take();
            if let Some(errand) = errand {
                self.end_working(rt, working, errand.posts);
            }
        }
    }

    fn end_working<R: Wait>(&self, rt: &R, working: usize, mut posts: Posts) {
        for node in self.nodes.iter().take(working) {
            posts.end(rt, *node);
        }
    }

    /// Sends the ends that the couriers behind so many of them would send, and then the driver's.
    fn dismiss_couriers<R: Wait>(&self, rt: &R, carrying: usize, mut own: Posts) {
        for slot in self.couriers.iter().skip(carrying) {
            let errand = slot.lock(rt).take();
            if let Some(mut errand) = errand {
                errand.posts.end_all(rt);
            }
        }
        own.end_all(rt);
    }
}

/// Makes a thread for each job, until one can't be made. How many were made.
fn hire<'s, S, R: Wait + Sync, J: Job + Send + Drop>(
    scope: &Scope<'s, S>,
    rt: &'s R,
    slots: &'s [Mutex<Option<J>>],
) -> usize {
    for (made, slot) in slots.iter().enumerate() {
        if scope.spawn(move || act(rt, slot)).is_err() {
            return made;
        }
    }
    slots.len()
}

fn act<R: Wait, J: Job + Drop>(rt: &R, slot: &Mutex<Option<J>>) {
    let job = slot.lock(rt).take();
    if let Some(job) = job {
        job.act(rt);
    }
}

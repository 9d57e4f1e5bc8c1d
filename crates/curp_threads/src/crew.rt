// Who works in a run: the workers and the couriers of its nodes, and the driver.
use crate::board::Board;
use crate::drive::DriverPosts;
use crate::teller::{Speaker, Teller};
use curp_base::NoMemory;
use curp_desk::{Carry, Desk, Drive, Serve};
use curp_due::{ClientChores, Deed, MasterChores};
use curp_msg::Core;
use curp_nodes::{BackupNode, ClientNode, ManagerNode, MasterNode, WitnessNode};
use curp_ruled::{Posts, Take};
use curp_seat::{Chores, NoChores, Observer};
use std::alloc::Global;
use std::sync::Wait;

/// What all workers of a run share.
#[derive(Drop)]
pub(crate) struct Floor<'s, G> {
    pub board: &'s Board,
    pub observer: &'s G,
}

/// Whose steps a worker makes, with what the node is ordered by itself.
#[derive(Drop)]
pub(crate) enum Duty<'s, 'w> {
    Manager(&'s Desk<ManagerNode>),
    /// A client, with its number.
    Client(u32, &'s Desk<ClientNode>, ClientChores<'w>),
    /// A master, with its number.
    Master(u32, &'s Desk<MasterNode>),
    Backup(&'s Desk<BackupNode>),
    Witness(&'s Desk<WitnessNode>),
}

/// A node's worker.
#[derive(Drop)]
pub(crate) struct Worker<'s, 'w, G> {
    pub floor: &'s Floor<'s, G>,
    pub duty: Duty<'s, 'w>,
}

impl<'s, 'w, G: Observer> Serve for Worker<'s, 'w, G> {
    fn serve<R: Wait>(self, rt: &R, take: Take) {
        let floor = self.floor;
        match self.duty {
            Duty::Manager(desk) => floor.serve(rt, desk, take, NoChores, Speaker::Other),
            Duty::Client(number, desk, chores) => {
                floor.serve(rt, desk, take, chores, Speaker::Client(number));
            }
            Duty::Master(number, desk) => {
                let chores = MasterChores::new();
                floor.serve(rt, desk, take, chores, Speaker::Master(number));
            }
            Duty::Backup(desk) => floor.serve(rt, desk, take, NoChores, Speaker::Other),
            Duty::Witness(desk) => floor.serve(rt, desk, take, NoChores, Speaker::Other),
        }
    }
}

impl<'s, G: Observer> Floor<'s, G> {
    fn serve<R: Wait, N: Core + Drop, C: Chores + Drop>(
        &self,
        rt: &R,
        desk: &Desk<N>,
        take: Take,
        chores: C,
        speaker: Speaker,
    ) {
        let teller = Teller {
            speaker,
            board: self.board,
        };
        desk.work(rt, self.observer, take, chores, &teller);
    }
}

/// A node's courier.
#[derive(Clone, Copy)]
pub(crate) enum Courier<'s> {
    Manager(&'s Desk<ManagerNode>),
    Client(&'s Desk<ClientNode>),
    Master(&'s Desk<MasterNode>),
    Backup(&'s Desk<BackupNode>),
    Witness(&'s Desk<WitnessNode>),
}

impl<'s> Carry for Courier<'s> {
    fn carry<R: Wait>(self, rt: &R, posts: Posts) {
        match self {
            Courier::Manager(desk) => desk.carry(rt, posts),
            Courier::Client(desk) => desk.carry(rt, posts),
            Courier::Master(desk) => desk.carry(rt, posts),
            Courier::Backup(desk) => desk.carry(rt, posts),
            Courier::Witness(desk) => desk.carry(rt, posts),
        }
    }
}

/// The driver of a run, with all that it does.
#[derive(Drop)]
pub(crate) struct Driver<'s> {
    pub alloc: Global,
    pub deeds: Vec<Deed>,
    pub board: &'s Board,
}

impl<'s> Drive for Driver<'s> {
    fn drive<R: Wait>(self, rt: &R, posts: &mut Posts) -> Result<(), NoMemory> {
        let Driver {
            alloc,
            deeds,
            board,
        } = self;
        let mut reach = DriverPosts {
            alloc,
            board,
            posts,
        };
        reach.drive(rt, deeds)
    }
}

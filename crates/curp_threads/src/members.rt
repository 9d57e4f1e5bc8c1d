use crate::crew::{Courier, Duty, Floor, Worker};
use crate::desks::Desks;
use curp_base::NoMemory;
use curp_cmd::{Command, NodeId, NodeKind};
use curp_desk::{Desk, Member};
use curp_due::ClientChores;
use curp_nodes::{BackupNode, ClientNode, MasterNode, WitnessNode};
use std::alloc::Global;

/// The nodes of a run, each with its worker and its courier.
#[derive(Drop)]
struct Roll<'s, 'w, G> {
    floor: &'s Floor<'s, G>,
    members: Vec<Member<Worker<'s, 'w, G>, Courier<'s>>>,
}

/// The nodes of a run in the order of their desks, each with its worker and its courier. The clients have their lists of
/// `work`.
pub(crate) fn members<'s, 'w, G>(
    alloc: Global,
    floor: &'s Floor<'s, G>,
    desks: &'s Desks,
    work: &'w [Vec<Command>],
) -> Result<Vec<Member<Worker<'s, 'w, G>, Courier<'s>>>, NoMemory> {
    let mut all = Roll {
        floor,
        members: Vec::new(alloc),
    };
    let manager = &desks.manager;
    all.add(
        NodeId::manager(),
        Duty::Manager(manager),
        Courier::Manager(manager),
    )?;
    all.add_clients(alloc, &desks.clients, work)?;
    all.add_masters(&desks.masters)?;
    all.add_backups(&desks.backups)?;
    all.add_witnesses(&desks.witnesses)?;
    Ok(all.members)
}

impl<'s, 'w, G> Roll<'s, 'w, G> {
    fn add(
        &mut self,
        node: NodeId,
        duty: Duty<'s, 'w>,
        courier: Courier<'s>,
    ) -> Result<(), NoMemory> {
        let worker = Worker {
            floor: self.floor,
            duty,
        };
        self.members.push(Member {
            node,
            worker,
            courier,
        })?;
        Ok(())
    }

    fn add_clients(
        &mut self,
        alloc: Global,
        desks: &'s [Desk<ClientNode>],
        work: &'w [Vec<Command>],
    ) -> Result<(), NoMemory> {
        for ((number, desk), commands) in (1..=u32::MAX).zip(desks).zip(work) {
            let chores = ClientChores::new(alloc, commands.as_slice())?;
            let duty = Duty::Client(number, desk, chores);
            self.add(NodeId::client(number), duty, Courier::Client(desk))?;
        }
        Ok(())
    }

    fn add_masters(&mut self, desks: &'s [Desk<MasterNode>]) -> Result<(), NoMemory> {
        for (number, desk) in (1..=u32::MAX).zip(desks) {
            let duty = Duty::Master(number, desk);
            self.add(NodeId::master(number), duty, Courier::Master(desk))?;
        }
        Ok(())
    }

    fn add_backups(&mut self, desks: &'s [Desk<BackupNode>]) -> Result<(), NoMemory> {
        for (number, desk) in (1..=u32::MAX).zip(desks) {
            let node = NodeId {
                kind: NodeKind::Backup,
                number,
            };
            self.add(node, Duty::Backup(desk), Courier::Backup(desk))?;
        }
        Ok(())
    }

    fn add_witnesses(&mut self, desks: &'s [Desk<WitnessNode>]) -> Result<(), NoMemory> {
        for (number, desk) in (1..=u32::MAX).zip(desks) {
            let node = NodeId {
                kind: NodeKind::Witness,
                number,
            };
            self.add(node, Duty::Witness(desk), Courier::Witness(desk))?;
        }
        Ok(())
    }
}

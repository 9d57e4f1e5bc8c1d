use curp_base::NoMemory;
use curp_cmd::{NodeId, NodeKind};
use curp_desk::Desk;
use curp_msg::Core;
use curp_nodes::{BackupNode, ClientNode, ManagerNode, MasterNode, WitnessNode};
use curp_seat::Kept;
use std::alloc::{AllocError, Global};

/// The desks of a run's nodes; in each list the first is that of the node with the number 1.
#[derive(Drop)]
pub struct Desks {
    pub manager: Desk<ManagerNode>,
    pub clients: Vec<Desk<ClientNode>>,
    pub masters: Vec<Desk<MasterNode>>,
    pub backups: Vec<Desk<BackupNode>>,
    pub witnesses: Vec<Desk<WitnessNode>>,
}

impl Desks {
    /// Each desk has the number of its place, counted from 0: the manager, the clients, the masters, the backups and the
    /// witnesses.
    pub fn new(
        alloc: Global,
        manager: ManagerNode,
        clients: Vec<ClientNode>,
        masters: Vec<MasterNode>,
        backups: Vec<BackupNode>,
        witnesses: Vec<WitnessNode>,
    ) -> Result<Desks, NoMemory> {
        let manager = Kept::begin(alloc, manager, NodeId::manager());
        let mut places = Places { next: 1 };
        Ok(Desks {
            manager: Desk::new(alloc, 0, manager),
            clients: desks_of(alloc, NodeKind::Client, clients, &mut places)?,
            masters: desks_of(alloc, NodeKind::Master, masters, &mut places)?,
            backups: desks_of(alloc, NodeKind::Backup, backups, &mut places)?,
            witnesses: desks_of(alloc, NodeKind::Witness, witnesses, &mut places)?,
        })
    }
}

/// Numbers for desks, in order.
#[derive(Drop)]
struct Places {
    next: u32,
}

impl Places {
    fn take(&mut self) -> Result<u32, NoMemory> {
        let place = self.next;
        self.next = place.checked_add(1).ok_or(AllocError)?;
        Ok(place)
    }
}

fn desks_of<N: Core + Drop>(
    alloc: Global,
    kind: NodeKind,
    nodes: Vec<N>,
    places: &mut Places,
) -> Result<Vec<Desk<N>>, NoMemory> {
    let mut desks = Vec::with_capacity(alloc, nodes.len())?;
    for (number, node) in (1..=u32::MAX).zip(nodes) {
        let kept = Kept::begin(alloc, node, NodeId { kind, number });
        desks.push(Desk::new(alloc, places.take()?, kept))?;
    }
    Ok(desks)
}

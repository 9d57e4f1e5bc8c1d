use curp_nodes::{BackupNode, ClientNode, ManagerNode, MasterNode, WitnessNode};
use curp_seat::Kept;

/// The journals of the nodes of a run; each list ascends by the nodes' numbers.
#[derive(Drop)]
pub struct Journals {
    pub manager: Kept<ManagerNode>,
    pub clients: Vec<Kept<ClientNode>>,
    pub masters: Vec<Kept<MasterNode>>,
    pub backups: Vec<Kept<BackupNode>>,
    pub witnesses: Vec<Kept<WitnessNode>>,
}

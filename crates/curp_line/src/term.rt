use curp_cmd::NodeId;

/// A master's time over a partition: the master, the partition, and the epoch of its recovery, which is 1 at opening.
#[derive(Clone, Copy)]
pub struct Term {
    pub master: NodeId,
    pub part: u32,
    pub epoch: u32,
}

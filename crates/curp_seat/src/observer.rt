use curp_cmd::NodeId;

/// A place in a run: before that step of a node. The steps of a node count from 1.
#[derive(Clone, Copy, PartialEq, Eq)]
pub struct Point {
    pub node: NodeId,
    pub count: u64,
}

/// What hears of each step before it is made, while the lock of that node is held and no other.
pub trait Observer {
    /// It may hold the step. One that waits for a later step of the same node never returns.
    fn reach(&self, point: Point);
}

/// An observer that holds nothing.
#[derive(Clone, Copy)]
pub struct Unobserved;

impl Observer for Unobserved {
    fn reach(&self, _point: Point) {}
}

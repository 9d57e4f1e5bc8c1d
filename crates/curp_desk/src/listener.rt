use curp_cmd::RequestId;
use curp_seat::Took;
use std::sync::Wait;

/// A step that was made.
#[derive(Clone, Copy)]
pub struct MadeStep {
    /// What kind of input the node took.
    pub took: Took,
    /// The request that was completed, if one was.
    pub completed: Option<RequestId>,
    pub stamp: u64,
}

/// Who hears of what a node does. No lock is held at a call, so one may wait for a lock of its own.
pub trait Listener {
    /// A step was made, and what it sent is put out.
    fn hear_step<R: Wait>(&self, rt: &R, step: MadeStep);

    /// There was no memory. The node makes no more steps.
    fn hear_shortage<R: Wait>(&self, rt: &R);
}

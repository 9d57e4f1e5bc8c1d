// The driver: it does what the plan has for it, one after the other.
use crate::board::Board;
use curp_base::NoMemory;
use curp_cmd::NodeId;
use curp_due::Deed;
use curp_journal::Arrived;
use curp_msg::Local;
use curp_ruled::{Envelope, Posts};
use std::alloc::Global;
use std::sync::Wait;

/// How the driver reaches the nodes: by its posts. A node is stopped by its end.
#[derive(Drop)]
pub(crate) struct DriverPosts<'p> {
    pub alloc: Global,
    pub board: &'p Board,
    pub posts: &'p mut Posts,
}

impl<'p> DriverPosts<'p> {
    /// Does all of these.
    pub(crate) fn drive<R: Wait>(&mut self, rt: &R, deeds: Vec<Deed>) -> Result<(), NoMemory> {
        let mut stamp = 0;
        for deed in deeds {
            stamp = self.act(rt, deed, stamp)?;
        }
        Ok(())
    }

    /// Does one of them. The stamp that it heard last.
    fn act<R: Wait>(&mut self, rt: &R, deed: Deed, stamp: u64) -> Result<u64, NoMemory> {
        match deed {
            Deed::Await(need) => self.board.wait(rt, need),
            Deed::Stop(node) => {
                self.posts.end(rt, node);
                Ok(stamp)
            }
            Deed::Order(to, order) => {
                self.give(rt, to, order, stamp)?;
                Ok(stamp)
            }
        }
    }

    fn give<R: Wait>(
        &mut self,
        rt: &R,
        to: NodeId,
        order: Local,
        stamp: u64,
    ) -> Result<(), NoMemory> {
        let number = self.posts.sender();
        let envelope = Envelope::new(self.alloc, number, Arrived::Local(order, stamp))?;
        self.posts.send(rt, to, envelope);
        Ok(())
    }
}

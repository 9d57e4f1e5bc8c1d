ghost use Rattle.std.specs.Prelude.{◌≤◌};
ghost use Rattle.curp_words.specs.Plan.{IsLivePlan};

use crate::board::Board;
use crate::crew::{Driver, Floor};
use crate::desks::Desks;
use crate::members::members;
use curp_base::NoMemory;
use curp_cmd::Command;
use curp_desk::run_crew;
use curp_due::deeds;
use curp_seat::Observer;
use curp_words::LivePlan;
use std::alloc::Global;
use std::sync::Wait;
use std::thread::Threads;

/// Runs the nodes of a plan at their desks, each on threads of its own, until each client has done its list of `work` or there
/// is no memory.
pub fn run_nodes<R: Threads + Wait + Sync, G: Observer + Sync>(
    rt: &R,
    alloc: Global,
    room: u32,
    plan: &LivePlan,
    work: &[Vec<Command>],
    desks: &Desks,
    observer: &G,
) -> Result<(), NoMemory>
    requires room { 1 ≤ room }
    requires plan { IsLivePlan plan.now }
{
    let board = Board::new(alloc, plan.clients)?;
    let floor = Floor {
        board: &board,
        observer,
    };
    let members = members(alloc, &floor, desks, work)?;
    let driver = Driver {
        alloc,
        deeds: deeds(alloc, plan)?,
        board: &board,
    };
    run_crew(rt, alloc, room, members, driver)?;
    // A worker may have found no memory after the last completion.
    board.fails(rt)
}

//! The nodes: the manager, clients, masters, backups and witnesses, each behind one trait, by the machine that defines it;
//! and the nodes of a header as they are before any step.
//!
//! The trait is `Core`, and the nodes are `MasterNode`, `BackupNode` and `WitnessNode`, and under names like theirs
//! `ManagerNode` and `ClientNode`, which are the `Manager` of `curp_config` and the `Client` of `curp_client`. The machines
//! of the first three are in `specs/Machines.antt`, of the others in `specs/Machine.antt` of their crates, and are the
//! definitions whole. `new` of each: exact, as at opening; `fresh` of masters, backups and witnesses: exact, as before
//! anything came. What is proved of them stands in `curp_world::laws`, which the nodes don't know.
//!
//! At opening each partition has a master of its own number, and the nodes of a kind are numbered from 1. `manager`,
//! `clients`, `masters`, `backups`, `witnesses`: exact. The world and the nodes on threads begin with them. `growing`, the
//! fresh ones that come behind them: exact. But for `make_ahead`, which makes fresh witnesses before they are named and
//! takes memory for their list alone, it takes none.
#![tactic(auto)]

mod backup;
pub mod growing;
mod master;
mod nodes;
mod places;
mod policy;
mod stage;
mod witness;

pub use backup::BackupNode;
pub use curp_client::Client as ClientNode;
pub use curp_config::Manager as ManagerNode;
pub use curp_msg::{Outcome, StepResult};
pub use master::MasterNode;
pub use nodes::{backups, clients, manager, masters, witnesses};
pub use places::place_of;
pub use policy::{COLLECT_AFTER, PENDING_AT_ONCE, SYNC_AFTER};
pub use witness::WitnessNode;

//! A client node with Redis' protocol in front, as a filter of parcels.
//!
//! `serve` reads parcels as `run_node` of `curp_filter` does, and beside them the bytes of connections (`FrontInput` of
//! `curp_front`). What came together is one batch, and so are the commands that connections ask for; each goes out once the
//! node's journal has it. What is told of the node's answers is that of `curp_told`, and what is told of connections that of
//! `curp_front`; that both are put together so is the code below.
#![tactic(auto)]

mod serving;

pub use serving::serve;

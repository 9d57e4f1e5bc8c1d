//! `curp play` reads a script from standard input, and prints what every node does and one order of the requests.
#![tactic(auto)]

use curp_run::start;
use std::process::ExitCode;

fn main(rt: HostRuntime) -> ExitCode {
    start(&rt)
}

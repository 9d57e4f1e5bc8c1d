//! `curpd` runs one node of a store that keeps completed updates through crashes, as a process of its own.
#![tactic(auto)]

use curpd_run::start;
use std::process::ExitCode;

fn main(rt: HostRuntime) -> ExitCode {
    start(&rt)
}

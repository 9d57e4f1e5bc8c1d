//! Tests of streams of bytes and their lines, by the public calls: sources in memory that fail, or that give little at a time,
//! sinks in memory, and std's readers and writers.
#![tactic(auto)]

#[cfg(test)]
mod lines;
#[cfg(test)]
mod rows;
#[cfg(test)]
mod sinks;
#[cfg(test)]
mod standard;

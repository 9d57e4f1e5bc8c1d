//! Tests of whole runs over streams in memory whose reads and writes fail in turn, by the public calls: scripts, and orders for
//! a manager; and of a number on the command line that no run shows.
#![tactic(auto)]

#[cfg(test)]
mod orders;
#[cfg(test)]
mod scripts;
#[cfg(test)]
mod streams;
#[cfg(test)]
mod words;

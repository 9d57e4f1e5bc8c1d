//! Tests of messages and their frames by the public calls, against bytes that were written by hand.
#![tactic(auto)]

#[cfg(test)]
mod bodies;
#[cfg(test)]
mod build;
#[cfg(test)]
mod frames;
#[cfg(test)]
mod hex;
#[cfg(test)]
mod holds;

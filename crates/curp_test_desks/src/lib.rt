//! Tests of desks that have inboxes under a rule, by the public calls.
#![tactic(auto)]

#[cfg(test)]
mod board;
#[cfg(test)]
mod desks;
#[cfg(test)]
mod filled;
#[cfg(test)]
mod relay;

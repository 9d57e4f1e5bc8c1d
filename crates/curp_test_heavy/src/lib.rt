//! Tests of the largest of a recovery and of a migration: each message crosses as a frame, and each node stands on a journal.
#![tactic(auto)]

#[cfg(test)]
mod build;
#[cfg(test)]
mod migration;
#[cfg(test)]
mod recovery;

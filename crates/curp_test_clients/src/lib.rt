//! Tests of clients by their public calls.
#![tactic(auto)]

#[cfg(test)]
mod build;
#[cfg(test)]
mod client;

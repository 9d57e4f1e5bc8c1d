//! Tests of the manager by its public calls.
#![tactic(auto)]

#[cfg(test)]
mod build;
#[cfg(test)]
mod manager;

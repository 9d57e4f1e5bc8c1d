//! Tests of each node behind the trait of all, by their public calls.
#![tactic(auto)]

#[cfg(test)]
mod build;
#[cfg(test)]
mod nodes;

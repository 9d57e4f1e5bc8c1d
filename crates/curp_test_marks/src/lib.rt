//! Tests of witnesses, and of the marks of updates and reads, by their public calls.
#![tactic(auto)]

#[cfg(test)]
mod build;
#[cfg(test)]
mod marks;
#[cfg(test)]
mod witness;

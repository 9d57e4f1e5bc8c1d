//! Tests of masters that serve and of masters that recover, by their public calls.
#![tactic(auto)]

#[cfg(test)]
mod build;
#[cfg(test)]
mod master;
#[cfg(test)]
mod recovery;

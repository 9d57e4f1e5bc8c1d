//! Tests of runs on threads, by the public calls.
#![tactic(auto)]

#[cfg(test)]
mod observer;
#[cfg(test)]
mod run;

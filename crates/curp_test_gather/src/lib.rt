//! Tests of gathering journals, by the public calls.
#![tactic(auto)]

#[cfg(test)]
mod gather;

//! Tests of inboxes under a rule, by the public calls.
#![tactic(auto)]

#[cfg(test)]
mod filled;

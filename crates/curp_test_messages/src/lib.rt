//! Tests of messages, and of any node that takes them, by their public calls.
#![tactic(auto)]

#[cfg(test)]
mod asker;
#[cfg(test)]
mod build;
#[cfg(test)]
mod carried;
#[cfg(test)]
mod messages;
#[cfg(test)]
mod texts;

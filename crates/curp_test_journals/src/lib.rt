//! Tests of journals of nodes by the public calls: a node's journal, its items, and merging journals.
#![tactic(auto)]

#[cfg(test)]
mod asker;
#[cfg(test)]
mod journal;
#[cfg(test)]
mod kept;
#[cfg(test)]
mod lines;
#[cfg(test)]
mod merge;

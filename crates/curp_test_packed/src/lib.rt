//! Tests of entries that are packed, alone and in a backup, by their public calls.
#![tactic(auto)]

#[cfg(test)]
mod build;
#[cfg(test)]
mod entries;
#[cfg(test)]
mod packages;

//! Tests of backups, and of logs whose oldest entries are packed, by their public calls.
#![tactic(auto)]

#[cfg(test)]
mod backup;
#[cfg(test)]
mod build;
#[cfg(test)]
mod logs;
#[cfg(test)]
mod packages;

//! Tests of ranges, commands, the store and the order of commands by their public calls.
#![tactic(auto)]

#[cfg(test)]
mod build;
#[cfg(test)]
mod commands;
#[cfg(test)]
mod kept;
#[cfg(test)]
mod orders;
#[cfg(test)]
mod ranges;
#[cfg(test)]
mod texts;

//! Tests of what journals stand on, by the public calls: a disk over a file, the title of a node's journal, orders as bytes,
//! and comparing messages.
#![tactic(auto)]

#[cfg(test)]
mod build;
#[cfg(test)]
mod files;
#[cfg(test)]
mod orders;
#[cfg(test)]
mod same;
#[cfg(test)]
mod titles;

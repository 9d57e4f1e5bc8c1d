//! Tests of the journals of nodes by their bytes, which are written by hand, cut or changed, and on disks that fail.
#![tactic(auto)]

#[cfg(test)]
mod build;
#[cfg(test)]
mod damage;
#[cfg(test)]
mod faults;
#[cfg(test)]
mod formatting;

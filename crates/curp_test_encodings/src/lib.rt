//! Tests of encodings by the public calls: of packed entries, against bytes that were written by hand; of what is no frame,
//! with the fault and its place; and of large frames, of messages that just are light or just aren't, and of those that
//! have no frame.
#![tactic(auto)]

#[cfg(test)]
mod build;
#[cfg(test)]
mod calls;
#[cfg(test)]
mod entries;
#[cfg(test)]
mod faults;
#[cfg(test)]
mod heavy;
#[cfg(test)]
mod hex;
#[cfg(test)]
mod holds;
#[cfg(test)]
mod large;

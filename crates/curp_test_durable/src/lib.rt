//! Tests of the journals of nodes by the public calls: crashes, what is refused, and inputs that come alone.
#![tactic(auto)]

#[cfg(test)]
mod alone;
#[cfg(test)]
mod build;
#[cfg(test)]
mod crashes;
#[cfg(test)]
mod manager;

//! Tests of Redis' protocol by the public calls: requests from bytes, the replies, and connections in front of a client node.
#![tactic(auto)]

#[cfg(test)]
mod fronts;
#[cfg(test)]
mod replies;
#[cfg(test)]
mod requests;
#[cfg(test)]
mod texts;

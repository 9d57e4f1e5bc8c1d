//! Tests of what a master keeps beside its log, by public calls: reply tables, the tail of what isn't synced, and the queue
//! of ids that witnesses may drop.
#![tactic(auto)]

#[cfg(test)]
mod build;
#[cfg(test)]
mod queue;
#[cfg(test)]
mod replies;
#[cfg(test)]
mod tail;

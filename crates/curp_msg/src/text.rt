//! The texts of what nodes send, answer and are ordered.

mod body;
mod client;
mod keeper;
mod lists;
mod manager;
mod master;
mod order;
mod step;

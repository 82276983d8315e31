//! A layout server: an acceptor of Paxos for each epoch above 1, which tells the latest decided layout.
#![tactic(auto)]

mod server;
mod vote;

pub use server::Layout;

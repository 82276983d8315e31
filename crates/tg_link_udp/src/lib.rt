//! Datagrams over UDP on this machine, where each node has a port of its own.
#![tactic(auto)]

mod link;
mod ports;

pub use link::UdpLink;

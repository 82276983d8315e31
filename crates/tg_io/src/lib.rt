//! The outside: where bytes come from, where they go, and what carries datagrams.
//!
//! Each is a trait with a count of its faults, which never falls; a call fails only where the count rose.
//! Forms in memory tell their content in contracts, the real streams don't.
#![tactic(auto)]

mod calls;
mod datagram;
mod fault;
mod link;
mod mem_link;
mod mem_sink;
mod mem_source;
mod sink;
mod source;
mod status;
mod streams;

pub use datagram::Datagram;
pub use fault::IoErr;
pub use link::{Arrival, Link, Sent};
pub use mem_link::{MemLink, Rule};
pub use mem_sink::MemSink;
pub use mem_source::MemSource;
pub use sink::{Sink, write_all};
pub use source::Source;
pub use status::Status;
pub use streams::{Reading, Writing};

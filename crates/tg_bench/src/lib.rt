//! The run of a made load, and its summary.
#![tactic(auto)]

mod counting;
mod loading;
mod summary;

pub use loading::bench;

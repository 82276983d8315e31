//! The verdict on a transcript that is read from a source, as it is told on a sink.
#![tactic(auto)]

mod judging;
mod line;

pub use judging::judge;

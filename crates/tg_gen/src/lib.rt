//! Made loads: scripts that a number gives.
#![tactic(auto)]

mod lines;
mod load;
mod numbers;
mod round;

pub use load::script;

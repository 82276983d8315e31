//! Sets of numbers.
#![tactic(auto)]

mod set;

pub use set::{Set, SetAns, SetAsk, SetOp};

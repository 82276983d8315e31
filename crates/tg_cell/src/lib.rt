//! Objects of one cell: counters and registers.
#![tactic(auto)]

mod counter;
mod register;

pub use counter::{Counter, CounterAns, CounterAsk, CounterOp};
pub use register::{Register, RegisterAns, RegisterAsk, RegisterOp};

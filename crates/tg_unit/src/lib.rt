//! A storage unit: cells that are written once, behind a seal.
#![tactic(auto)]

mod cells;
mod segment;
mod unit;

pub use segment::Segment;
pub use unit::Unit;

//! Turns of a rescue.
#![tactic(auto)]

mod records;
mod rescue;

pub use records::{commit_at, needs_decision};
pub use rescue::{RescueTurn, rescue_turn};

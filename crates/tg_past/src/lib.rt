//! Views at a past position.
#![tactic(auto)]

mod bases;
mod past;

pub use past::{PastTurn, past_at};

//! Every unit of a layout trims what is below a position. The machine asks each unit, and each answer that it is
//! fed makes its next state. The layout is the caller's: where a unit has left the epoch, the machine says so, and
//! starts over once its caller has learnt a newer layout.
#![tactic(auto)]

mod ends;
mod laws;
mod trims;

pub use ends::TrimEnd;
pub use laws::{
    trim_ends_by_answers, trim_pauses_by_answers, trim_waits_for_answers, trims_are_few, trims_wait,
};
pub use trims::{TrimStep, Trims};

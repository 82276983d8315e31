//! A spare unit takes the cells of a stripe of a closed range, before it may join that stripe's chain. The machine
//! asks nodes, and each answer that it is fed makes its next state. The layout is the caller's: where a node has
//! left the epoch, the machine says so, and starts over once its caller has learnt a newer layout.
#![tactic(auto)]

mod copy_range;
mod copy_state;
mod ends;
mod laws;
mod reading;
mod stripe;

pub use copy_range::{CopyRange, CopyStep};
pub use ends::CopyEnd;
pub use laws::{
    copies_are_few, copies_keep, copy_ends_by_answers, copy_pauses_by_answers,
    copy_waits_for_answers,
};

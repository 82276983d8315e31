//! A sequencer: it issues the positions of the log, and after a change of the layout it scans the log first.
#![tactic(auto)]

mod laws;
mod page;
mod seqr;
mod state;
mod streams;

pub use laws::answers_are_true;
pub use seqr::Seqr;

//! Transcripts: the objects of a run, a line for each reply, and the history of what was committed.
#![tactic(auto)]

mod beginning;
mod cut;
mod fields;
mod lines;
mod printing;
mod put;
mod put_refusal;
mod put_reply;
mod reading;
mod refusals;
mod replies;
mod transcript;

pub use printing::{print_mark, render};
pub use reading::read;
pub use transcript::{AnyDone, AnyMark, AnyWhat, Transcript};

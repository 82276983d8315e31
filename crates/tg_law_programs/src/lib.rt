//! Laws over definitions, the contracts of empty functions:
//!
//! - Scripts and live runs: lawful events lead to the world of each, and so what is told there holds.
//! - What nodes do by themselves is what they do in a world, in the store what is told there holds, and what a node does over a text is a session of its own: laws over definitions, the contracts of empty functions.
//! - What is told in the world of a script or of a live run keeps the grammar of transcripts, and an audit finds it legal.
#![tactic(auto)]

mod audits;
pub mod laws_of_headline;
pub mod laws_of_lives;
pub mod laws_of_scripts;
mod laws_of_sessions;
mod laws_of_transcripts;

pub use audits::{audits_say_legal, live_audits_say_legal};
pub use laws_of_sessions::{
    nodes_hold, sessions_are_nodes, sessions_make_a_run, sessions_reach, store_sessions_hold,
};
pub use laws_of_transcripts::{
    full_tells, histories_fit, records_below, replies_are_numbered, replies_tell, transcripts_fit,
};

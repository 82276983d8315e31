//! The claims of programs: proved of small texts and sessions, and refuted of changed ones.
#![tactic(auto)]

mod laws;

pub use laws::{
    a_live_commit_is_true, a_live_run_is_true, a_replay_is_true, a_replayed_commit_is_true,
    a_script_reaches, sessions_hold, transcripts_want_few_lines,
};

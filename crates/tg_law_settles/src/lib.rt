//! The `settle` lines of scripts: each answers the client that waits alone.
#![tactic(auto)]

pub mod laws_of_settles;

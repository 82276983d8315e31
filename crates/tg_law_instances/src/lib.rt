//! The claims on runs, computed of worked runs and of changed ones.
#![tactic(auto)]

/// The instances are lemmas of this crate.
pub fn here() {}

//! The protocol as definitions: one step of each node, the world, its log and its history.
#![tactic(auto)]

/// The definitions of this crate are here.
pub fn here() {}

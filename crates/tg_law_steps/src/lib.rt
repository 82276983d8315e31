//! The steps of a client, read place by place: what a law about them goes along.
#![tactic(auto)]

/// The reading and its lemmas are in `proofs/`.
pub fn here() {}

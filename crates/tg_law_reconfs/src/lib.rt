//! Reconfigurations finish.
#![tactic(auto)]

pub mod laws_of_reconfs;

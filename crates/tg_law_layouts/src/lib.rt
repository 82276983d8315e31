//! Layouts: one an epoch, each following the one before, in every run of every cluster. Below it what laws of runs begin
//! with: steps and runs, how each node's state moves, requests and their answers, and the quorums' agreement.
#![tactic(auto)]

pub mod laws_of_agreement;
pub mod laws_of_layouts;
pub mod laws_of_moves;
pub mod laws_of_requests;
pub mod laws_of_steps;

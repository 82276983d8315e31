//! Laws over definitions, the contracts of empty functions:
//!
//! - Trims: which leave what is needed, the floors they come of, and what stays settled below them.
//! - Order: no place of a transaction precedes a reply from before its begin, and decisions precede what rests on them.
//! - The store of seven kinds: its runs hold without a premise, since its trims are spare, by induction along the run.
//! - The headline: what holds of every run of the store, and what all its clients decide alike.
#![tactic(auto)]

pub mod laws_of_alike;
pub mod laws_of_decided;
pub mod laws_of_decisions;
pub mod laws_of_floors;
pub mod laws_of_headline;
pub mod laws_of_issues;
pub mod laws_of_joint;
pub mod laws_of_kinds;
pub mod laws_of_leaves;
pub mod laws_of_legal;
pub mod laws_of_ordered;
pub mod laws_of_origins;
pub mod laws_of_points;
pub mod laws_of_registered;
pub mod laws_of_runs;
pub mod laws_of_settled;
pub mod laws_of_spans;
pub mod laws_of_store;
pub mod laws_of_trimming;
pub mod laws_of_trims;

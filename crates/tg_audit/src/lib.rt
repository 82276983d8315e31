//! Audits: whether a run was legal, by the objects, the history and the replies alone.
#![tactic(auto)]

mod asks;
mod auditing;
mod entries;
mod index;
mod judged;
mod judging;
mod own;
mod parts;
mod points;
mod puts;
mod run;
mod same;
mod states;
mod sweep;
mod tables;
mod verdict;
mod versions;

pub use auditing::{audit, judge};
pub use judged::Judged;
pub use judging::verdict_on;
pub use verdict::Verdict;

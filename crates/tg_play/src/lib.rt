//! A client's view: the states of the objects that it hosts, played from the log's entries.
#![tactic(auto)]

mod base;
mod decisions;
mod hosted;
mod objects;
mod ops;
mod played;
mod reads;
mod records;
mod verdict;
mod view;

pub use base::Base;
pub use decisions::{decision_at, decisions_of, lacks_decision};
pub use ops::{op_of, touched_by};
pub use verdict::Verdict;
pub use view::View;

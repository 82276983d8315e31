//! Layouts: which chain holds a position, and which layout may follow another.
#![tactic(auto)]

mod change;
mod fault;
mod next;
mod place;
mod refusal;

pub use fault::ProjFault;
pub use next::next_of;
pub use place::{chain_of, range_of};
pub use refusal::{change_fault, next_ok, spare_fault};

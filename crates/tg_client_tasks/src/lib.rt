//! A client's tasks that need none of the log's entries: commands begin, appends, copies, trims and layouts go on, and
//! ticks ask again.
#![tactic(auto)]

mod accepting;
mod appending;
mod asks;
mod changing;
mod copying;
mod counting;
mod ends;
mod knows;
mod puts;
mod records;
mod refusals;
mod small;
mod ticks;
mod trimming;

pub use accepting::accepts;
pub use appending::on_append;
pub use changing::on_reconf;
pub use copying::{copies_again, on_copy};
pub use counting::given;
pub use knows::known_cell;
pub use puts::refuses;
pub use refusals::refusal;
pub use small::says;
pub use ticks::ticked;
pub use trimming::on_trims;

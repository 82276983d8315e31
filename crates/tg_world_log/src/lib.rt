//! The log over a cluster's units and its archive, the layout that is decided last, and the history of committed
//! transactions.
#![tactic(auto)]

mod archive;
mod cells;
mod decided;
mod history;
mod positions;

pub use archive::{archive_cells, archive_trim};
pub use cells::{log_below, log_of};
pub use decided::newest;
pub use history::history_of;

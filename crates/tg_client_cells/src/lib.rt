//! What a client knows of the log: cells, the positions of its own commit records, the members that a command's walks
//! found, the entries that these make, and what a reply gives up.
#![tactic(auto)]

mod by_stream;
mod entries;
mod known;
mod laws;
mod pages;
mod positions;

pub use by_stream::StreamPositions;
pub use known::Known;
pub use laws::{
    new_entries_suffice, walks_find_in_order, walks_keep_settled, walks_leave_below,
    words_are_the_rules,
};
pub use positions::Positions;

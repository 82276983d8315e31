//! Cells of the log: what is settled stays and is settled alike, entries stand once and linked as they were issued, and
//! positions, tails and places come in the order of time.
#![tactic(auto)]

pub mod laws_of_cells;
pub mod laws_of_entries;
pub mod laws_of_homes;
pub mod laws_of_order;
pub mod laws_of_places;
pub mod laws_of_tokens;

//! One cell of the log by messages: a page is put down a chain, a cell is read, a hole is filled, and a
//! chain is probed; and a newer layout is learnt. A machine asks nodes, and each answer that it is fed
//! makes its next state.
#![tactic(auto)]

mod asking;
mod cell_place;
mod ends;
mod fill;
mod fill_state;
mod get;
mod get_state;
mod header;
mod laws;
mod learn;
mod place;
mod probe;
mod put;
mod step;
mod units;
mod waits;

pub use asking::{FAR, answers, is_from, is_page, is_same_cell, one, sequencer, unit};
pub use ends::{FillCellEnd, GetCellEnd, LearnEnd, ProbeEnd, PutCellEnd};
pub use fill::FillCell;
pub use get::GetCell;
pub use header::header_layout;
pub use laws::{
    ends_by_answers, learn_asks_once, learn_waits, learns_newer, requests_are_few, steps_are_few,
    waits_for_answers,
};
pub use learn::Learn;
pub use place::units_at;
pub use probe::Probe;
pub use put::PutCell;
pub use step::{Next, Step};
pub use units::units_of;
pub use waits::{ask_alike, ask_servers, ask_units, has_rid, is_awaited, without};

//! The log as a history: from its entries alone follows which transactions commit, and so each object's state and the
//! version of each part below each position. Laws over the definitions of `tg_protocol` and `tg_model`, for the kinds
//! of any implementation.

mod forgetting;
mod logs;

pub use forgetting::{floors_are_marked, floors_are_safe};
pub use logs::{
    log_answers_stay, logs_rise, outcomes_are, states_load, versions_are_changes, versions_below,
    versions_change,
};

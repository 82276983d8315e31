//! Checkpoints: the bases that they give, and whether what is below a mark may be forgotten.
#![tactic(auto)]

mod bases;
mod choosing;
mod fault;
mod forgetting;
mod loading;
mod saving;

pub use bases::{fresh_base, last_base, load_from, view_base, view_bases};
pub use fault::{ForgetFault, LoadFault, SaveFault};
pub use forgetting::may_forget;
pub use saving::checkpoint;

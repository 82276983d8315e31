//! The run of a script: its lines are read one by one, each is made of a world at once, and what the world has told is
//! written at the end.
#![tactic(auto)]

mod ending;
mod reading;
mod stages;
mod steps;
mod writing;

pub use reading::read_script;
pub use stages::{End, Finish, Run};
pub use writing::replay;

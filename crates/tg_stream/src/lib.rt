//! What a client reads of the log: known cells by position, and the walk of a stream, from its last positions
//! down by the entries' own pointers. The layout is the caller's: where a unit has left the epoch, a walk says
//! so, and goes on once its caller has learnt a newer layout.
#![tactic(auto)]

mod backs;
mod cells;
mod known;
mod laws;
mod members;
mod page;
mod paused;
mod trail;
mod walk;

pub use cells::Cells;
pub use laws::{
    asks_unknown, ends_by_answers, follows_path, learns_by_fences, requests_are_few,
    starts_are_few, steps_are_few, waits_for_answers,
};
pub use members::Members;
pub use page::Page;
pub use paused::PausedWalk;
pub use walk::{Walk, WalkStep};

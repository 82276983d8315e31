//! A client's state, and the small steps of which its answers are made.
#![tactic(auto)]

mod begin;
mod decision;
mod hand;
mod laws;
mod moved;
mod moving;
mod objects;
mod paused;
mod purpose;
mod replies;
mod state;
mod task;
mod waits;
mod work;

pub use begin::Begun;
pub use decision::is_object;
pub use hand::Hand;
pub use laws::{
    append_numbers, append_stays_near, copy_numbers, copy_stays, numbers_grow, reconf_numbers,
    sync_numbers, sync_stays_near, trim_numbers, walk_numbers,
};
pub use moved::Moved;
pub use moving::{goes_on, learns, meets, stays};
pub use objects::HeaderObjects;
pub use paused::Paused;
pub use purpose::Purpose;
pub use replies::one_note;
pub use state::{State, StateParts};
pub use task::Task;
pub use work::{Job, JobParts, Work};

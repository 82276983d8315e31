//! What a client does on the log by its sequencer: an entry is appended, and the tail is confirmed. Each
//! machine asks nodes, and each answer that it is fed makes its next state. The layout is the caller's: where
//! a node has left the epoch, a machine says so, and goes on once its caller has learnt a newer layout.
#![tactic(auto)]

mod append;
mod append_state;
mod ends;
mod laws;
mod links;
mod page;
mod sync;
mod sync_state;
mod telling;
mod token;

pub use append::{Append, AppendStep, PausedAppend};
pub use ends::{AppendEnd, Confirmed};
pub use laws::{
    append_ends_by_answers, append_pauses_by_answers, append_requests_are_few,
    append_resumes_with_few, append_waits_for_answers, appends_keep, sync_ends_by_answers,
    sync_is_told, sync_pauses_by_answers, sync_requests_are_few, sync_waits_for_answers,
    syncs_keep,
};
pub use page::has_room;
pub use sync::{Sync, SyncStep};
